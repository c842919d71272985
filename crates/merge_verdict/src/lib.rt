// No code: the definition of the whole merge, and what an accepted one implies.
#![tactic(auto)]

pub use symbols_stage;
