// The records of an object file, as types: the file header, section headers, symbol and relocation entries, and the debug section's header.
// Each is read and written as its layout in specs/ says; proofs/RoundTrip.antt shows that reading gives back what was written.
#![tactic(auto)]

mod debug;
mod header;
mod relocation;
mod section;
mod symbol;

pub use debug::Hdrr;
pub use header::ElfHeader;
pub use relocation::RelocationEntry;
pub use section::SectionHeader;
pub use symbol::SymbolEntry;
