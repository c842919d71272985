// The working buffers of a merge: where each table starts in its buffer, and the least length of each buffer. The definitions in specs/Buffers.antt have the same names; a
// contract that cites one holds the constant here to it.
#![tactic(auto)]

pub const ROWS_AT: usize = 49152;

pub const BLOCK_BUFFER: usize = 147456;

pub const HOLDERS_AT: usize = 32768;

pub const PLACE_BUFFER: usize = 57344;

pub const USED_AT: usize = 222015;

pub const STATIC_AT: usize = 226111;

pub const GLABELS_AT: usize = 287551;

pub const LIST_AT: usize = 303935;

pub const STEP_BUFFER: usize = 328511;

pub const NUMBERS_AT: usize = 24576;

pub const SPANS_AT: usize = 49152;

pub const NAMES_AT: usize = 32768;

pub const INDEX_BUFFER: usize = 57344;
