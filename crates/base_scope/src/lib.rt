// What document 01 fixes once: limits, section codes, refusal numbers, the gABI's constants, and what a test finds. The definitions in
// specs/ have the same names; a contract that cites one holds the constant here to it.
#![tactic(auto)]

ghost use Rattle.std.specs.Prelude.{◌≡◌, ◌&&◌, ◌*◌, ◌≤◌, ◌<◌};
ghost use Rattle.base_scope.specs.Codes.{code_type, holds_bytes, leaves_out, is_late_target, target_code, line_code, line_block, line_of, LINES};
ghost use Rattle.base_scope.specs.Limits.{BLOCK_LIMIT};
ghost use Rattle.base_scope.specs.Refusals.{expect, found_below};

pub const FILE_LIMIT: usize = 1048576;

pub const NUMBER_LIMIT: usize = 1048576;

pub const ALIGN8_LIMIT: usize = 8;

pub const SECTION_LIMIT: usize = 128;

pub const SYMBOL_LIMIT: usize = 4096;

pub const ALIGN_LIMIT: u32 = 65536;

pub const BLOCK_LIMIT: usize = 1024;

pub const PATH_LIMIT: usize = 255;

pub const STATIC_LIMIT: usize = 4096;

pub const STATIC_NAME_LIMIT: usize = 1024;

pub const DUMMY_LINE: usize = 15;

pub const ID_LIMIT: usize = 12288;

// The bytes of a row of each working table.
pub const BLOCK_ROW: usize = 48;

pub const PLACE_ROW: usize = 8;

pub const SPAN_ROW: usize = 8;

pub const LATE_ROW: usize = 12;

pub const STATIC_ROW: usize = 15;

pub const ID_ROW: usize = 8;

// The least lengths of the working buffers (docs/SIZES.md).
pub const BLOCK_TABLE: usize = 49152;

pub const PLACE_TABLE: usize = 32768;

pub const SPAN_TABLE: usize = 8192;

pub const LATE_WORDS: usize = 12300;

pub const LATE_TABLE: usize = 222015;

pub const STATIC_TABLE: usize = 61440;

pub const USED_TABLE: usize = 4096;

pub const GLABEL_TABLE: usize = 16384;

pub const ID_TABLE: usize = 98304;

pub const POSITION_TABLE: usize = 24576;

pub const INDEX_TABLE: usize = 57344;

pub const SYMBOL_INDEX: usize = 24576;

pub const OPEN_TABLE: usize = 73728;

pub const ELFCLASS32: u8 = 1;

pub const ELFDATA2LSB: u8 = 1;

pub const ELFDATA2MSB: u8 = 2;

pub const ET_REL: u32 = 1;

pub const EM_MIPS: u32 = 8;

pub const SHT_NULL: u32 = 0;

pub const SHT_PROGBITS: u32 = 1;

pub const SHT_SYMTAB: u32 = 2;

pub const SHT_STRTAB: u32 = 3;

pub const SHT_RELA: u32 = 4;

pub const SHT_NOBITS: u32 = 8;

pub const SHT_REL: u32 = 9;

pub const SHT_MIPS_GPTAB: u32 = 0x70000003;

pub const SHT_MIPS_DEBUG: u32 = 0x70000005;

pub const SHT_MIPS_REGINFO: u32 = 0x70000006;

pub const SHF_LINK_ORDER: u32 = 0x80;

pub const SHN_UNDEF: u32 = 0;

pub const SHN_ABS: u32 = 0xfff1;

pub const SHN_LORESERVE: u32 = 0xff00;

pub const SHN_XINDEX: u32 = 0xffff;

pub const STB_LOCAL: u8 = 0;

pub const STB_GLOBAL: u8 = 1;

pub const STT_OBJECT: u8 = 1;

pub const STT_FUNC: u8 = 2;

pub const TEXT: u32 = 1;

pub const DATA: u32 = 2;

pub const RODATA: u32 = 3;

pub const BSS: u32 = 4;

pub const LATE_RODATA: u32 = 5;

pub const REGINFO: u32 = 6;

pub const CODES: u32 = 6;

pub const LATE_TARGET: u32 = 3;

// How many lines of sections a block has: one for each of the codes 1 to LINES.
pub const LINES: usize = 4;

// The lengths of arrays with an entry for each code, from code 1 on, or at the code's index (0 is no code).
pub const CODE_ENTRIES: usize = CODES as usize;

pub const CODE_INDICES: usize = CODES as usize + 1;

pub const LINE_INDICES: usize = LINES + 1;

pub const LIMITS: u32 = 1;

pub const FILE_HEADER: u32 = 2;

pub const SECTION_HEADER: u32 = 3;

pub const SECTION_NAME: u32 = 4;

pub const SYMBOL_TABLE: u32 = 5;

pub const RELOCATION_TABLE: u32 = 6;

pub const BLOCK_FILE: u32 = 7;

pub const BLOCK_PLACE: u32 = 8;

pub const BLOCK_ALIGNMENT: u32 = 9;

pub const MISSING_SECTION: u32 = 11;

pub const BLOCK_LABELS: u32 = 12;

pub const LATE_LABELS: u32 = 13;

pub const LATE_STEP: u32 = 14;

pub const SYMBOL_SECTION: u32 = 15;

pub const LATE_SYMBOL: u32 = 16;

pub const STATICS: u32 = 17;

pub const LOOSE_SYMBOL: u32 = 18;

pub const NAME_TWICE: u32 = 19;

pub const OUTPUT_ROOM: u32 = 21;

// What a test finds is the place that is reported, or none: here a test that must hold, else the fault is at `place`; then what the tests after it found.
pub fn expected(holds: bool, place: usize, rest: Option<usize>) -> Option<usize>
    ensures { result ≡ expect holds place rest }
{
    if holds { rest } else { Some(place) }
}

// What a search for a fault among n found: its index, or n where there is none.
pub fn found_below(n: usize, i: usize) -> Option<usize>
    ensures { result ≡ found_below n i }
{
    if i < n { Some(i) } else { None }
}

// Both of two tests.
pub fn both(a: bool, b: bool) -> bool
    ensures { result ≡ (a && b) }
{
    if a { b } else { false }
}

// The type that document 01 asks of the section of a code.
pub fn code_type(code: u32) -> u32
    ensures { result ≡ code_type code }
{
    match code {
        1 => SHT_PROGBITS,
        2 => SHT_PROGBITS,
        3 => SHT_PROGBITS,
        4 => SHT_NOBITS,
        5 => SHT_PROGBITS,
        6 => SHT_MIPS_REGINFO,
        _ => SHT_NULL,
    }
}

// Whether the section of a code has bytes.
pub fn holds_bytes(code: u32) -> bool
    ensures { result ≡ holds_bytes code }
{
    match code {
        1 => true,
        2 => true,
        3 => true,
        4 => false,
        5 => true,
        6 => true,
        _ => false,
    }
}

// Whether relocations at the words that a block's copy replaces are left out in the section of a code.
pub fn leaves_out(code: u32) -> bool
    ensures { result ≡ leaves_out code }
{
    code == TEXT
}

// Whether the late words go into the section of a code.
pub fn is_late_target(code: u32) -> bool
    ensures { result ≡ is_late_target code }
{
    code == LATE_TARGET
}

// Where the bytes of the assembled object's section of a code go.
pub fn target_code(code: u32) -> u32
    ensures { result ≡ target_code code }
{
    if code == LATE_RODATA {
        return LATE_TARGET;
    }
    code
}

// The code of line j.
pub fn line_code(j: usize) -> u32
    ensures { (result ≡ line_code j) × (1 ≤ result) × (result ≤ LINES) }
{
    (j % LINES + 1) as u32
}

// The block of line j.
pub fn line_block(j: usize) -> usize
    ensures { result ≡ line_block j }
{
    j / LINES
}

// The line of a code in block i.
pub fn line_of(i: usize, code: u32) -> usize
    requires { (i < BLOCK_LIMIT) × (1 ≤ code) × (code ≤ LINES) }
    ensures { (result ≡ line_of i code) × (result < LINES * BLOCK_LIMIT) }
{
    LINES * i + (code as usize - 1)
}
