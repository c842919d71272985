// What the merge asks of a late step that is accepted: the place of a late offset, and whether a word of a jump table stands somewhere. Both are found by binary search
// in the table of crates/late_walk; each function equals its definition in specs/Fields.antt. That these are the definitions of the late step is a law of the table
// (proofs/Lookups.antt, `offset_moved` and `jump_moved`).
#![tactic(auto)]

ghost use Rattle.std.specs.Prelude.{◌≡◌, ◌+◌, ◌*◌, ◌^◌, ◌≤◌, ◌<◌, length};
ghost use Rattle.base_scope.specs.Limits.{BLOCK_LIMIT, LATE_ROW};
ghost use Rattle.late_lookups.specs.Fields.{SOURCE, late_field, row_dummies, row_bytes, row_past, place_in_row, is_start, offset_at, is_table_word, jump_at, AtRow, LateRows};

use base_fields::ByteOrder;
pub use late_walk;
pub use late_walk::{blocks_items, late_length};

// The fields of a row.
pub const SOURCE: usize = 0;

pub const DUMMIES: usize = 1;

pub const LAST: usize = 2;

// Field f of row i.
pub fn field_at(late: &[u8], f: usize, i: usize) -> usize
    requires { (f < 3) × (i ≤ BLOCK_LIMIT) × (LATE_ROW * i + LATE_ROW ≤ length late.now) }
    ensures { (result ≡ late_field late.now f i) × (result < 2 ^ 32) }
{
    base_fields::read32(ByteOrder::Big, late, base_scope::LATE_ROW * i + 4 * f) as usize
}

// Of n blocks, the first whose next row is past x in field f: a binary search.
pub fn row_past(late: &[u8], f: usize, n: usize, x: usize) -> usize
    requires { LateRows late.now n × (f < 3) }
    ensures { (result ≡ row_past late.now f n x) × (result ≤ n) }
{
    let mut low: usize = 0;
    let mut high = n;
    while low < high {
        let middle = low + (high - low) / 2;
        if x < field_at(late, f, middle + 1) {
            high = middle;
        } else {
            low = middle + 1;
        }
    }
    low
}

// How many dummies block i has.
pub fn row_dummies(late: &[u8], i: usize) -> usize
    requires { AtRow late.now i }
    ensures { result ≡ row_dummies late.now i }
{
    let before = field_at(late, DUMMIES, i);
    field_at(late, DUMMIES, i + 1) - before
}

// How many bytes its jump table has.
fn row_bytes(late: &[u8], i: usize) -> usize
    requires { AtRow late.now i }
    ensures { result ≡ row_bytes late.now i }
{
    let count = row_dummies(late, i);
    let before = field_at(late, SOURCE, i);
    field_at(late, SOURCE, i + 1) - before - 4 * count
}

// Whether a word starts at offset x of block i.
fn is_start(late: &[u8], i: usize, x: usize) -> bool
    requires { AtRow late.now i }
    ensures { result ≡ is_start late.now i x }
{
    let source = field_at(late, SOURCE, i);
    if x < source {
        return false;
    }
    (x - source) % 4 == 0
}

// The place of offset x, which is one of block i's.
fn place_in_row(late: &[u8], i: usize, x: usize) -> usize
    requires { AtRow late.now i × (late_field late.now SOURCE i ≤ x) × (x < late_field late.now SOURCE (i + 1)) }
    ensures { result ≡ place_in_row late.now i x }
{
    let k = (x - field_at(late, SOURCE, i)) / 4;
    let count = row_dummies(late, i);
    if k < count {
        let m = field_at(late, DUMMIES, i) + k;
        return base_fields::read24(ByteOrder::Big, late, base_scope::LATE_WORDS + 3 * m) as usize;
    }
    let rest = field_at(late, SOURCE, i + 1) - x;
    field_at(late, LAST, i + 1) - rest
}

// Where late offset x goes, by the table of n blocks; none where it is not moved.
pub fn offset_at(late: &[u8], n: usize, x: u32) -> Option<usize>
    requires { LateRows late.now n }
    ensures { result ≡ offset_at late.now n x }
{
    let offset = x as usize;
    let i = row_past(late, SOURCE, n, offset);
    if i == n {
        return None;
    }
    if is_start(late, i, offset) {
        return Some(place_in_row(late, i, offset));
    }
    None
}

// Whether a word of block i's jump table is at x.
fn is_table_word(late: &[u8], i: usize, x: usize) -> bool
    requires { AtRow late.now i × (x < 2 ^ 32) }
    ensures { result ≡ is_table_word late.now i x }
{
    let bytes = row_bytes(late, i);
    let end = field_at(late, LAST, i + 1);
    if x + bytes < end {
        return false;
    }
    (x + bytes - end) % 4 == 0
}

// Whether a word of a jump table is at x of .rodata, in the table of n blocks.
pub fn jump_at(late: &[u8], n: usize, x: u32) -> bool
    requires { LateRows late.now n }
    ensures { result ≡ jump_at late.now n x }
{
    let place = x as usize;
    let i = row_past(late, LAST, n, place);
    if i == n {
        return false;
    }
    is_table_word(late, i, place)
}
