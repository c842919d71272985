// The final .rodata as runs, for the writer: at a position at or past the end of the last .rodata block copied, the bytes of one kind that begin there, read in the
// table of the late step. Each function equals its definition in specs/; that a run's bytes are those of the final .rodata is a law (proofs/InHand.antt,
// `hand_run_at`, and proofs/Runs.antt, `run_is`).
#![tactic(auto)]

ghost use Rattle.std.specs.Prelude.{◌≡◌, ◌+◌, ◌^◌, ◌≤◌, ◌<◌, length};
ghost use Rattle.base_scope.specs.Limits.{FILE_LIMIT};
ghost use Rattle.blocks_file.specs.Blocks.{block_count};
ghost use Rattle.blocks_file.specs.Table.{Parsed};
ghost use Rattle.late_lookups.specs.of_blocks_items.Items.{dummy_count};
ghost use Rattle.late_lookups.specs.Fields.{SOURCE, LAST, late_field, row_dummies, row_past, AtRow};
ghost use Rattle.late_runs.specs.Words.{dummy_place, dummy_over, moved_on, gap_to, word_run, table_run, row_run, run_read, Rising, AtWord, InHand};

use base_fields::ByteOrder;
pub use late_lookups;
use late_lookups::blocks_items;
pub use late_lookups::{late_length, late_walk};

// A run of bytes of one kind: so many bytes as they were; A's late bytes from an offset on, so many; so many zeros.
#[derive(Clone, Copy)]
pub enum Run {
    Kept(usize),
    Late(usize, usize),
    Zeros(usize),
}

// The place of dummy k of block i.
fn dummy_place(late: &[u8], i: usize, k: usize) -> usize
    requires { Rising late.now i × (k < row_dummies late.now i) }
    ensures { (result ≡ dummy_place late.now i k) × (result < 2 ^ 32) }
{
    let m = late_lookups::field_at(late, late_lookups::DUMMIES, i) + k;
    base_fields::read24(ByteOrder::Big, late, base_scope::LATE_WORDS + 3 * m) as usize
}

// The first dummy of block i, of so many, whose late word ends past x: a binary search.
fn dummy_over(late: &[u8], i: usize, count: usize, x: usize) -> usize
    requires { Rising late.now i × (count ≡ row_dummies late.now i) }
    ensures { (result ≡ dummy_over late.now i x) × (result ≤ count) }
{
    let mut low: usize = 0;
    let mut high = count;
    while low < high {
        let middle = low + (high - low) / 2;
        if x < dummy_place(late, i, middle) + 4 {
            high = middle;
        } else {
            low = middle + 1;
        }
    }
    low
}

// Whether dummy k of block i moved on by 4 to its place p; `last` is the last place before it.
fn has_moved_on(
    order: ByteOrder,
    file: &[u8],
    table: &[u8],
    rodata: &[u8],
    i: usize,
    count: usize,
    k: usize,
    last: usize,
    p: usize,
) -> bool
    requires { Parsed file.now table.now × (i < block_count file.now) × (count ≡ dummy_count file.now i) × (k < count) × (p ≤ length rodata.now) × (last ≤ length rodata.now)
        × (length rodata.now ≤ FILE_LIMIT) }
    ensures { result ≡ moved_on order file.now rodata.now i count k last p }
{
    if k != 0 {
        return false;
    }
    if count < 2 {
        return false;
    }
    if p < last + 4 {
        return false;
    }
    let word = blocks_items::dummy_word(file, table, i, 0);
    late_dummies::is_word_at(order, rodata, word, p - 4)
}

// The bytes from x on before a place p.
fn gap_to(shifted: bool, x: usize, p: usize) -> Run
    requires { (x < p) × (p ≤ FILE_LIMIT) }
    ensures { result ≡ gap_to shifted x p }
{
    if shifted {
        if p <= x + 4 {
            return Run::Zeros(p - x);
        }
        return Run::Kept(p - 4 - x);
    }
    Run::Kept(p - x)
}

// The run at x, where dummy k of block i is the first whose late word ends past it.
fn word_run(
    order: ByteOrder,
    file: &[u8],
    table: &[u8],
    rodata: &[u8],
    late: &[u8],
    i: usize,
    count: usize,
    k: usize,
    x: usize,
) -> Run
    requires { AtWord file.now rodata.now table.now late.now i count k x }
    ensures { result ≡ word_run order file.now rodata.now late.now i count k x }
{
    let p = dummy_place(late, i, k);
    if p <= x {
        let source = late_lookups::field_at(late, late_lookups::SOURCE, i);
        return Run::Late(source + 4 * k + (x - p), p + 4 - x);
    }
    let last = late_lookups::field_at(late, late_lookups::LAST, i);
    gap_to(
        has_moved_on(order, file, table, rodata, i, count, k, last, p),
        x,
        p,
    )
}

// The run at x, which lies in the jump table of block i.
fn table_run(late: &[u8], i: usize, x: usize) -> Run
    requires { AtRow late.now i × (x ≤ late_field late.now LAST (i + 1)) × (late_field late.now LAST (i + 1) ≤ x + late_field late.now SOURCE (i + 1)) }
    ensures { result ≡ table_run late.now i x }
{
    let rest = late_lookups::field_at(late, late_lookups::LAST, i + 1) - x;
    Run::Late(
        late_lookups::field_at(late, late_lookups::SOURCE, i + 1) - rest,
        rest,
    )
}

// The run at x, where block i is the first that ends past it.
fn run_in(
    order: ByteOrder,
    file: &[u8],
    table: &[u8],
    rodata: &[u8],
    late: &[u8],
    i: usize,
    x: usize,
) -> Run
    requires { InHand order file.now rodata.now table.now late.now x × (i ≡ row_past late.now LAST (block_count file.now) x) × (i < block_count file.now) }
    ensures { result ≡ row_run order file.now rodata.now late.now x i }
{
    let count = late_lookups::row_dummies(late, i);
    let k = dummy_over(late, i, count, x);
    if k < count {
        return word_run(order, file, table, rodata, late, i, count, k, x);
    }
    table_run(late, i, x)
}

// The run of the final .rodata that begins at x. `blocks` is how many blocks the file has.
pub fn run_at(
    order: ByteOrder,
    file: &[u8],
    table: &[u8],
    rodata: &[u8],
    blocks: usize,
    late: &[u8],
    x: usize,
) -> Run
    requires { InHand order file.now rodata.now table.now late.now x × (blocks ≡ block_count file.now) }
    ensures { result ≡ run_read order file.now rodata.now late.now x blocks }
{
    let i = late_lookups::row_past(late, late_lookups::LAST, blocks, x);
    if i == blocks {
        return Run::Kept(rodata.len() - x);
    }
    run_in(order, file, table, rodata, late, i, x)
}
