// The items of one block in the late step: its dummies, each searched from the last place on, and its jump table behind them; refusal 14 of any of them. Each
// function equals its definition in specs/.
#![tactic(auto)]

ghost use Rattle.std.specs.Prelude.{◌≡◌, ◌&&◌, ◌+◌, ◌*◌, ◌≤◌, ◌<◌, length, eqb, ltb};
ghost use Rattle.base_lists.specs.Windows.{spliced};
ghost use Rattle.base_scope.specs.Limits.{FILE_LIMIT};
ghost use Rattle.blocks_file.specs.Blocks.{block_count};
ghost use Rattle.blocks_file.specs.Table.{Parsed};
ghost use Rattle.late_moves.specs.of_blocks_items.Items.{dummy_count, jump_table};
ghost use Rattle.late_dummies.specs.Spots.{pick_spot};
ghost use Rattle.late_moves.specs.Moves.{item_place, item_fault};
ghost use Rattle.late_blocks.specs.Items.{table_spot, place_words, items_spot};

use base_fields::ByteOrder;
pub use late_moves::{blocks_items, blocks_places, late_length};

// Whether dummy k of so many is the first of two or more.
fn is_first_of_many(k: usize, count: usize) -> bool
    ensures { result ≡ (eqb k 0 && ltb 1 count) }
{
    base_scope::both(k == 0, 1 < count)
}

// The place of dummy k of block i, or none where it is lost; `last` is the last place before it.
fn dummy_spot(
    order: ByteOrder,
    rodata: &[u8],
    file: &[u8],
    table: &[u8],
    i: usize,
    count: usize,
    k: usize,
    last: usize,
) -> Option<usize>
    requires { Parsed file.now table.now × (i < block_count file.now) × (count ≡ dummy_count file.now i) × (k < count) × (last ≤ length rodata.now) }
    ensures { result ≡ pick_spot (item_fault order file.now rodata.now i last k) None (Some (item_place order file.now rodata.now i last k)) }
{
    let word = blocks_items::dummy_word(file, table, i, k);
    let many = is_first_of_many(k, count);
    late_dummies::place_dummy(order, rodata, many, last, word)
}

// The places of block i's dummies go into the table from `at` on, three bytes each, until one is lost: where they end, or none. `last` is the last place before the block.
fn place_dummies(
    order: ByteOrder,
    rodata: &[u8],
    file: &[u8],
    table: &[u8],
    i: usize,
    count: usize,
    last: usize,
    late: &mut [u8],
    at: usize,
) -> Option<usize>
    requires { Parsed file.now table.now × (i < block_count file.now) × (count ≡ dummy_count file.now i) × (last ≤ length rodata.now) × (length rodata.now ≤ FILE_LIMIT)
        × (at + 3 * count ≤ length late.old) }
    ensures { (result ≡ items_spot order file.now rodata.now i last count)
        × (late.new ≡ spliced late.old at (place_words order file.now rodata.now i last count)) }
{
    let mut here = last;
    for k in 0..count {
        match dummy_spot(order, rodata, file, table, i, count, k, here) {
            Some(p) => {
                base_fields::write24(ByteOrder::Big, late, at + 3 * k, p as u32);
                here = p + 4;
            }
            None => return None,
        }
    }
    Some(here)
}

// The end of a jump table of so many bytes, behind so many dummies, or none where it does not fit.
fn table_spot(rodata: &[u8], count: usize, bytes: usize, last: usize) -> Option<usize>
    requires { last ≤ length rodata.now }
    ensures { result ≡ table_spot rodata.now count bytes last }
{
    if bytes == 0 {
        return Some(last);
    }
    if count == 0 {
        return None;
    }
    if rodata.len() - last < bytes {
        return None;
    }
    Some(last + bytes)
}

// The items of block i, which is not switched off: its dummies, then its jump table of so many bytes. Where they end, or none.
pub fn place_block(
    order: ByteOrder,
    rodata: &[u8],
    file: &[u8],
    table: &[u8],
    i: usize,
    count: usize,
    bytes: usize,
    last: usize,
    late: &mut [u8],
    at: usize,
) -> Option<usize>
    requires { Parsed file.now table.now × (i < block_count file.now) × (count ≡ dummy_count file.now i) × (last ≤ length rodata.now) × (length rodata.now ≤ FILE_LIMIT)
        × (at + 3 * count ≤ length late.old) × (bytes ≡ jump_table file.now i) }
    ensures { (result ≡ items_spot order file.now rodata.now i last (count + 1))
        × (late.new ≡ spliced late.old at (place_words order file.now rodata.now i last count)) }
{
    let end = place_dummies(order, rodata, file, table, i, count, last, late, at)?;
    table_spot(rodata, count, bytes, end)
}
