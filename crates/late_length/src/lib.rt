// The late length over all blocks. It equals `late_length` of the crate blocks_items, and there is a late step exactly where it is not 0 (proofs/Late.antt,
// `step_length`).
#![tactic(auto)]

ghost use Rattle.std.specs.Prelude.{◌≡◌, ◌+◌, ◌*◌, ◌≤◌, ◌<◌, length};
ghost use Rattle.base_scope.specs.Limits.{NUMBER_LIMIT, BLOCK_LIMIT, DUMMY_LIMIT, PLACE_ROW};
ghost use Rattle.blocks_file.specs.Blocks.{block_count};
ghost use Rattle.blocks_file.specs.Table.{Parsed};
ghost use Rattle.blocks_places.specs.Lines.{line_count};
ghost use Rattle.blocks_places.specs.Table.{places_in};
ghost use Rattle.blocks_items.specs.Items.{late_bytes, late_length};

pub use blocks_items;
pub use blocks_places;

// The late step as 11 to 13 leave it: whether there is one, the late length, where the late span starts in the assembled object's .late_rodata, and the end of the
// last .rodata span.
#[derive(Clone, Copy)]
pub struct LateStep {
    pub runs: bool,
    pub length: usize,
    pub start: usize,
    pub last: usize,
}

// The bytes of the late words and the jump table of block i, none where it is switched off.
fn late_bytes(file: &[u8], table: &[u8], places: &[u8], i: usize) -> usize
    requires { Parsed file.now table.now × (PLACE_ROW * line_count file.now ≤ length places.now) × (i < block_count file.now) }
    ensures { (result ≡ late_bytes (places_in places.now (line_count file.now)) file.now i) × (result ≤ 4 * DUMMY_LIMIT + NUMBER_LIMIT) }
{
    if blocks_places::is_live(file, table, places, i) {
        let jumps = blocks_items::jump_table(file, table, i);
        return 4 * blocks_items::dummy_count(table, i) + jumps;
    }
    0
}

// The late length: 4 × dummies + all jump tables, of the blocks that stay on. `blocks` is how many blocks the file has.
pub fn late_length(file: &[u8], table: &[u8], places: &[u8], blocks: usize) -> usize
    requires { Parsed file.now table.now × (PLACE_ROW * line_count file.now ≤ length places.now) × (blocks ≡ block_count file.now) }
    ensures { (result ≡ late_length (places_in places.now (line_count file.now)) file.now)
        × (result ≤ (4 * DUMMY_LIMIT + NUMBER_LIMIT) * BLOCK_LIMIT) }
{
    let mut n: usize = 0;
    for i in 0..blocks {
        n += late_bytes(file, table, places, i);
    }
    n
}
