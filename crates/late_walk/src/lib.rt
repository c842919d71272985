// The late step: where each dummy's late word and each jump table goes, and refusal 14, in one walk over the blocks. The code searches .rodata and moves nothing:
// the writer reads the table that is left here. Each function equals its definition in specs/.
#![tactic(auto)]

ghost use Rattle.std.specs.Prelude.{◌≡◌, ◌+◌, ◌*◌, ◌≤◌, ◌<◌, length};
ghost use Rattle.base_lists.specs.Windows.{spliced};
ghost use Rattle.base_scope.specs.Limits.{FILE_LIMIT, BLOCK_LIMIT, DUMMY_LIMIT, LATE_ROW, LATE_WORDS, LATE_TABLE};
ghost use Rattle.late_blocks.specs.of_blocks_places.Lines.{line_count};
ghost use Rattle.late_blocks.specs.of_blocks_places.Table.{places_in};
ghost use Rattle.late_blocks.specs.Items.{place_words};
ghost use Rattle.late_walk.specs.Steps.{live_dummies, block_step, AtBlock};
ghost use Rattle.late_walk.specs.Table.{late_row_bytes, Ready, Walk};

use base_fields::ByteOrder;
use late_blocks::blocks_places;
use late_blocks::late_length::LateStep;
pub use late_blocks::{blocks_items, late_length};

// What stands before a block: the late offset, the number of dummies and the last place.
#[derive(Clone, Copy)]
pub struct LateRow {
    pub source: usize,
    pub dummies: usize,
    pub last: usize,
}

// What stands before the block behind block i, or none, which is refusal 14; `row` stands before block i.
fn step_block(
    order: ByteOrder,
    file: &[u8],
    table: &[u8],
    places: &[u8],
    i: usize,
    rodata: &[u8],
    row: LateRow,
    late: &mut [u8],
) -> Option<LateRow>
    requires { AtBlock (places_in places.now (line_count file.now)) file.now rodata.now table.now places.now late.old i row }
    ensures { (result ≡ block_step order (places_in places.now (line_count file.now)) file.now rodata.now i row)
        × (late.new ≡ spliced late.old (LATE_WORDS + 3 * row.dummies) (place_words order file.now rodata.now i row.last (live_dummies (places_in places.now (line_count file.now)) file.now i))) }
{
    if blocks_places::is_live(file, table, places, i) {
        let count = blocks_items::dummy_count(table, i);
        let bytes = blocks_items::jump_table(file, table, i);
        let at = base_scope::LATE_WORDS + 3 * row.dummies;
        let end = late_blocks::place_block(
            order, rodata, file, table, i, count, bytes, row.last, late, at,
        )?;
        return Some(LateRow {
            source: row.source + 4 * count + bytes,
            dummies: row.dummies + count,
            last: end,
        });
    }
    Some(row)
}

// Writes the row of block i.
fn store_row(late: &mut [u8], i: usize, row: LateRow)
    requires { (LATE_ROW * i + LATE_ROW ≤ length late.old) × (i ≤ BLOCK_LIMIT) × (row.source ≤ FILE_LIMIT) × (row.dummies ≤ DUMMY_LIMIT) × (row.last ≤ FILE_LIMIT) }
    ensures { late.new ≡ spliced late.old (LATE_ROW * i) (late_row_bytes row) }
{
    let words = [row.source as u32, row.dummies as u32, row.last as u32];
    base_fields::write_words(ByteOrder::Big, late, base_scope::LATE_ROW * i, &words);
}

// The walk: every block in order. Its row goes into the table and then the places of its dummies, until a block is at fault; behind the last block stands one
// row more. `rodata` is the compiled object's .rodata, `blocks` is how many blocks the file has.
pub fn place_late(
    order: ByteOrder,
    file: &[u8],
    table: &[u8],
    places: &[u8],
    blocks: usize,
    rodata: &[u8],
    step: LateStep,
    late: &mut [u8],
) -> Option<usize>
    requires { Ready (places_in places.now (line_count file.now)) file.now rodata.now table.now places.now blocks step × (LATE_TABLE ≤ length late.old) }
    ensures { Walk order (places_in places.now (line_count file.now)) file.now rodata.now step.start result late.old late.new }
{
    let mut row = LateRow {
        source: step.start,
        dummies: 0,
        last: step.last,
    };
    for i in 0..blocks {
        store_row(late, i, row);
        match step_block(order, file, table, places, i, rodata, row, late) {
            Some(next) => {
                row = next;
            }
            None => return Some(i),
        }
    }
    store_row(late, blocks, row);
    None
}
