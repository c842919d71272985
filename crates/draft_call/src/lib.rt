// The draft: an exported call on numbers and byte slices. It takes any bytes and any buffer lengths, and equals `draft_verdict` of specs/Verdict.antt:
// number, object and place, or the length; the output holds the text and zeros past it, and the working buffers are zero.
#![tactic(auto)]

ghost use Rattle.std.specs.Prelude.{◌≡◌, ◌≤◌, length};
ghost use Rattle.base_lists.specs.Written.{Written};
ghost use Rattle.base_buffers.specs.Parts.{part_at};
ghost use Rattle.base_scope.specs.Limits.{FILE_LIMIT, BLOCK_TABLE, OPEN_TABLE, over_limits};
ghost use Rattle.base_answers.specs.Answered.{Answered};
ghost use Rattle.blocks_file.specs.Blocks.{block_count};
ghost use Rattle.blocks_places.specs.Lines.{line_count};
ghost use Rattle.blocks_places.specs.Table.{places_in, Laid};
ghost use Rattle.draft_text.specs.Draft.{draft_text};
ghost use Rattle.draft_call.specs.Verdict.{draft_bounds, draft_verdict};
ghost use Rattle.draft_call.specs.Drafted.{Drafted};

use base_answers::{Outcome, Refusal};

// Refusal 1, by the lengths of the inputs and of the working buffers.
fn breaks_draft_bounds(
    compiled: usize,
    prelude: usize,
    blocks: usize,
    table: usize,
    places: usize,
) -> bool
    ensures { result ≡ over_limits (draft_bounds compiled prelude blocks table places) }
{
    if compiled > base_scope::FILE_LIMIT {
        return true;
    }
    if prelude > base_scope::FILE_LIMIT {
        return true;
    }
    if blocks > base_scope::FILE_LIMIT {
        return true;
    }
    if table < base_scope::OPEN_TABLE {
        return true;
    }
    if places < base_scope::PLACE_TABLE {
        return true;
    }
    false
}

// Writes the text from the start of the output, and answers its length, also where it does not fit; the table of blocks stands at the front of its buffer.
fn append_text(
    out: &mut [u8],
    prelude: &[u8],
    file: &[u8],
    table: &[u8],
    places: &[u8],
    count: usize,
) -> u64
    requires { Laid (places_in places.now (line_count file.now)) file.now (part_at 0 BLOCK_TABLE table.now) places.now × (count ≡ block_count file.now)
        × (length prelude.now ≤ FILE_LIMIT) × (OPEN_TABLE ≤ length table.now) }
    ensures { Written out.old 0 (draft_text (places_in places.now (line_count file.now)) file.now prelude.now) result out.new }
{
    let own = base_buffers::part(table, 0, base_scope::BLOCK_TABLE);
    draft_text::append_draft(out, prelude, file, own, places, count)
}

// The answer, and the text at the front of the output.
fn draft_answer(
    compiled: &[u8],
    prelude: &[u8],
    blocks: &[u8],
    out: &mut [u8],
    table: &mut [u8],
    places: &mut [u8],
) -> Outcome
    ensures { Answered (draft_verdict compiled.now prelude.now blocks.now (length out.old) (length table.old) (length places.old)) result out.old out.new }
{
    if breaks_draft_bounds(
        compiled.len(),
        prelude.len(),
        blocks.len(),
        table.len(),
        places.len(),
    ) {
        return base_answers::refused(Refusal {
            number: base_scope::LIMITS,
            object: base_answers::NONE,
            place: 0,
        });
    }
    match open_inputs::open(compiled, blocks, table, places) {
        Ok(count) => {
            let n = append_text(out, prelude, blocks, table, places, count);
            if n <= out.len() as u64 {
                return base_answers::result(n);
            }
            base_answers::refused(Refusal {
                number: base_scope::OUTPUT_ROOM,
                object: base_answers::NONE,
                place: n,
            })
        }
        Err(refusal) => base_answers::refused(refusal),
    }
}

// The draft of a compiled object, a prelude and a block file.
#[unsafe(no_mangle)]
pub extern "C" fn draft(
    compiled: &[u8],
    prelude: &[u8],
    blocks: &[u8],
    out: &mut [u8],
    table: &mut [u8],
    places: &mut [u8],
) -> Outcome
    ensures { Drafted (draft_verdict compiled.now prelude.now blocks.now (length out.old) (length table.old) (length places.old)) result out.old out.new table.old table.new places.old places.new }
{
    let r = draft_answer(compiled, prelude, blocks, out, table, places);
    let end = r.length as usize;
    base_buffers::zero_from(out, end);
    base_buffers::zero(table);
    base_buffers::zero(places);
    r
}
