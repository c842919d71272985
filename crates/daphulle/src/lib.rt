// Both calls in one static library (`rt lib`): an archive has the functions that its own crate exports and none of the crates below, so each call is handed on here
// under its contract; and demand 3 stands in that of the merge.
#![tactic(auto)]

ghost use Rattle.std.specs.Prelude.{length};
ghost use Rattle.daphulle.specs.Keeps.{Keeps};
ghost use Rattle.draft_call.specs.Verdict.{draft_verdict};
ghost use Rattle.draft_call.specs.Drafted.{Drafted};
ghost use Rattle.merge_call.specs.of_merge_verdict.Verdict.{merge_verdict};
ghost use Rattle.merge_call.specs.Merged.{Merged};

use base_answers::Outcome;

// The draft of a compiled object, a prelude and a block file.
#[unsafe(no_mangle)]
pub extern "C" fn draft(
    compiled: &[u8],
    prelude: &[u8],
    blocks: &[u8],
    out: &mut [u8],
    table: &mut [u8],
    places: &mut [u8],
) -> Outcome
    ensures { Drafted (draft_verdict compiled.now prelude.now blocks.now (length out.old) (length table.old) (length places.old)) result out.old out.new table.old table.new places.old places.new }
{
    draft_call::draft(compiled, prelude, blocks, out, table, places)
}

// The merge of a compiled object and an assembled one by a block file.
#[unsafe(no_mangle)]
pub extern "C" fn merge<'a>(
    compiled: &'a [u8],
    assembled: &'a [u8],
    file: &[u8],
    path: &[u8],
    flag: u32,
    mode: u32,
    out: &mut [u8],
    table: &mut [u8],
    places: &mut [u8],
    steps: &mut [u8],
    index: &mut [u8],
) -> Outcome
    ensures { Merged (merge_verdict compiled.now assembled.now file.now path.now flag mode (length out.old) (length table.old) (length places.old) (length steps.old) (length index.old)) result out.old out.new table.old table.new places.old places.new steps.old steps.new index.old index.new
        × Keeps compiled.now assembled.now file.now path.now flag mode result out.new }
{
    merge_call::merge(
        compiled, assembled, file, path, flag, mode, out, table, places, steps, index,
    )
}
