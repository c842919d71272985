// The merge on numbers and byte slices; the crate daphulle exports it, with demand 3 in its contract. It takes any bytes, numbers and buffer lengths, and equals `merge_verdict`
// (crate merge_verdict, specs/Verdict.antt): number, object and place, or the length; the output holds the merged object and zeros past it, and the working buffers are zero. The
// stages come in document 01's order of refusals.
#![tactic(auto)]

ghost use Rattle.std.specs.Prelude.{◌≡◌, not, ◌||◌, ◌≤◌, length};
ghost use Rattle.base_scope.specs.Limits.{FILE_LIMIT, over_limits};
ghost use Rattle.base_answers.specs.Answered.{Answered};
ghost use Rattle.elf_index.specs.Index.{SymbolIndex};
ghost use Rattle.elf_check.specs.View.{Viewed};
ghost use Rattle.merge_buffers.specs.Buffers.{BLOCK_BUFFER, PLACE_BUFFER, STEP_BUFFER, INDEX_BUFFER, blocks_part, places_part, late_step_part, names_part, BuffersHeld};
ghost use Rattle.merge_inputs.specs.Taken.{Took, InputsRead};
ghost use Rattle.merge_line_up.specs.Answer.{LinesUp};
ghost use Rattle.merge_sections.specs.Stages.{StageRead, Movable, Searchable, Searched};
ghost use Rattle.merge_verdict.specs.of_symbols_stage.End.{SymbolsHeld};
ghost use Rattle.write_merged.specs.of_write_planned.Held.{held_places};
ghost use Rattle.merge_verdict.specs.Verdict.{is_path_byte, is_path, merge_bounds, carried_answer, stages_answer, late_answer, symbols_answer, entries_answer, merge_verdict};
ghost use Rattle.merge_call.specs.Path.{PathHeld};
ghost use Rattle.merge_call.specs.Merged.{Merged};

use base_answers::{Outcome, Refusal};
use carry_clash::late_lookups::late_length::LateStep;
use merge_inputs::Inputs;
use merge_sections::Stage;
use merge_verdict::symbols_stage;
use merge_verdict::symbols_stage::{Counts, Manner};
use write_merged::carry_stage;
use write_merged::write_planned::Writing;

// Whether a byte may stand in a path.
fn is_path_byte(x: u8) -> bool
    ensures { result ≡ is_path_byte x }
{
    base_scope::both(x > 0, x < 128)
}

// Whether it is a path: refusal 1 asks it.
fn is_path(path: &[u8]) -> bool
    ensures { result ≡ is_path path.now }
{
    let n = path.len();
    if n > base_scope::PATH_LIMIT {
        return false;
    }
    for x in path {
        if !is_path_byte(*x) {
            return false;
        }
    }
    true
}

// Refusal 1, by the lengths of the inputs and of the working buffers, the flag and the mode.
fn breaks_merge_bounds(
    compiled: usize,
    assembled: usize,
    blocks: usize,
    flag: u32,
    mode: u32,
    table: usize,
    places: usize,
    steps: usize,
    index: usize,
) -> bool
    ensures { result ≡ over_limits (merge_bounds compiled assembled blocks flag mode table places steps index) }
{
    if compiled > base_scope::FILE_LIMIT {
        return true;
    }
    if assembled > base_scope::FILE_LIMIT {
        return true;
    }
    if blocks > base_scope::FILE_LIMIT {
        return true;
    }
    if flag > 1 {
        return true;
    }
    if mode > 3 {
        return true;
    }
    if table < merge_buffers::BLOCK_BUFFER {
        return true;
    }
    if places < merge_buffers::PLACE_BUFFER {
        return true;
    }
    if steps < merge_buffers::STEP_BUFFER {
        return true;
    }
    index < merge_buffers::INDEX_BUFFER
}

// Refusal 20, then the merged object.
fn merge_entries<'a>(
    compiled: &'a [u8],
    assembled: &'a [u8],
    file: &[u8],
    path: &[u8],
    stage: Stage,
    flag: u32,
    manner: Manner,
    counts: Counts,
    out: &mut [u8],
    table: &[u8],
    places: &mut [u8],
    steps: &[u8],
    index: &mut [u8],
) -> Outcome
    requires { StageRead compiled.now assembled.now file.now stage (blocks_part table.now) (places_part places.old)
        × Movable compiled.now file.now stage (held_places file.now places.old) (late_step_part steps.now)
        × SymbolsHeld compiled.now assembled.now file.now (held_places file.now places.old) stage manner counts table.now steps.now index.old
        × PathHeld path.now manner × BuffersHeld table.now places.old steps.now index.old }
    ensures { Answered (entries_answer stage.inputs.order compiled.now assembled.now (held_places file.now places.old) file.now path.now flag manner.mode (length out.old)) result out.old out.new }
{
    let carry = carry_stage::carry_ready(
        compiled, assembled, file, stage, flag, table, places, index,
    );
    match carry_stage::carry_fault(compiled, assembled, stage, carry, steps, index) {
        Ok(()) => {
            let x = Writing {
                stage,
                manner,
                counts,
                carry,
                flag,
            };
            write_merged::merged_answer(
                out, compiled, assembled, file, path, x, table, places, steps, index,
            )
        }
        Err(lost) => base_answers::refused(lost),
    }
}

// Refusals 15 to 19, then 20.
fn merge_symbols<'a>(
    compiled: &'a [u8],
    assembled: &'a [u8],
    file: &[u8],
    path: &[u8],
    stage: Stage,
    flag: u32,
    manner: Manner,
    out: &mut [u8],
    table: &mut [u8],
    places: &mut [u8],
    steps: &mut [u8],
    index: &mut [u8],
) -> Outcome
    requires { StageRead compiled.now assembled.now file.now stage (blocks_part table.old) (places_part places.old)
        × Movable compiled.now file.now stage (held_places file.now places.old) (late_step_part steps.old) × PathHeld path.now manner
        × BuffersHeld table.old places.old steps.old index.old × SymbolIndex stage.inputs.order assembled.now (names_part index.old) }
    ensures { Answered (symbols_answer stage.inputs.order compiled.now assembled.now (held_places file.now places.old) file.now path.now flag manner.mode (length out.old)) result out.old out.new }
{
    match symbols_stage::merge_symbols(
        compiled, assembled, file, stage, manner, table, places, steps, index,
    ) {
        Ok(counts) => merge_entries(
            compiled, assembled, file, path, stage, flag, manner, counts, out, table, places,
            steps, index,
        ),
        Err(unmerged) => base_answers::refused(unmerged),
    }
}

// What the late step finds; its table stands in the buffer of the steps where it finds no fault.
fn search_late(
    compiled: &[u8],
    file: &[u8],
    stage: Stage,
    table: &[u8],
    places: &[u8],
    steps: &mut [u8],
) -> Option<usize>
    requires { Searchable compiled.now file.now stage (blocks_part table.now) (places_part places.now) × (BLOCK_BUFFER ≤ length table.now) × (PLACE_BUFFER ≤ length places.now)
        × (STEP_BUFFER ≤ length steps.old) }
    ensures { Searched compiled.now file.now stage (held_places file.now places.now) result (late_step_part steps.new) }
{
    let blocks = base_buffers::part(table, 0, base_scope::BLOCK_TABLE);
    let lines = base_buffers::part(places, 0, base_scope::PLACE_TABLE);
    let from = base_buffers::bound(0);
    let to = base_buffers::bound(merge_buffers::USED_AT);
    merge_sections::late_fault(compiled, file, blocks, lines, stage, &mut steps[from..to])
}

// The late step, 14; then the symbols.
fn merge_late<'a>(
    compiled: &'a [u8],
    assembled: &'a [u8],
    file: &[u8],
    path: &[u8],
    stage: Stage,
    flag: u32,
    manner: Manner,
    out: &mut [u8],
    table: &mut [u8],
    places: &mut [u8],
    steps: &mut [u8],
    index: &mut [u8],
) -> Outcome
    requires { StageRead compiled.now assembled.now file.now stage (blocks_part table.old) (places_part places.old) × PathHeld path.now manner
        × BuffersHeld table.old places.old steps.old index.old × SymbolIndex stage.inputs.order assembled.now (names_part index.old) }
    ensures { Answered (late_answer stage.inputs.order compiled.now assembled.now (held_places file.now places.old) file.now path.now flag manner.mode (length out.old)) result out.old out.new }
{
    match search_late(compiled, file, stage, table, places, steps) {
        None => merge_symbols(
            compiled, assembled, file, path, stage, flag, manner, out, table, places, steps, index,
        ),
        Some(block) => base_answers::refused(Refusal {
            number: base_scope::LATE_STEP,
            object: base_answers::COMPILED,
            place: block as u64,
        }),
    }
}

// Indexes A's symbols by their names, at the end of the index.
fn index_names(assembled: &[u8], inputs: Inputs, index: &mut [u8])
    requires { Viewed inputs.order assembled.now inputs.assembled × (INDEX_BUFFER ≤ length index.old) }
    ensures { SymbolIndex inputs.order assembled.now (names_part index.new) }
{
    let order = inputs.order;
    let source = inputs.assembled;
    let symbols = source.symbols;
    let from = base_buffers::bound(merge_buffers::NAMES_AT);
    let to = base_buffers::bound(merge_buffers::INDEX_BUFFER);
    elf_index::index_symbols(order, assembled, symbols, &mut index[from..to]);
}

// The line-up, 11 to 13, by the index of A's symbols.
fn line_up(
    compiled: &[u8],
    assembled: &[u8],
    file: &[u8],
    inputs: Inputs,
    table: &[u8],
    places: &[u8],
    index: &[u8],
) -> Result<LateStep, Refusal>
    requires { InputsRead compiled.now assembled.now file.now inputs (blocks_part table.now) (places_part places.now) × (BLOCK_BUFFER ≤ length table.now)
        × (PLACE_BUFFER ≤ length places.now) × (INDEX_BUFFER ≤ length index.now) × SymbolIndex inputs.order assembled.now (names_part index.now) }
    ensures { LinesUp inputs.order compiled.now assembled.now (held_places file.now places.now) file.now result }
{
    let blocks = base_buffers::part(table, 0, base_scope::BLOCK_TABLE);
    let lines = base_buffers::part(places, 0, base_scope::PLACE_TABLE);
    let names = base_buffers::part(index, merge_buffers::NAMES_AT, base_scope::SYMBOL_INDEX);
    merge_line_up::line_up(compiled, assembled, file, blocks, lines, inputs, names)
}

// The index of A's symbols, which also the symbols are read by; 11 to 13; then the late step.
fn merge_stages<'a>(
    compiled: &'a [u8],
    assembled: &'a [u8],
    file: &[u8],
    path: &[u8],
    inputs: Inputs,
    flag: u32,
    manner: Manner,
    out: &mut [u8],
    table: &mut [u8],
    places: &mut [u8],
    steps: &mut [u8],
    index: &mut [u8],
) -> Outcome
    requires { InputsRead compiled.now assembled.now file.now inputs (blocks_part table.old) (places_part places.old) × PathHeld path.now manner
        × BuffersHeld table.old places.old steps.old index.old }
    ensures { Answered (stages_answer inputs.order compiled.now assembled.now (held_places file.now places.old) file.now path.now flag manner.mode (length out.old)) result out.old out.new }
{
    index_names(assembled, inputs, index);
    match line_up(compiled, assembled, file, inputs, table, places, index) {
        Ok(step) => {
            let stage = Stage { inputs, step };
            merge_late(
                compiled, assembled, file, path, stage, flag, manner, out, table, places, steps,
                index,
            )
        }
        Err(unlined) => base_answers::refused(unlined),
    }
}

// 10; then the line-up.
fn merge_carried<'a>(
    compiled: &'a [u8],
    assembled: &'a [u8],
    file: &[u8],
    path: &[u8],
    inputs: Inputs,
    flag: u32,
    manner: Manner,
    out: &mut [u8],
    table: &mut [u8],
    places: &mut [u8],
    steps: &mut [u8],
    index: &mut [u8],
) -> Outcome
    requires { InputsRead compiled.now assembled.now file.now inputs (blocks_part table.old) (places_part places.old) × PathHeld path.now manner
        × BuffersHeld table.old places.old steps.old index.old }
    ensures { Answered (carried_answer inputs.order compiled.now assembled.now (held_places file.now places.old) file.now path.now flag manner.mode (length out.old)) result out.old out.new }
{
    let order = inputs.order;
    match carry_clash::clash_fault(
        order,
        compiled,
        assembled,
        inputs.compiled,
        inputs.assembled,
        flag,
    ) {
        None => merge_stages(
            compiled, assembled, file, path, inputs, flag, manner, out, table, places, steps, index,
        ),
        Some(section) => base_answers::refused(Refusal {
            number: carry_clash::CLASH,
            object: base_answers::COMPILED,
            place: section as u64,
        }),
    }
}

// The inputs; their tables stand at the start of their buffers where all pass.
fn take_inputs(
    compiled: &[u8],
    assembled: &[u8],
    file: &[u8],
    table: &mut [u8],
    places: &mut [u8],
) -> Result<usize, Refusal>
    requires { (length file.now ≤ FILE_LIMIT) × (BLOCK_BUFFER ≤ length table.old) × (PLACE_BUFFER ≤ length places.old) }
    ensures { Took compiled.now assembled.now file.now result (blocks_part table.new) (places_part places.new) }
{
    let from = base_buffers::bound(0);
    let to = base_buffers::bound(merge_buffers::HOLDERS_AT);
    merge_inputs::take_inputs(compiled, assembled, file, table, &mut places[from..to])
}

// Refusal 1: the bounds, then the path.
fn breaks_limits(
    compiled: usize,
    assembled: usize,
    blocks: usize,
    path: &[u8],
    flag: u32,
    mode: u32,
    table: usize,
    places: usize,
    steps: usize,
    index: usize,
) -> bool
    ensures { result ≡ (over_limits (merge_bounds compiled assembled blocks flag mode table places steps index) || not (is_path path.now)) }
{
    if breaks_merge_bounds(
        compiled, assembled, blocks, flag, mode, table, places, steps, index,
    ) {
        return true;
    }
    !is_path(path)
}

// Refusal 1, the inputs, then the stages.
fn merge_answer<'a>(
    compiled: &'a [u8],
    assembled: &'a [u8],
    file: &[u8],
    path: &[u8],
    flag: u32,
    mode: u32,
    out: &mut [u8],
    table: &mut [u8],
    places: &mut [u8],
    steps: &mut [u8],
    index: &mut [u8],
) -> Outcome
    ensures { Answered (merge_verdict compiled.now assembled.now file.now path.now flag mode (length out.old) (length table.old) (length places.old) (length steps.old) (length index.old)) result out.old out.new }
{
    if breaks_limits(
        compiled.len(),
        assembled.len(),
        file.len(),
        path,
        flag,
        mode,
        table.len(),
        places.len(),
        steps.len(),
        index.len(),
    ) {
        return base_answers::refused(Refusal {
            number: base_scope::LIMITS,
            object: base_answers::NONE,
            place: 0,
        });
    }
    match take_inputs(compiled, assembled, file, table, places) {
        Ok(blocks) => {
            let inputs = merge_inputs::inputs_of(compiled, assembled, blocks);
            let head = statics_names::head_length(mode, path);
            let manner = Manner { mode, head };
            merge_carried(
                compiled, assembled, file, path, inputs, flag, manner, out, table, places, steps,
                index,
            )
        }
        Err(unread) => base_answers::refused(unread),
    }
}

// The merge of a compiled object and an assembled one by a block file.
pub fn merge<'a>(
    compiled: &'a [u8],
    assembled: &'a [u8],
    file: &[u8],
    path: &[u8],
    flag: u32,
    mode: u32,
    out: &mut [u8],
    table: &mut [u8],
    places: &mut [u8],
    steps: &mut [u8],
    index: &mut [u8],
) -> Outcome
    ensures { Merged (merge_verdict compiled.now assembled.now file.now path.now flag mode (length out.old) (length table.old) (length places.old) (length steps.old) (length index.old)) result out.old out.new table.old table.new places.old places.new steps.old steps.new index.old index.new }
{
    let r = merge_answer(
        compiled, assembled, file, path, flag, mode, out, table, places, steps, index,
    );
    let end = r.length as usize;
    base_buffers::zero_from(out, end);
    base_buffers::zero(table);
    base_buffers::zero(places);
    base_buffers::zero(steps);
    base_buffers::zero(index);
    r
}
