// The symbols of a merge behind its late step, in document 01's order of refusals: 15 and 16, 17, then 18 and 19 over the list, and the numbers of the result. Tables stand in
// the working buffers of `merge_buffers`; what each function leaves in them is in specs/Stage.antt. `merge_symbols` equals `symbol_stages_verdict` of specs/Verdict.antt.
#![tactic(auto)]

ghost use Rattle.std.specs.Prelude.{◌≡◌, ◌*◌, ◌≤◌, length, get_or};
ghost use Rattle.base_lists.specs.Windows.{Within};
ghost use Rattle.base_scope.specs.Limits.{FILE_LIMIT, HEAD_LIMIT, ID_LIMIT};
ghost use Rattle.elf_readers.specs.Bounds.{Named};
ghost use Rattle.elf_check.specs.View.{view_of, Viewed};
ghost use Rattle.elf_symbols.specs.Symbols.{Table};
ghost use Rattle.elf_index.specs.Index.{SymbolIndex};
ghost use Rattle.blocks_file.specs.Blocks.{block_count};
ghost use Rattle.blocks_places.specs.Lines.{line_count};
ghost use Rattle.blocks_places.specs.Table.{places_in, Laid};
ghost use Rattle.symbols_table.specs.of_merge_sections.Stages.{StageRead, Movable};
ghost use Rattle.symbols_merge.specs.Merged.{RESULT_GROUPS, LOCAL_GROUPS};
ghost use Rattle.symbols_table.specs.of_symbols_taken.Passed.{TakenPassed};
ghost use Rattle.symbols_table.specs.of_symbols_taken.Code.{used_bytes, LateIn, taken_in};
ghost use Rattle.symbols_table.specs.of_symbols_holders.Ready.{symbols_in, HoldersReady};
ghost use Rattle.symbols_numbers.specs.Numbers.{Tables, HoldersFirst, group_starts};
ghost use Rattle.symbols_table.specs.of_symbols_fill.Fill.{FillReady};
ghost use Rattle.base_buffers.specs.Parts.{part_at};
ghost use Rattle.merge_buffers.specs.Buffers.{BLOCK_BUFFER, PLACE_BUFFER, STEP_BUFFER, INDEX_BUFFER, NUMBERS_AT, blocks_part, ids_part, places_part, late_step_part, used_part, statics_part, list_part, names_part, order_part, BuffersHeld};
ghost use Rattle.symbols_table.specs.of_symbols_chain.Chain.{SymbolsNumbered};
ghost use Rattle.symbols_stage.specs.Stage.{SymbolsTaken, StaticsRead, GlabelsRead, IdsFilledIn, IdsListedIn, IdsHeldIn, IdRooms, OrderLeft, NumbersLeft};
ghost use Rattle.symbols_stage.specs.End.{counts_of, filling_of, NumberedEnd, ListEnd, StaticsEnd, StageEnd};

use base_answers::Refusal;
use statics_walk::Listing;
use symbols_table::merge_inputs::Inputs;
pub use symbols_table::merge_sections;
use symbols_table::merge_sections::Stage;
use symbols_table::symbols_fill::Filling;
use symbols_table::symbols_names::Sources;
use symbols_table::{symbols_chain, symbols_fill, symbols_taken};

// How statics are taken over: the mode, and how many bytes it puts in front of a name.
#[derive(Clone, Copy)]
pub struct Manner {
    pub mode: u32,
    pub head: u32,
}

// Refusals 15 and 16, by the marks.
fn taken_verdict(assembled: &[u8], stage: Stage, steps: &[u8]) -> Result<(), Refusal>
    requires { Viewed stage.inputs.order assembled.now stage.inputs.assembled × Within (used_bytes stage.inputs.order assembled.now) 0 (used_part steps.now)
        × LateIn stage.step.runs (late_step_part steps.now) stage.inputs.blocks × (STEP_BUFFER ≤ length steps.now) }
    ensures { result ≡ taken_in stage.inputs.compiled stage.inputs.assembled stage.inputs.order assembled.now stage.step.runs (late_step_part steps.now) stage.inputs.blocks }
{
    let late = base_buffers::part(steps, 0, base_scope::LATE_TABLE);
    let used = base_buffers::part(steps, merge_buffers::USED_AT, base_scope::USED_TABLE);
    symbols_taken::taken_verdict(assembled, stage.inputs, stage.step, late, used)
}

// Marks the used symbols: refusals 15 and 16.
fn take_symbols(assembled: &[u8], stage: Stage, steps: &mut [u8]) -> Result<(), Refusal>
    requires { Viewed stage.inputs.order assembled.now stage.inputs.assembled × LateIn stage.step.runs (late_step_part steps.old) stage.inputs.blocks
        × (STEP_BUFFER ≤ length steps.old) }
    ensures { SymbolsTaken assembled.now stage result steps.old steps.new }
{
    let inputs = stage.inputs;
    let order = inputs.order;
    let from = base_buffers::bound(merge_buffers::USED_AT);
    let to = base_buffers::bound(merge_buffers::STATIC_AT);
    symbols_taken::mark_used(order, assembled, inputs.assembled, &mut steps[from..to]);
    taken_verdict(assembled, stage, steps)
}

// Lists the statics: refusal 17.
fn read_statics(compiled: &[u8], inputs: Inputs, mode: u32, head: u32, steps: &mut [u8]) -> Listing
    requires { Named inputs.order compiled.now × (length compiled.now ≤ FILE_LIMIT) × (inputs.compiled ≡ view_of inputs.order compiled.now) × (head ≤ HEAD_LIMIT)
        × (STEP_BUFFER ≤ length steps.old) }
    ensures { StaticsRead compiled.now inputs.order mode head result steps.old steps.new }
{
    let order = inputs.order;
    let from = base_buffers::bound(merge_buffers::STATIC_AT);
    let to = base_buffers::bound(merge_buffers::GLABELS_AT);
    statics_walk::list_statics(
        order,
        compiled,
        inputs.compiled,
        mode,
        head,
        &mut steps[from..to],
    )
}

// Leaves the words of the glabels, by the index of A's symbols.
fn read_glabels(
    assembled: &[u8],
    file: &[u8],
    inputs: Inputs,
    table: &[u8],
    places: &[u8],
    index: &[u8],
    steps: &mut [u8],
)
    requires { Table inputs.order assembled.now inputs.assembled.symbols
        × Laid (places_in (places_part places.now) (line_count file.now)) file.now (blocks_part table.now) (places_part places.now)
        × (inputs.blocks ≡ block_count file.now) × BuffersHeld table.now places.now steps.old index.now
        × SymbolIndex inputs.order assembled.now (names_part index.now) }
    ensures { GlabelsRead assembled.now file.now inputs.order (places_in (places_part places.now) (line_count file.now)) steps.old steps.new }
{
    let order = inputs.order;
    let source = inputs.assembled;
    let symbols = source.symbols;
    let blocks = base_buffers::part(table, 0, base_scope::BLOCK_TABLE);
    let lines = base_buffers::part(places, 0, base_scope::PLACE_TABLE);
    let names = base_buffers::part(index, merge_buffers::NAMES_AT, base_scope::SYMBOL_INDEX);
    let from = base_buffers::bound(merge_buffers::GLABELS_AT);
    let to = base_buffers::bound(merge_buffers::LIST_AT);
    symbols_glabels::mark_glabels(
        order,
        assembled,
        symbols,
        file,
        blocks,
        lines,
        inputs.blocks,
        names,
        &mut steps[from..to],
    );
}

// Writes the rows of all ids, and answers how many there are.
fn fill_table<'a>(
    compiled: &'a [u8],
    assembled: &'a [u8],
    filling: Filling,
    table: &mut [u8],
    steps: &[u8],
) -> usize
    requires { FillReady compiled.now assembled.now (statics_part steps.now) (used_part steps.now) (late_step_part steps.now) filling × (BLOCK_BUFFER ≤ length table.old)
        × (STEP_BUFFER ≤ length steps.now) }
    ensures { IdsFilledIn compiled.now assembled.now filling result steps.now table.old table.new }
{
    let statics = base_buffers::part(steps, merge_buffers::STATIC_AT, base_scope::STATIC_TABLE);
    let used = base_buffers::part(steps, merge_buffers::USED_AT, base_scope::USED_TABLE);
    let late = base_buffers::part(steps, 0, base_scope::LATE_TABLE);
    let from = base_buffers::bound(merge_buffers::ROWS_AT);
    let to = base_buffers::bound(merge_buffers::BLOCK_BUFFER);
    symbols_fill::fill_rows(
        compiled,
        assembled,
        statics,
        used,
        late,
        filling,
        &mut table[from..to],
    )
}

// Leaves the rows of all ids and the list of those that are taken, and answers how many positions it has.
fn list_symbols<'a>(
    compiled: &'a [u8],
    assembled: &'a [u8],
    filling: Filling,
    table: &mut [u8],
    steps: &mut [u8],
) -> usize
    requires { FillReady compiled.now assembled.now (statics_part steps.old) (used_part steps.old) (late_step_part steps.old) filling × (BLOCK_BUFFER ≤ length table.old)
        × (STEP_BUFFER ≤ length steps.old) }
    ensures { IdsListedIn compiled.now assembled.now filling result table.old table.new steps.old steps.new }
{
    let n = fill_table(compiled, assembled, filling, table, steps);
    let rows = base_buffers::part(table, merge_buffers::ROWS_AT, base_scope::ID_TABLE);
    let from = base_buffers::bound(merge_buffers::LIST_AT);
    let to = base_buffers::bound(merge_buffers::STEP_BUFFER);
    symbols_rows::list_ids(rows, n, &mut steps[from..to])
}

// Leaves the holders of the m positions of the list. The index of A's symbols is written over.
fn hold_symbols<'a>(
    compiled: &'a [u8],
    assembled: &'a [u8],
    filling: Filling,
    m: usize,
    table: &[u8],
    steps: &[u8],
    places: &mut [u8],
    index: &mut [u8],
)
    requires { HoldersReady filling.inputs.order compiled.now assembled.now (statics_part steps.now) filling.sources (ids_part table.now) (list_part steps.now) m
        × BuffersHeld table.now places.old steps.now index.old × SymbolIndex filling.inputs.order assembled.now (names_part index.old) }
    ensures { IdsHeldIn (symbols_in filling.inputs.order compiled.now assembled.now (statics_part steps.now) filling.sources (ids_part table.now)) m
        places.old places.new }
{
    let inputs = filling.inputs;
    let order = inputs.order;
    let statics = base_buffers::part(steps, merge_buffers::STATIC_AT, base_scope::STATIC_TABLE);
    let rows = base_buffers::part(table, merge_buffers::ROWS_AT, base_scope::ID_TABLE);
    let list = base_buffers::part(steps, merge_buffers::LIST_AT, base_scope::POSITION_TABLE);
    let from = base_buffers::bound(merge_buffers::HOLDERS_AT);
    let to = base_buffers::bound(merge_buffers::PLACE_BUFFER);
    symbols_chain::hold_symbols(
        order,
        compiled,
        assembled,
        statics,
        filling.sources,
        rows,
        list,
        merge_buffers::NAMES_AT,
        m,
        index,
        &mut places[from..to],
    );
}

// Leaves the order of the result, over the index.
fn order_result(
    rows: &[u8],
    list: &[u8],
    holders: &[u8],
    m: usize,
    starts: [usize; symbols_numbers::STARTS],
    index: &mut [u8],
)
    requires { Tables rows.now list.now holders.now m × (starts ≡ group_starts rows.now list.now holders.now m) × (INDEX_BUFFER ≤ length index.old) }
    ensures { OrderLeft rows.now list.now holders.now m index.new }
{
    let from = base_buffers::bound(0);
    let to = base_buffers::bound(merge_buffers::NUMBERS_AT);
    symbols_numbers::order_positions(rows, list, holders, m, starts, &mut index[from..to]);
}

// Leaves the numbers of the ids, of which there are so many, behind the order.
fn number_result(
    rows: &[u8],
    list: &[u8],
    holders: &[u8],
    m: usize,
    starts: [usize; symbols_numbers::STARTS],
    ids: usize,
    index: &mut [u8],
)
    requires { Tables rows.now list.now holders.now m × HoldersFirst list.now holders.now m × (starts ≡ group_starts rows.now list.now holders.now m)
        × IdRooms list.now m ids × (INDEX_BUFFER ≤ length index.old) }
    ensures { NumbersLeft rows.now list.now holders.now m ids index.old index.new }
{
    let from = base_buffers::bound(merge_buffers::NUMBERS_AT);
    let to = base_buffers::bound(merge_buffers::NUMBERS_AT + 2 * ids);
    symbols_numbers::number_ids(rows, list, holders, m, starts, &mut index[from..to]);
}

// Leaves the order of the result and the numbers of the ids, and answers where the groups of the result start.
fn number_positions(
    rows: &[u8],
    list: &[u8],
    holders: &[u8],
    m: usize,
    ids: usize,
    index: &mut [u8],
) -> [usize; symbols_numbers::STARTS]
    requires { Tables rows.now list.now holders.now m × HoldersFirst list.now holders.now m × IdRooms list.now m ids × (INDEX_BUFFER ≤ length index.old) }
    ensures { SymbolsNumbered rows.now list.now holders.now m result (order_part index.new) (part_at NUMBERS_AT (2 * ids) index.new) }
{
    let starts = symbols_numbers::group_starts(rows, list, holders, m);
    order_result(rows, list, holders, m, starts, index);
    number_result(rows, list, holders, m, starts, ids, index);
    starts
}

// How many statics there are, how many entries of the result are local, and how many it has, entry 0 counted in both.
#[derive(Clone, Copy)]
pub struct Counts {
    pub statics: usize,
    pub locals: usize,
    pub count: usize,
}

// The counts by the starts of the groups.
fn counts_of(statics: usize, starts: [usize; symbols_numbers::STARTS]) -> Counts
    requires { (get_or starts LOCAL_GROUPS 0 ≤ ID_LIMIT) × (get_or starts RESULT_GROUPS 0 ≤ ID_LIMIT) }
    ensures { result ≡ counts_of statics starts }
{
    let locals = starts[2] + 1;
    let count = starts[4] + 1;
    Counts {
        statics,
        locals,
        count,
    }
}

// Refusals 18 and 19 over the m positions of the list, then the numbers.
fn number_list(
    statics: usize,
    ids: usize,
    m: usize,
    rows: &[u8],
    list: &[u8],
    holders: &[u8],
    index: &mut [u8],
) -> Result<Counts, Refusal>
    requires { Tables rows.now list.now holders.now m × HoldersFirst list.now holders.now m × IdRooms list.now m ids × (INDEX_BUFFER ≤ length index.old) }
    ensures { NumberedEnd rows.now list.now holders.now m ids statics result index.new }
{
    symbols_rows::symbols_verdict(rows, list, holders, m)?;
    let starts = number_positions(rows, list, holders, m, ids, index);
    Ok(counts_of(statics, starts))
}

// The rows, the list, the holders; then 18 and 19, and the numbers.
fn merge_list<'a>(
    compiled: &'a [u8],
    assembled: &'a [u8],
    filling: Filling,
    table: &mut [u8],
    places: &mut [u8],
    steps: &mut [u8],
    index: &mut [u8],
) -> Result<Counts, Refusal>
    requires { FillReady compiled.now assembled.now (statics_part steps.old) (used_part steps.old) (late_step_part steps.old) filling
        × BuffersHeld table.old places.old steps.old index.old × SymbolIndex filling.inputs.order assembled.now (names_part index.old) }
    ensures { ListEnd compiled.now assembled.now filling result table.old table.new places.old places.new steps.old steps.new index.new }
{
    let m = list_symbols(compiled, assembled, filling, table, steps);
    hold_symbols(compiled, assembled, filling, m, table, steps, places, index);
    let rows = base_buffers::part(table, merge_buffers::ROWS_AT, base_scope::ID_TABLE);
    let list = base_buffers::part(steps, merge_buffers::LIST_AT, base_scope::POSITION_TABLE);
    let holders = base_buffers::part(
        places,
        merge_buffers::HOLDERS_AT,
        base_scope::POSITION_TABLE,
    );
    let sources = filling.sources;
    let ids = symbols_fill::id_count(sources);
    number_list(sources.statics, ids, m, rows, list, holders, index)
}

// What the rows are filled by, behind the statics.
pub fn filling_of(stage: Stage, mode: u32, statics: usize) -> Filling
    ensures { result ≡ filling_of stage mode statics }
{
    let inputs = stage.inputs;
    let step = stage.step;
    let own = inputs.compiled;
    let other = inputs.assembled;
    let compiled = own.symbols;
    let assembled = other.symbols;
    let sources = Sources {
        compiled,
        assembled,
        statics,
    };
    Filling {
        inputs,
        step,
        sources,
        mode,
    }
}

// Refusal 17; then the glabels, and the list.
fn merge_statics<'a>(
    compiled: &'a [u8],
    assembled: &'a [u8],
    file: &[u8],
    stage: Stage,
    manner: Manner,
    table: &mut [u8],
    places: &mut [u8],
    steps: &mut [u8],
    index: &mut [u8],
) -> Result<Counts, Refusal>
    requires { StageRead compiled.now assembled.now file.now stage (blocks_part table.old) (places_part places.old)
        × Movable compiled.now file.now stage (places_in (places_part places.old) (line_count file.now)) (late_step_part steps.old)
        × TakenPassed stage.inputs.order compiled.now assembled.now (places_in (places_part places.old) (line_count file.now)) file.now
        × Within (used_bytes stage.inputs.order assembled.now) 0 (used_part steps.old) × (manner.head ≤ HEAD_LIMIT)
        × BuffersHeld table.old places.old steps.old index.old × SymbolIndex stage.inputs.order assembled.now (names_part index.old) }
    ensures { StaticsEnd compiled.now assembled.now file.now stage manner result table.old table.new places.old places.new steps.old steps.new index.new }
{
    let inputs = stage.inputs;
    let listing = read_statics(compiled, inputs, manner.mode, manner.head, steps);
    let fault = listing.fault;
    match fault {
        None => {
            read_glabels(assembled, file, inputs, table, places, index, steps);
            let tally = listing.tally;
            let filling = filling_of(stage, manner.mode, tally.count);
            merge_list(compiled, assembled, filling, table, places, steps, index)
        }
        Some(entry) => Err(Refusal {
            number: base_scope::STATICS,
            object: base_answers::COMPILED,
            place: entry as u64,
        }),
    }
}

// Refusals 15 to 19 in order, and the numbering of the result where none refuses: its tables stand in the buffers then. The index of A's symbols stands at the end of its
// buffer, and is written over.
pub fn merge_symbols<'a>(
    compiled: &'a [u8],
    assembled: &'a [u8],
    file: &[u8],
    stage: Stage,
    manner: Manner,
    table: &mut [u8],
    places: &mut [u8],
    steps: &mut [u8],
    index: &mut [u8],
) -> Result<Counts, Refusal>
    requires { StageRead compiled.now assembled.now file.now stage (blocks_part table.old) (places_part places.old)
        × Movable compiled.now file.now stage (places_in (places_part places.old) (line_count file.now)) (late_step_part steps.old) × (manner.head ≤ HEAD_LIMIT)
        × BuffersHeld table.old places.old steps.old index.old × SymbolIndex stage.inputs.order assembled.now (names_part index.old) }
    ensures { StageEnd compiled.now assembled.now file.now stage manner result table.old table.new places.old places.new steps.old steps.new index.new }
{
    take_symbols(assembled, stage, steps)?;
    merge_statics(
        compiled, assembled, file, stage, manner, table, places, steps, index,
    )
}
