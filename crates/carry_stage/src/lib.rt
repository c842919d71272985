// Carrying behind the symbol merge: how many of C's sections stay, the spans of .text and the homes of A's tables, in the working buffers of `merge_buffers`; and refusal 20 of
// both objects. What stands where is in specs/Tables.antt, what each function leaves in specs/Carry.antt; `carry_fault` equals `carry_verdict` of the crate carry_entries.
#![tactic(auto)]

ghost use Rattle.std.specs.Prelude.{◌≡◌, ◌≤◌, length};
ghost use Rattle.base_answers.specs.Verdicts.{finding_verdict};
ghost use Rattle.elf_readers.specs.Readers.{section_count};
ghost use Rattle.elf_readers.specs.Bounds.{Named};
ghost use Rattle.elf_check.specs.View.{Viewed};
ghost use Rattle.blocks_file.specs.Blocks.{block_count};
ghost use Rattle.blocks_places.specs.Lines.{line_count};
ghost use Rattle.blocks_places.specs.Table.{places_in, Laid};
ghost use Rattle.merge_buffers.specs.Buffers.{BLOCK_BUFFER, PLACE_BUFFER, INDEX_BUFFER, blocks_part, places_part};
ghost use Rattle.symbols_stage.specs.of_merge_sections.Stages.{StageRead};
ghost use Rattle.carry_entries.specs.Entries.{loss_finding};
ghost use Rattle.carry_entries.specs.Carried.{LOST_ENTRY};
ghost use Rattle.carry_entries.specs.Code.{carrying_in, EntriesRead};
ghost use Rattle.carry_stage.specs.Carry.{TextSpansLeft, HomesLeft, CarryMade, side_of_c, side_of_a, carry_verdict_in, SidesRead, CarryJudged};

use base_answers::Refusal;
pub use carry_entries;
use carry_entries::Side;
use carry_homes::Homes;
use merge_inputs::Inputs;
pub use symbols_stage;
use symbols_stage::merge_sections::Stage;

// Where the tables of carrying stand; the definitions in specs/Tables.antt have the same names.
pub const CARRY_SPANS_AT: usize = 49152;

pub const HOMES_AT: usize = 32768;

pub const HOMES_END: usize = 33792;

// The number of the refusal.
pub const LOST_ENTRY: u32 = 20;

// What is made ready: how many of C's sections stay, how many spans .text has, and the homes of A's tables.
#[derive(Clone, Copy)]
pub struct Carry {
    pub stay: usize,
    pub spans: usize,
    pub homes: Homes,
}

// Leaves the rows of .text's spans behind those of a section, and answers how many there are.
fn text_spans(file: &[u8], blocks: usize, table: &[u8], places: &[u8], index: &mut [u8]) -> usize
    requires { Laid (places_in (places_part places.now) (line_count file.now)) file.now (blocks_part table.now) (places_part places.now)
        × (blocks ≡ block_count file.now) × (BLOCK_BUFFER ≤ length table.now) × (PLACE_BUFFER ≤ length places.now) × (INDEX_BUFFER ≤ length index.old) }
    ensures { TextSpansLeft file.now places.now result index.old index.new }
{
    let own = base_buffers::part(table, 0, base_scope::BLOCK_TABLE);
    let lines = base_buffers::part(places, 0, base_scope::PLACE_TABLE);
    let from = base_buffers::bound(CARRY_SPANS_AT);
    let to = base_buffers::bound(merge_buffers::INDEX_BUFFER);
    blocks_spans::gather_spans(
        file,
        own,
        lines,
        blocks,
        base_scope::TEXT,
        &mut index[from..to],
    )
}

// Leaves the homes of A's tables over the holders, where `stay` of C's sections stay.
fn find_homes(
    compiled: &[u8],
    assembled: &[u8],
    inputs: Inputs,
    stay: usize,
    places: &mut [u8],
) -> Homes
    requires { Named inputs.order compiled.now × Viewed inputs.order assembled.now inputs.assembled × (stay ≤ section_count inputs.order compiled.now)
        × (PLACE_BUFFER ≤ length places.old) }
    ensures { HomesLeft inputs.order compiled.now assembled.now stay result places.old places.new }
{
    let order = inputs.order;
    let source = inputs.assembled;
    let from = base_buffers::bound(HOMES_AT);
    let to = base_buffers::bound(HOMES_END);
    carry_homes::list_homes(
        order,
        compiled,
        assembled,
        source,
        stay,
        &mut places[from..to],
    )
}

// Makes carrying ready: `flag` says whether trailing sections are dropped.
pub fn carry_ready(
    compiled: &[u8],
    assembled: &[u8],
    file: &[u8],
    stage: Stage,
    flag: u32,
    table: &[u8],
    places: &mut [u8],
    index: &mut [u8],
) -> Carry
    requires { StageRead compiled.now assembled.now file.now stage (blocks_part table.now) (places_part places.old) × (BLOCK_BUFFER ≤ length table.now)
        × (PLACE_BUFFER ≤ length places.old) × (INDEX_BUFFER ≤ length index.old) }
    ensures { CarryMade compiled.now assembled.now file.now stage flag result
        places.old places.new index.old index.new }
{
    let inputs = stage.inputs;
    let order = inputs.order;
    let stay = merge_kept::kept_count(order, compiled, flag);
    let spans = text_spans(file, inputs.blocks, table, places, index);
    let homes = find_homes(compiled, assembled, inputs, stay, places);
    Carry { stay, spans, homes }
}

// What is in hand of C.
pub fn compiled_side(stage: Stage, carry: Carry) -> Side
    ensures { result ≡ side_of_c stage carry }
{
    let inputs = stage.inputs;
    let step = stage.step;
    let order = inputs.order;
    let view = inputs.compiled;
    let spans = carry.spans;
    let runs = step.runs;
    let blocks = inputs.blocks;
    Side {
        compiled: true,
        order,
        view,
        spans,
        runs,
        blocks,
        first: 0,
    }
}

// What is in hand of A.
pub fn assembled_side(stage: Stage, carry: Carry) -> Side
    ensures { result ≡ side_of_a stage carry }
{
    let inputs = stage.inputs;
    let step = stage.step;
    let order = inputs.order;
    let view = inputs.assembled;
    let spans = carry.spans;
    let runs = step.runs;
    let blocks = inputs.blocks;
    let own = inputs.compiled;
    let symbols = own.symbols;
    let first = symbols.count;
    Side {
        compiled: false,
        order,
        view,
        spans,
        runs,
        blocks,
        first,
    }
}

// Refusal 20 of one object.
fn loss_verdict(
    object: u32,
    input: &[u8],
    side: Side,
    rows: &[u8],
    late: &[u8],
    numbers: &[u8],
) -> Result<(), Refusal>
    requires { EntriesRead input.now side rows.now late.now numbers.now }
    ensures { result ≡ finding_verdict LOST_ENTRY object (loss_finding side.order input.now
        (carrying_in input.now side rows.now late.now numbers.now)) }
{
    let found = carry_entries::loss_fault(input, side, rows, late, numbers);
    base_answers::finding_verdict(LOST_ENTRY, object, found)
}

// Refusal 20 of C, then of A.
fn losses_verdict(
    compiled: &[u8],
    assembled: &[u8],
    stage: Stage,
    carry: Carry,
    rows: &[u8],
    late: &[u8],
    numbers: &[u8],
) -> Result<(), Refusal>
    requires { EntriesRead compiled.now (side_of_c stage carry) rows.now late.now numbers.now
        × EntriesRead assembled.now (side_of_a stage carry) rows.now late.now numbers.now }
    ensures { result ≡ carry_verdict_in compiled.now assembled.now stage carry rows.now late.now numbers.now }
{
    let own = compiled_side(stage, carry);
    let other = assembled_side(stage, carry);
    loss_verdict(base_answers::COMPILED, compiled, own, rows, late, numbers)?;
    loss_verdict(
        base_answers::ASSEMBLED,
        assembled,
        other,
        rows,
        late,
        numbers,
    )
}

// Refusal 20.
pub fn carry_fault(
    compiled: &[u8],
    assembled: &[u8],
    stage: Stage,
    carry: Carry,
    steps: &[u8],
    index: &[u8],
) -> Result<(), Refusal>
    requires { SidesRead compiled.now assembled.now stage carry steps.now index.now }
    ensures { CarryJudged compiled.now assembled.now stage carry result steps.now index.now }
{
    let rows = base_buffers::part(index, CARRY_SPANS_AT, base_scope::SPAN_TABLE);
    let late = base_buffers::part(steps, 0, base_scope::LATE_TABLE);
    let numbers = base_buffers::part(index, merge_buffers::NUMBERS_AT, base_scope::POSITION_TABLE);
    losses_verdict(compiled, assembled, stage, carry, rows, late, numbers)
}
