// Whether the assembled object lines up with the compiled one and the block file: refusals 11, 12 and 13 in order. Where all pass, what they found of the late step is
// handed on. Each function equals its definition in specs/.
#![tactic(auto)]

ghost use Rattle.std.specs.Prelude.{◌≡◌, ◌+◌, ◌*◌, ◌<◌, ◌≤◌};
ghost use Rattle.base_scope.specs.Text.{text};
ghost use Rattle.base_scope.specs.Limits.{NUMBER_LIMIT, BLOCK_LIMIT, DUMMY_LIMIT};
ghost use Rattle.elf_index.specs.Index.{SymbolIndex};
ghost use Rattle.elf_check.specs.View.{Viewed};
ghost use Rattle.blocks_file.specs.Blocks.{block_count};
ghost use Rattle.blocks_places.specs.Lines.{line_count};
ghost use Rattle.blocks_places.specs.Table.{places_in, Laid};
ghost use Rattle.merge_labels.specs.Labels.{label_of, late_label};
ghost use Rattle.merge_missing.specs.of_merge_inputs.Taken.{InputsRead};
ghost use Rattle.merge_line_up.specs.LineUp.{late_label_fault, labels_verdict};
ghost use Rattle.merge_line_up.specs.Answer.{LinesUp};

use base_answers::Refusal;
use base_fields::ByteOrder;
use elf_check::View;
use merge_labels::Label;
use merge_missing::late_length;
use merge_missing::late_length::LateStep;
pub use merge_missing::merge_inputs;
use merge_missing::merge_inputs::Inputs;

// Refusal 13; `start` is the symbol of the first late label, `size` the late length, which is 0 where there is no late step.
fn late_label_fault(
    order: ByteOrder,
    assembled: &[u8],
    view: View,
    index: &[u8],
    start: Label,
    size: usize,
) -> Option<usize>
    requires { Viewed order assembled.now view × (start ≡ label_of order assembled.now (late_label (text "_start"))) × (start.value < 4294967296)
        × (size ≤ (4 * DUMMY_LIMIT + NUMBER_LIMIT) * BLOCK_LIMIT) × SymbolIndex order assembled.now index.now }
    ensures { result ≡ late_label_fault order assembled.now size }
{
    if 0 < size {
        let lined = merge_labels::is_late_lined(order, assembled, view, index, start, size);
        return base_scope::expected(lined, 0, None);
    }
    None
}

// 12, then 13. `blocks` is how many blocks the file has.
fn labels_verdict(
    order: ByteOrder,
    assembled: &[u8],
    view: View,
    index: &[u8],
    file: &[u8],
    table: &[u8],
    places: &[u8],
    blocks: usize,
    start: Label,
    size: usize,
) -> Result<(), Refusal>
    requires { Viewed order assembled.now view × Laid (places_in places.now (line_count file.now)) file.now table.now places.now × (blocks ≡ block_count file.now)
        × (start ≡ label_of order assembled.now (late_label (text "_start"))) × (start.value < 4294967296) × (size ≤ (4 * DUMMY_LIMIT + NUMBER_LIMIT) * BLOCK_LIMIT)
        × SymbolIndex order assembled.now index.now }
    ensures { result ≡ labels_verdict order assembled.now (places_in places.now (line_count file.now)) file.now size }
{
    let block = merge_labels::label_fault(
        order, assembled, view, index, file, table, places, blocks,
    );
    base_answers::finding_verdict(base_scope::BLOCK_LABELS, base_answers::ASSEMBLED, block)?;
    let late = late_label_fault(order, assembled, view, index, start, size);
    base_answers::finding_verdict(base_scope::LATE_LABELS, base_answers::ASSEMBLED, late)
}

// Refusals 11, 12 and 13, in this order; the late step where none refuses. `index` is what `elf_index::index_symbols` made of the assembled object.
pub fn line_up(
    compiled: &[u8],
    assembled: &[u8],
    file: &[u8],
    table: &[u8],
    places: &[u8],
    inputs: Inputs,
    index: &[u8],
) -> Result<LateStep, Refusal>
    requires { InputsRead compiled.now assembled.now file.now inputs table.now places.now × SymbolIndex inputs.order assembled.now index.now }
    ensures { LinesUp inputs.order compiled.now assembled.now (places_in places.now (line_count file.now)) file.now result }
{
    let blocks = inputs.blocks;
    let size = late_length::late_length(file, table, places, blocks);
    let ends = blocks_spans::span_ends(file, table, places, blocks);
    let runs = 0 < size;
    merge_missing::missing_verdict(compiled, assembled, file, table, places, inputs, ends, runs)?;
    let order = inputs.order;
    let view = inputs.assembled;
    let symbols = view.symbols;
    let start = merge_labels::label_of(
        order,
        assembled,
        symbols,
        index,
        b"_asmpp_late_rodata",
        b"_start",
    );
    labels_verdict(
        order, assembled, view, index, file, table, places, blocks, start, size,
    )?;
    Ok(LateStep {
        runs,
        length: size,
        start: start.value,
        last: ends[base_scope::LATE_TARGET as usize],
    })
}
