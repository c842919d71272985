// Refusals 12 and 13: whether the labels of the spans, and those of the late span, stand where document 01 has them. Each function equals its definition in specs/. The symbol
// of a label and its suffix is found by an index of A's symbols by name (the crate elf_index).
#![tactic(auto)]

ghost use Rattle.std.specs.Prelude.{◌≡◌, true, ◌++◌, ◌+◌, ◌<◌};
ghost use Rattle.base_scope.specs.Text.{text};
ghost use Rattle.elf_symbols.specs.Symbols.{Table};
ghost use Rattle.elf_index.specs.Index.{SymbolIndex};
ghost use Rattle.elf_check.specs.View.{Viewed};
ghost use Rattle.blocks_file.specs.Blocks.{block_count};
ghost use Rattle.blocks_places.specs.Lines.{line_count};
ghost use Rattle.blocks_places.specs.Places.{taken};
ghost use Rattle.blocks_places.specs.Table.{places_in, Laid};
ghost use Rattle.merge_labels.specs.Labels.{label_of, is_at, is_lined, is_mislabelled, label_fault, late_label, late_lined};

use base_fields::ByteOrder;
use elf_check::View;
use elf_symbols::SymbolTable;

// A label's symbol: whether there is one, its section and its value.
#[derive(Clone, Copy)]
pub struct Label {
    pub found: bool,
    pub section: usize,
    pub value: usize,
}

// The first symbol of a label and a suffix, by what is asked of it.
pub fn label_of(
    order: ByteOrder,
    assembled: &[u8],
    table: SymbolTable,
    index: &[u8],
    label: &[u8],
    suffix: &[u8],
) -> Label
    requires { Table order assembled.now table × SymbolIndex order assembled.now index.now }
    ensures { (result ≡ label_of order assembled.now (label.now ++ suffix.now)) × (result.value < 4294967296) }
{
    let k = elf_index::symbol_joined(order, assembled, table, index, label, suffix);
    let n = table.count;
    if k < n {
        let at = table.at;
        let s = elf_symbols::symbol_at(order, assembled, at, k);
        return Label {
            found: true,
            section: s.st_shndx as usize,
            value: s.st_value as usize,
        };
    }
    Label {
        found: false,
        section: 0,
        value: 0,
    }
}

// Whether the first symbol of a label and a suffix is there, in a section, with a value.
fn is_label_at(
    order: ByteOrder,
    assembled: &[u8],
    table: SymbolTable,
    index: &[u8],
    label: &[u8],
    suffix: &[u8],
    section: usize,
    value: usize,
) -> bool
    requires { Table order assembled.now table × SymbolIndex order assembled.now index.now }
    ensures { result ≡ is_at order assembled.now (label.now ++ suffix.now) section value }
{
    let l = label_of(order, assembled, table, index, label, suffix);
    if l.found {
        return base_scope::both(l.section == section, l.value == value);
    }
    false
}

// Whether the labels of line j, which has a span, stand where the span lies.
fn is_lined(
    order: ByteOrder,
    assembled: &[u8],
    view: View,
    index: &[u8],
    file: &[u8],
    table: &[u8],
    places: &[u8],
    j: usize,
) -> bool
    requires { Viewed order assembled.now view × Laid (places_in places.now (line_count file.now)) file.now table.now places.now
        × (j < line_count file.now) × (taken (places_in places.now (line_count file.now)) j ≡ true)
        × SymbolIndex order assembled.now index.now }
    ensures { result ≡ is_lined order assembled.now (places_in places.now (line_count file.now)) file.now j }
{
    let section = view.section(base_scope::line_code(j));
    let symbols = view.symbols;
    let label = blocks_places::span_label(file, table, j);
    let place = blocks_places::place_of(places, j);
    let span_end = place + blocks_places::size_of(places, j);
    if is_label_at(
        order,
        assembled,
        symbols,
        index,
        label,
        b"_asm_start",
        section,
        place,
    ) {
        return is_label_at(
            order,
            assembled,
            symbols,
            index,
            label,
            b"_asm_end",
            section,
            span_end,
        );
    }
    false
}

// Whether line j has a span and its labels do not stand where it lies.
fn is_mislabelled(
    order: ByteOrder,
    assembled: &[u8],
    view: View,
    index: &[u8],
    file: &[u8],
    table: &[u8],
    places: &[u8],
    j: usize,
) -> bool
    requires { Viewed order assembled.now view × Laid (places_in places.now (line_count file.now)) file.now table.now places.now
        × (j < line_count file.now) × SymbolIndex order assembled.now index.now }
    ensures { result ≡ is_mislabelled order assembled.now (places_in places.now (line_count file.now)) file.now j }
{
    if blocks_places::is_taken(places, j) {
        let lined = is_lined(order, assembled, view, index, file, table, places, j);
        return !lined;
    }
    false
}

// Refusal 12: the lowest block with a span whose labels do not stand where it lies. `blocks` is how many blocks the file has.
pub fn label_fault(
    order: ByteOrder,
    assembled: &[u8],
    view: View,
    index: &[u8],
    file: &[u8],
    table: &[u8],
    places: &[u8],
    blocks: usize,
) -> Option<usize>
    requires { Viewed order assembled.now view × Laid (places_in places.now (line_count file.now)) file.now table.now places.now
        × (blocks ≡ block_count file.now) × SymbolIndex order assembled.now index.now }
    ensures { result ≡ label_fault order assembled.now (places_in places.now (line_count file.now)) file.now }
{
    for j in 0..base_scope::LINES * blocks {
        if is_mislabelled(order, assembled, view, index, file, table, places, j) {
            return Some(base_scope::line_block(j));
        }
    }
    None
}

// Refusal 13 of a late step: whether the late labels stand in .late_rodata, `size` bytes apart, inside it; `start` is the first of them.
pub fn is_late_lined(
    order: ByteOrder,
    assembled: &[u8],
    view: View,
    index: &[u8],
    start: Label,
    size: usize,
) -> bool
    requires { Viewed order assembled.now view × (start ≡ label_of order assembled.now (late_label (text "_start"))) × (start.value + size < 18446744073709551616)
        × SymbolIndex order assembled.now index.now }
    ensures { result ≡ late_lined order assembled.now size }
{
    let section = view.section(base_scope::LATE_RODATA);
    let symbols = view.symbols;
    if start.found {
        if start.section == section {
            let end = start.value + size;
            let bytes = elf_check::coded_contents(order, assembled, view, base_scope::LATE_RODATA);
            let there = is_label_at(
                order,
                assembled,
                symbols,
                index,
                b"_asmpp_late_rodata",
                b"_end",
                section,
                end,
            );
            return base_scope::both(there, end <= bytes.len());
        }
    }
    false
}
