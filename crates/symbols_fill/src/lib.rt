// The rows of the ids of a merge, so that the tables of `symbols_rows` hold its candidates: whether an id is taken, what its working name is like, and where the entry of the
// result stands. Each function equals its definition in specs/Fill.antt, over what is in hand; proofs/Candidates.antt says that these are the candidates of the crate
// symbols_ids (`fill_agree`). Document 01, "Symbols" and "Statics".
#![tactic(auto)]

ghost use Rattle.std.specs.Prelude.{◌≡◌, ◌+◌, ◌*◌, ◌≤◌, ◌<◌, length};
ghost use Rattle.base_scope.specs.Codes.{CODES};
ghost use Rattle.base_scope.specs.Limits.{SYMBOL_LIMIT, ID_LIMIT, ID_ROW};
ghost use Rattle.elf_symbols.specs.Symbols.{symbol_place, symbol_count, Tabled, Entries};
ghost use Rattle.elf_check.specs.View.{section_in, Viewed};
ghost use Rattle.symbols_holders.specs.of_symbols_taken.Taken.{is_placed_in};
ghost use Rattle.symbols_holders.specs.of_symbols_taken.Code.{AtSymbol, LateIn};
ghost use Rattle.symbols_rows.specs.Rows.{Fits};
ghost use Rattle.symbols_holders.specs.Ready.{id_count};
ghost use Rattle.symbols_fill.specs.Fill.{place_c, late_place_in, late_value_in, place_a, place_static, taken_row, no_row, row_c, row_a, row_static, SmallSections, AtSource, AtStatic, SourceReady, StaticsReady, FillReady, RowsPut, FilledRows};

use base_fields::ByteOrder;
use elf_check::View;
use late_laws::late_length::LateStep;
use late_laws::late_lookups;
use statics_table::Static;
pub use symbols_holders;
use symbols_holders::merge_inputs::Inputs;
pub use symbols_holders::symbols_names;
use symbols_holders::symbols_names::{NameKind, Sources};
use symbols_holders::symbols_taken;
use symbols_rows::IdRow;

// What is in hand to fill the rows: the inputs of the merge, its late step, where names are read, and the mode of its statics.
#[derive(Clone, Copy)]
pub struct Filling {
    pub inputs: Inputs,
    pub step: LateStep,
    pub sources: Sources,
    pub mode: u32,
}

// Where an entry of the result stands, and its binding.
#[derive(Clone, Copy)]
pub struct SymbolPlace {
    pub section: u32,
    pub value: u32,
    pub binding: u32,
}

// The section of a code, as an entry has it.
fn code_section(view: View, code: u32) -> u32
    requires { SmallSections view × (1 ≤ code) × (code ≤ CODES) }
    ensures { (result ≡ section_in view code) × (result < 65536) }
{
    view.section(code) as u32
}

// C's symbol k: it stays where it is.
pub fn place_c(order: ByteOrder, compiled: &[u8], at: usize, k: usize) -> SymbolPlace
    requires { Tabled order compiled.now × (at ≡ symbol_place order compiled.now 0) × (k < symbol_count order compiled.now) }
    ensures { (result ≡ place_c order compiled.now k) × Fits result.binding result.section }
{
    let entry = elf_symbols::symbol_at(order, compiled, at, k);
    let binding = base_packed::binding_of(entry.st_info);
    SymbolPlace {
        section: entry.st_shndx,
        value: entry.st_value,
        binding: binding as u32,
    }
}

// Whether a section index is a section's.
fn is_placed(s: u32) -> bool
    ensures { result ≡ is_placed_in s }
{
    base_scope::both(s != base_scope::SHN_UNDEF, s != base_scope::SHN_ABS)
}

// The place of a late offset: 0 where it is not moved, or the step does not run, and the table is not read.
fn late_place(runs: bool, late: &[u8], blocks: usize, x: u32) -> u32
    requires { LateIn runs late.now blocks }
    ensures { result ≡ late_place_in runs late.now blocks x }
{
    if runs {
        return match late_lookups::offset_at(late, blocks, x) {
            Some(place) => place as u32,
            None => 0,
        };
    }
    0
}

// A value in A's section of a code: late ones move.
fn late_value(code: u32, runs: bool, late: &[u8], blocks: usize, x: u32) -> u32
    requires { LateIn runs late.now blocks }
    ensures { result ≡ late_value_in code runs late.now blocks x }
{
    if code == base_scope::LATE_RODATA {
        return late_place(runs, late, blocks, x);
    }
    x
}

// A's symbol k: in C's section of the target where its index is a section's.
pub fn place_a(assembled: &[u8], late: &[u8], filling: Filling, k: usize) -> SymbolPlace
    requires { AtSource assembled.now late.now filling k }
    ensures { (result ≡ place_a assembled.now late.now filling k) × Fits result.binding result.section }
{
    let inputs = filling.inputs;
    let order = inputs.order;
    let source = inputs.assembled;
    let symbols = source.symbols;
    let entry = elf_symbols::symbol_at(order, assembled, symbols.at, k);
    let binding = base_packed::binding_of(entry.st_info) as u32;
    if is_placed(entry.st_shndx) {
        let step = filling.step;
        let code = symbols_taken::code_of(source, entry.st_shndx as usize);
        let section = code_section(inputs.compiled, base_scope::target_code(code));
        let value = late_value(code, step.runs, late, inputs.blocks, entry.st_value);
        return SymbolPlace {
            section,
            value,
            binding,
        };
    }
    SymbolPlace {
        section: entry.st_shndx,
        value: entry.st_value,
        binding,
    }
}

// Static k: in C's section of its code.
pub fn place_static(statics: &[u8], filling: Filling, k: usize) -> SymbolPlace
    requires { AtStatic statics.now filling k }
    ensures { (result ≡ place_static statics.now filling k) × Fits result.binding result.section }
{
    let inputs = filling.inputs;
    let s = Static::read(statics, k);
    let binding = statics_names::static_binding(filling.mode);
    SymbolPlace {
        section: code_section(inputs.compiled, s.code),
        value: s.value,
        binding: binding as u32,
    }
}

// The row of an id that is taken.
fn taken_row(place: SymbolPlace, kind: NameKind) -> IdRow
    ensures { result ≡ taken_row place kind }
{
    IdRow {
        taken: true,
        unnamed: kind.unnamed,
        gp_disp: kind.gp_disp,
        binding: place.binding,
        section: place.section,
        value: place.value,
    }
}

// That of one which is not.
fn no_row() -> IdRow
    ensures { result ≡ no_row }
{
    IdRow {
        taken: false,
        unnamed: false,
        gp_disp: false,
        binding: 0,
        section: 0,
        value: 0,
    }
}

// The row of C's symbol k. Nothing is asked of one that is not taken.
fn row_c(order: ByteOrder, compiled: &[u8], at: usize, strings: &[u8], k: usize) -> IdRow
    requires { Entries order compiled.now at strings.now × (k < symbol_count order compiled.now) }
    ensures { (result ≡ row_c order compiled.now k) × Fits result.binding result.section }
{
    if symbols_taken::is_taken_c(order, compiled, at, strings, k) {
        let entry = elf_symbols::symbol_at(order, compiled, at, k);
        let kind = symbols_names::kind_at(strings, entry.st_name as usize);
        return taken_row(place_c(order, compiled, at, k), kind);
    }
    no_row()
}

// Writes the rows of C's symbols.
fn fill_c(compiled: &[u8], inputs: Inputs, rows: &mut [u8])
    requires { Viewed inputs.order compiled.now inputs.compiled × (ID_ROW * symbol_count inputs.order compiled.now ≤ length rows.old) }
    ensures { RowsPut (row_c inputs.order compiled.now) 0 (symbol_count inputs.order compiled.now) rows.old rows.new }
{
    let order = inputs.order;
    let view = inputs.compiled;
    let symbols = view.symbols;
    let strings = elf_symbols::strings_of(compiled, symbols);
    let at = symbols.at;
    let n = symbols.count;
    for k in 0..n {
        let row = row_c(order, compiled, at, strings, k);
        symbols_rows::write_id(rows, k, row);
    }
}

// The row of A's symbol k; `used` has the marks.
fn row_a(
    assembled: &[u8],
    strings: &[u8],
    used: &[u8],
    late: &[u8],
    filling: Filling,
    k: usize,
) -> IdRow
    requires { AtSource assembled.now late.now filling k × AtSymbol filling.inputs.order assembled.now filling.inputs.assembled strings.now used.now k }
    ensures { (result ≡ row_a assembled.now late.now filling k) × Fits result.binding result.section }
{
    let inputs = filling.inputs;
    let order = inputs.order;
    let view = inputs.assembled;
    if symbols_taken::is_taken_a(order, assembled, view, strings, used, k) {
        let symbols = view.symbols;
        let entry = elf_symbols::symbol_at(order, assembled, symbols.at, k);
        let kind = symbols_names::kind_at(strings, entry.st_name as usize);
        return taken_row(place_a(assembled, late, filling, k), kind);
    }
    no_row()
}

// Writes the rows of A's symbols behind C's.
fn fill_a(
    assembled: &[u8],
    used: &[u8],
    late: &[u8],
    filling: Filling,
    first: usize,
    rows: &mut [u8],
)
    requires { SourceReady assembled.now used.now late.now filling × (first ≤ SYMBOL_LIMIT)
        × (ID_ROW * (first + symbol_count filling.inputs.order assembled.now) ≤ length rows.old) }
    ensures { RowsPut (row_a assembled.now late.now filling) first (symbol_count filling.inputs.order assembled.now) rows.old rows.new }
{
    let inputs = filling.inputs;
    let view = inputs.assembled;
    let symbols = view.symbols;
    let strings = elf_symbols::strings_of(assembled, symbols);
    let n = symbols.count;
    for k in 0..n {
        let row = row_a(assembled, strings, used, late, filling, k);
        symbols_rows::write_id(rows, first + k, row);
    }
}

// The row of static k: all are taken.
fn row_static(compiled: &[u8], statics: &[u8], filling: Filling, k: usize) -> IdRow
    requires { AtStatic statics.now filling k }
    ensures { (result ≡ row_static compiled.now statics.now filling k) × Fits result.binding result.section }
{
    let kind = symbols_names::static_kind(compiled, Static::read(statics, k));
    taken_row(place_static(statics, filling, k), kind)
}

// Writes the rows of the n statics behind those of the symbols.
fn fill_statics(
    compiled: &[u8],
    statics: &[u8],
    filling: Filling,
    n: usize,
    first: usize,
    rows: &mut [u8],
)
    requires { StaticsReady statics.now filling n × (first ≤ 2 * SYMBOL_LIMIT) × (ID_ROW * (first + n) ≤ length rows.old) }
    ensures { RowsPut (row_static compiled.now statics.now filling) first n rows.old rows.new }
{
    for k in 0..n {
        let row = row_static(compiled, statics, filling, k);
        symbols_rows::write_id(rows, first + k, row);
    }
}

// How many ids there are.
pub fn id_count(sources: Sources) -> usize
    requires { id_count sources ≤ ID_LIMIT }
    ensures { result ≡ id_count sources }
{
    let own = sources.compiled;
    let other = sources.assembled;
    own.count + other.count + sources.statics
}

// Writes the rows of all ids, and answers how many there are. `rows` needs no particular contents.
pub fn fill_rows<'a>(
    compiled: &'a [u8],
    assembled: &'a [u8],
    statics: &[u8],
    used: &[u8],
    late: &[u8],
    filling: Filling,
    rows: &mut [u8],
) -> usize
    requires { FillReady compiled.now assembled.now statics.now used.now late.now filling × (ID_ROW * id_count filling.sources ≤ length rows.old) }
    ensures { FilledRows compiled.now assembled.now statics.now late.now filling rows.old result rows.new }
{
    let sources = filling.sources;
    let own = sources.compiled;
    let other = sources.assembled;
    let first = own.count;
    fill_c(compiled, filling.inputs, rows);
    fill_a(assembled, used, late, filling, first, rows);
    fill_statics(
        compiled,
        statics,
        filling,
        sources.statics,
        first + other.count,
        rows,
    );
    id_count(sources)
}
