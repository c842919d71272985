// What the sections of a merged object hold, appended one by one: the symbol table, what block copying and the late step make of a section, .reginfo, a section as it was, the
// names of the new sections. Each function says `Written` of its definition: bytes that do not fit are counted and not written.
#![tactic(auto)]

ghost use Rattle.std.specs.Prelude.{◌≡◌, ◌+◌, ◌*◌, ◌^◌, ◌≤◌, ◌<◌, length};
ghost use Rattle.base_lists.specs.Windows.{spliced};
ghost use Rattle.base_lists.specs.Written.{Written};
ghost use Rattle.base_scope.specs.Codes.{BSS};
ghost use Rattle.base_scope.specs.Limits.{FILE_LIMIT, ID_LIMIT};
ghost use Rattle.elf_readers.specs.Readers.{section_count, contents, coded_contents};
ghost use Rattle.elf_readers.specs.Bounds.{Headed};
ghost use Rattle.elf_check.specs.View.{Viewed};
ghost use Rattle.blocks_places.specs.Lines.{line_count};
ghost use Rattle.blocks_places.specs.Table.{places_in};
ghost use Rattle.symbols_table.specs.of_merge_sections.Sections.{result_section, register_bytes};
ghost use Rattle.symbols_table.specs.of_merge_sections.Stages.{StageRead, Movable};
ghost use Rattle.symbols_table.specs.Table.{symbols_table_in, SymbolsReady};
ghost use Rattle.write_content.specs.Content.{new_name_in, new_names_in, NewRows};

use base_fields::ByteOrder;
use elf_check::View;
use elf_records::SymbolEntry;
use merge_inputs::Inputs;
use symbols_table::merge_sections;
use symbols_table::merge_sections::Stage;
pub use symbols_table::symbols_chain;
use symbols_table::symbols_chain::Numbering;

// Appends the bytes of section i.
pub fn append_contents(out: &mut [u8], at: u64, order: ByteOrder, file: &[u8], i: usize) -> u64
    requires { Headed order file.now × (i < section_count order file.now) × (at < 2 ^ 62) }
    ensures { Written out.old at (contents order file.now i) result out.new × (result ≤ at + length file.now) }
{
    let part = elf_readers::contents_of(order, file, i);
    base_text::append(out, at, part)
}

// Appends C's .reginfo, with A's ORed into it.
pub fn append_registers(
    out: &mut [u8],
    at: u64,
    compiled: &[u8],
    assembled: &[u8],
    inputs: Inputs,
) -> u64
    requires { Viewed inputs.order compiled.now inputs.compiled × Viewed inputs.order assembled.now inputs.assembled × (at < 2 ^ 62) }
    ensures { Written out.old at (register_bytes inputs.order compiled.now assembled.now) result out.new
        × (result ≤ at + length compiled.now) }
{
    let order = inputs.order;
    let own = inputs.compiled;
    let part = elf_check::coded_contents(order, compiled, own, base_scope::REGINFO);
    let end = at + part.len() as u64;
    if end <= out.len() as u64 {
        merge_sections::write_registers(out, at as usize, compiled, assembled, inputs);
    }
    end
}

// Writes C's section of a code after block copying and, in the late target, the late moves, at `at`.
fn write_coded(
    out: &mut [u8],
    at: usize,
    compiled: &[u8],
    assembled: &[u8],
    file: &[u8],
    table: &[u8],
    places: &[u8],
    stage: Stage,
    late: &[u8],
    code: u32,
)
    requires { StageRead compiled.now assembled.now file.now stage table.now places.now
        × Movable compiled.now file.now stage (places_in places.now (line_count file.now)) late.now
        × (at + length (coded_contents stage.inputs.order compiled.now code) ≤ length out.old) × (1 ≤ code) × (code < BSS) }
    ensures { out.new ≡ spliced out.old at
        (result_section stage.inputs.order compiled.now assembled.now (places_in places.now (line_count file.now))
        file.now code) }
{
    if code == base_scope::LATE_TARGET {
        merge_sections::write_late_target(
            out, at, compiled, assembled, file, table, places, stage, late,
        );
        return;
    }
    let inputs = stage.inputs;
    merge_sections::write_section(
        out, at, compiled, assembled, file, table, places, inputs, code,
    );
}

// Appends C's section of a code after block copying and, in the late target, the late moves.
pub fn append_copied(
    out: &mut [u8],
    at: u64,
    compiled: &[u8],
    assembled: &[u8],
    file: &[u8],
    table: &[u8],
    places: &[u8],
    stage: Stage,
    late: &[u8],
    code: u32,
) -> u64
    requires { StageRead compiled.now assembled.now file.now stage table.now places.now
        × Movable compiled.now file.now stage (places_in places.now (line_count file.now)) late.now
        × (1 ≤ code) × (code < BSS) × (at < 2 ^ 62) }
    ensures { Written out.old at
        (result_section stage.inputs.order compiled.now assembled.now (places_in places.now (line_count file.now))
        file.now code) result out.new
        × (result ≤ at + FILE_LIMIT) }
{
    let inputs = stage.inputs;
    let order = inputs.order;
    let own = inputs.compiled;
    let part = elf_check::coded_contents(order, compiled, own, code);
    let end = at + part.len() as u64;
    if end <= out.len() as u64 {
        write_coded(
            out,
            at as usize,
            compiled,
            assembled,
            file,
            table,
            places,
            stage,
            late,
            code,
        );
    }
    end
}

// Appends the symbol table.
pub fn append_symbols<'a>(
    out: &mut [u8],
    at: u64,
    compiled: &'a [u8],
    assembled: &'a [u8],
    statics: &[u8],
    marks: &[u8],
    rows: &[u8],
    list: &[u8],
    order: &[u8],
    n: Numbering,
) -> u64
    requires { SymbolsReady compiled.now assembled.now statics.now marks.now rows.now list.now order.now n × (n.count ≤ ID_LIMIT + 1) × (at < 2 ^ 62) }
    ensures { Written out.old at
        (symbols_table_in compiled.now assembled.now statics.now marks.now
        rows.now list.now order.now n) result out.new
        × (result ≡ at + 16 * n.count) × (result ≤ at + 16 * (ID_LIMIT + 1)) }
{
    let count = n.count;
    let end = at + (SymbolEntry::SIZE * count) as u64;
    if end <= out.len() as u64 {
        symbols_table::write_symbols(
            out,
            at as usize,
            compiled,
            assembled,
            statics,
            marks,
            rows,
            list,
            order,
            n,
        );
    }
    end
}

// Appends the name of the i-th new section and its zero byte.
fn append_new_name(
    out: &mut [u8],
    at: u64,
    order: ByteOrder,
    assembled: &[u8],
    source: View,
    homes: &[u8],
    n: usize,
    stay: usize,
    count: usize,
    i: usize,
) -> u64
    requires { Viewed order assembled.now source × NewRows order assembled.now homes.now n stay count × (i < count) × (at < 2 ^ 63) }
    ensures { Written out.old at (new_name_in order assembled.now homes.now n stay i) result out.new × (result ≤ at + 13) }
{
    let j = carry_homes::opened_by(homes, n, stay, i);
    let name = carry_homes::home_name(order, assembled, source, homes, j);
    let end = carry_homes::append_name(out, at, name.rela, name.code);
    base_text::append(out, end, b"\0")
}

// Appends the names of the first `count` new sections, each with its zero byte.
pub fn append_new_names(
    out: &mut [u8],
    at: u64,
    order: ByteOrder,
    assembled: &[u8],
    source: View,
    homes: &[u8],
    n: usize,
    stay: usize,
    count: usize,
) -> u64
    requires { Viewed order assembled.now source × NewRows order assembled.now homes.now n stay count × (at < 2 ^ 62) }
    ensures { Written out.old at (new_names_in order assembled.now homes.now n stay count) result out.new × (result ≤ at + 13 * count) }
{
    let mut next = at;
    for i in 0..count {
        next = append_new_name(
            out, next, order, assembled, source, homes, n, stay, count, i,
        );
    }
    next
}
