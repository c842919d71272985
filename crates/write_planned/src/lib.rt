// What each section of a merged object holds, appended, and how long it is; the headers of C's sections that stay, and where the names of new sections stand (crate write_plan,
// specs/Plan.antt), by what is in hand behind the symbol merge and carrying (specs/Held.antt). Each appending function says `Written` of its definition: bytes that do not fit
// are counted and not written. What is read of the index stays as it is (`SpansOver`; proofs/Held.antt, `held_still`).
#![tactic(auto)]

ghost use Rattle.std.specs.Prelude.{◌≡◌, true, not, ◌||◌, ◌++◌, ◌+◌, ◌*◌, ◌^◌, ◌≤◌, ◌<◌, length, ltb};
ghost use Rattle.base_lists.specs.Written.{Written};
ghost use Rattle.base_scope.specs.Limits.{FILE_LIMIT};
ghost use Rattle.base_scope.specs.Codes.{BSS};
ghost use Rattle.elf_readers.specs.Readers.{section_count};
ghost use Rattle.elf_readers.specs.Bounds.{Headed};
ghost use Rattle.elf_relocations.specs.Relocations.{is_table};
ghost use Rattle.elf_check.specs.View.{Viewed};
ghost use Rattle.write_plan.specs.of_merge_sections.Sections.{result_section};
ghost use Rattle.merge_kept.specs.Kept.{kept};
ghost use Rattle.symbols_taken.specs.Used.{code_of};
ghost use Rattle.carry_stage.specs.of_symbols_stage.End.{numbering_by};
ghost use Rattle.write_plan.specs.Plan.{new_names};
ghost use Rattle.write_planned.specs.Held.{held_places, PlanHeld, SpansOver, held_is_table, held_table, held_symbols, held_strings, held_own, held_names, held_bytes, held_plan, held_name_at};
ghost use Rattle.write_planned.specs.OwnKinds.{is_registers_in, coded_kind, own_kind};
ghost use Rattle.write_planned.specs.Headings.{with_info};
ghost use Rattle.write_planned.specs.Tables.{kept_table_in, joined_table_in, KeptRead, JoinedRead};

use base_fields::ByteOrder;
pub use carry_stage;
use carry_stage::symbols_stage::{Counts, Manner};
use carry_stage::{Carry, carry_entries, symbols_stage};
use elf_check::View;
use elf_records::SectionHeader;
use write_content::symbols_chain::Numbering;
use write_plan::merge_sections::Stage;

// How long the table of homes is.
const HOME_TABLE: usize = 1024;

// What is in hand besides the objects, the block file, the path and the buffers: `flag` says whether trailing sections are dropped.
#[derive(Clone, Copy)]
pub struct Writing {
    pub stage: Stage,
    pub manner: Manner,
    pub counts: Counts,
    pub carry: Carry,
    pub flag: u32,
}

// Appends C's entries of section i, where it is one that stays.
fn append_kept(
    out: &mut [u8],
    at: u64,
    compiled: &[u8],
    stage: Stage,
    carry: Carry,
    rows: &[u8],
    late: &[u8],
    numbers: &[u8],
    i: usize,
) -> u64
    requires { KeptRead compiled.now stage carry rows.now late.now numbers.now i × (at < 2 ^ 40) }
    ensures { Written out.old at
        (kept_table_in compiled.now stage carry rows.now late.now numbers.now i) result out.new
        × (result ≤ at + FILE_LIMIT) }
{
    if i < carry.stay {
        let side = carry_stage::compiled_side(stage, carry);
        return carry_entries::append_entries(out, at, compiled, side, rows, late, numbers, i);
    }
    at
}

// Appends the entries of A's tables that join section i.
fn append_others(
    out: &mut [u8],
    at: u64,
    assembled: &[u8],
    stage: Stage,
    carry: Carry,
    rows: &[u8],
    late: &[u8],
    numbers: &[u8],
    homes: &[u8],
    i: usize,
) -> u64
    requires { JoinedRead assembled.now stage carry rows.now late.now numbers.now homes.now × (at < 2 ^ 41) }
    ensures { Written out.old at
        (joined_table_in assembled.now stage carry rows.now late.now numbers.now homes.now i) result out.new
        × (result ≤ at + 128 * FILE_LIMIT) }
{
    let side = carry_stage::assembled_side(stage, carry);
    let found = carry.homes;
    let n = found.tables;
    write_tables::append_joined(out, at, assembled, side, rows, late, numbers, homes, i, n)
}

// Appends both.
fn append_both(
    out: &mut [u8],
    at: u64,
    compiled: &[u8],
    assembled: &[u8],
    stage: Stage,
    carry: Carry,
    rows: &[u8],
    late: &[u8],
    numbers: &[u8],
    homes: &[u8],
    i: usize,
) -> u64
    requires { KeptRead compiled.now stage carry rows.now late.now numbers.now i
        × JoinedRead assembled.now stage carry rows.now late.now numbers.now homes.now × (at < 2 ^ 40) }
    ensures { Written out.old at
        (kept_table_in compiled.now stage carry rows.now late.now numbers.now i
        ++ joined_table_in assembled.now stage carry rows.now late.now numbers.now homes.now i) result out.new
        × (result ≤ at + 2 ^ 34) }
{
    let end = append_kept(out, at, compiled, stage, carry, rows, late, numbers, i);
    append_others(
        out, end, assembled, stage, carry, rows, late, numbers, homes, i,
    )
}

// Appends what relocation table i of the result holds.
fn append_table(
    out: &mut [u8],
    at: u64,
    compiled: &[u8],
    assembled: &[u8],
    file: &[u8],
    path: &[u8],
    x: Writing,
    table: &[u8],
    places: &[u8],
    steps: &[u8],
    index: &[u8],
    i: usize,
) -> u64
    requires { PlanHeld compiled.now assembled.now file.now path.now x table.now places.now steps.now index.now
        × (held_is_table compiled.now assembled.now file.now path.now x places.now i ≡ true) × (at < 2 ^ 40) }
    ensures { Written out.old at
        (held_table compiled.now assembled.now file.now path.now x places.now i) result out.new
        × (result ≤ at + 2 ^ 34) }
{
    let stage = x.stage;
    let carry = x.carry;
    let rows = base_buffers::part(index, carry_stage::CARRY_SPANS_AT, base_scope::SPAN_TABLE);
    let late = base_buffers::part(steps, 0, base_scope::LATE_TABLE);
    let numbers = base_buffers::part(index, merge_buffers::NUMBERS_AT, base_scope::POSITION_TABLE);
    let homes = base_buffers::part(places, carry_stage::HOMES_AT, HOME_TABLE);
    append_both(
        out, at, compiled, assembled, stage, carry, rows, late, numbers, homes, i,
    )
}

// What becomes of a section of C that is no relocation table: its bytes stay; it is the symbol table; its strings; .reginfo; or blocks are copied into it.
#[derive(Clone, Copy)]
pub enum OwnKind {
    Same,
    Symbols,
    Strings,
    Registers,
    Copied,
}

// Whether section i is .reginfo.
fn is_registers(view: View, i: usize) -> bool
    ensures { result ≡ is_registers_in view i }
{
    base_scope::both(
        elf_check::has_coded(view, base_scope::REGINFO),
        view.section(base_scope::REGINFO) == i,
    )
}

// The kind of section i by its code.
fn coded_kind(order: ByteOrder, compiled: &[u8], view: View, i: usize) -> OwnKind
    requires { Viewed order compiled.now view }
    ensures { result ≡ coded_kind order compiled.now i }
{
    if is_registers(view, i) {
        return OwnKind::Registers;
    }
    if symbols_taken::code_of(view, i) < base_scope::BSS {
        return OwnKind::Copied;
    }
    OwnKind::Same
}

// The kind of section i.
fn own_kind(order: ByteOrder, compiled: &[u8], view: View, i: usize) -> OwnKind
    requires { Viewed order compiled.now view × (i < section_count order compiled.now) }
    ensures { result ≡ own_kind order compiled.now i }
{
    let h = elf_readers::section_at(order, compiled, i);
    if h.sh_type == base_scope::SHT_MIPS_DEBUG {
        return OwnKind::Same;
    }
    if i == view.symtab {
        return OwnKind::Symbols;
    }
    if i == view.strtab {
        return OwnKind::Strings;
    }
    coded_kind(order, compiled, view, i)
}

// The numbering of the result's symbols.
fn numbering_of(x: Writing) -> Numbering
    ensures { result ≡ numbering_by x.stage x.manner x.counts }
{
    let counts = x.counts;
    let manner = x.manner;
    let stage = x.stage;
    let filling = symbols_stage::filling_of(stage, manner.mode, counts.statics);
    let locals = counts.locals;
    let count = counts.count;
    Numbering {
        filling,
        locals,
        count,
    }
}

// Appends the symbol table.
fn append_numbered<'a>(
    out: &mut [u8],
    at: u64,
    compiled: &'a [u8],
    assembled: &'a [u8],
    file: &[u8],
    path: &[u8],
    x: Writing,
    table: &[u8],
    places: &[u8],
    steps: &[u8],
    index: &[u8],
) -> u64
    requires { PlanHeld compiled.now assembled.now file.now path.now x table.now places.now steps.now index.now × (at < 2 ^ 40) }
    ensures { Written out.old at
        (held_symbols compiled.now assembled.now file.now path.now x places.now) result out.new
        × (result ≤ at + 2 ^ 34) }
{
    let n = numbering_of(x);
    let statics = base_buffers::part(steps, merge_buffers::STATIC_AT, base_scope::STATIC_TABLE);
    let marks = base_buffers::part(steps, merge_buffers::GLABELS_AT, base_scope::GLABEL_TABLE);
    let rows = base_buffers::part(table, merge_buffers::ROWS_AT, base_scope::ID_TABLE);
    let list = base_buffers::part(steps, merge_buffers::LIST_AT, base_scope::POSITION_TABLE);
    let order = base_buffers::part(index, 0, base_scope::POSITION_TABLE);
    write_content::append_symbols(
        out, at, compiled, assembled, statics, marks, rows, list, order, n,
    )
}

// Appends the strings of the symbols.
fn append_symbol_strings(
    out: &mut [u8],
    at: u64,
    compiled: &[u8],
    assembled: &[u8],
    file: &[u8],
    path: &[u8],
    x: Writing,
    table: &[u8],
    places: &[u8],
    steps: &[u8],
    index: &[u8],
) -> u64
    requires { PlanHeld compiled.now assembled.now file.now path.now x table.now places.now steps.now index.now × (at < 2 ^ 40) }
    ensures { Written out.old at
        (held_strings compiled.now assembled.now path.now x) result out.new
        × (result ≤ at + 2 ^ 34) }
{
    let stage = x.stage;
    let inputs = stage.inputs;
    let order = inputs.order;
    let target = inputs.compiled;
    let source = inputs.assembled;
    let manner = x.manner;
    let mode = manner.mode;
    let counts = x.counts;
    let n = counts.statics;
    let statics = base_buffers::part(steps, merge_buffers::STATIC_AT, base_scope::STATIC_TABLE);
    write_strings::append_strings(
        out, at, order, compiled, assembled, target, source, mode, path, statics, n,
    )
}

// Appends what C's section i becomes, blocks copied into it.
fn append_section(
    out: &mut [u8],
    at: u64,
    compiled: &[u8],
    assembled: &[u8],
    file: &[u8],
    path: &[u8],
    x: Writing,
    table: &[u8],
    places: &[u8],
    steps: &[u8],
    index: &[u8],
    i: usize,
) -> u64
    requires { PlanHeld compiled.now assembled.now file.now path.now x table.now places.now steps.now index.now
        × (code_of x.stage.inputs.order compiled.now i < BSS) × (at < 2 ^ 40) }
    ensures { Written out.old at
        (result_section x.stage.inputs.order compiled.now assembled.now (held_places file.now places.now)
        file.now (code_of x.stage.inputs.order compiled.now i)) result out.new
        × (result ≤ at + 2 ^ 34) }
{
    let stage = x.stage;
    let inputs = stage.inputs;
    let code = symbols_taken::code_of(inputs.compiled, i);
    let blocks = base_buffers::part(table, 0, base_scope::BLOCK_TABLE);
    let lines = base_buffers::part(places, 0, base_scope::PLACE_TABLE);
    let late = base_buffers::part(steps, 0, base_scope::LATE_TABLE);
    write_content::append_copied(
        out, at, compiled, assembled, file, blocks, lines, stage, late, code,
    )
}

// Appends what C's section i becomes where it is no relocation table, but for the names that it gains.
fn append_own<'a>(
    out: &mut [u8],
    at: u64,
    compiled: &'a [u8],
    assembled: &'a [u8],
    file: &[u8],
    path: &[u8],
    x: Writing,
    table: &[u8],
    places: &[u8],
    steps: &[u8],
    index: &mut [u8],
    i: usize,
) -> u64
    requires { PlanHeld compiled.now assembled.now file.now path.now x table.now places.now steps.now index.old
        × (i < x.carry.stay) × (at < 2 ^ 40) }
    ensures { Written out.old at
        (held_own compiled.now assembled.now file.now path.now x places.now i) result out.new
        × (result ≤ at + 2 ^ 34) × SpansOver index.old index.new }
{
    let stage = x.stage;
    let inputs = stage.inputs;
    let order = inputs.order;
    match own_kind(order, compiled, inputs.compiled, i) {
        OwnKind::Same => write_content::append_contents(out, at, order, compiled, i),
        OwnKind::Symbols => append_numbered(
            out, at, compiled, assembled, file, path, x, table, places, steps, index,
        ),
        OwnKind::Strings => append_symbol_strings(
            out, at, compiled, assembled, file, path, x, table, places, steps, index,
        ),
        OwnKind::Registers => write_content::append_registers(out, at, compiled, assembled, inputs),
        OwnKind::Copied => append_section(
            out, at, compiled, assembled, file, path, x, table, places, steps, index, i,
        ),
    }
}

// Appends the names of the first `many` new sections, each with its zero byte.
fn append_opened(
    out: &mut [u8],
    at: u64,
    compiled: &[u8],
    assembled: &[u8],
    file: &[u8],
    path: &[u8],
    x: Writing,
    table: &[u8],
    places: &[u8],
    steps: &[u8],
    index: &[u8],
    many: usize,
) -> u64
    requires { PlanHeld compiled.now assembled.now file.now path.now x table.now places.now steps.now index.now
        × (many ≤ x.carry.homes.opened) × (at < 2 ^ 41) }
    ensures { Written out.old at
        (new_names x.stage.inputs.order compiled.now assembled.now (kept x.stage.inputs.order compiled.now x.flag) many)
        result out.new × (result ≤ at + 2 ^ 34) }
{
    let stage = x.stage;
    let inputs = stage.inputs;
    let order = inputs.order;
    let source = inputs.assembled;
    let carry = x.carry;
    let found = carry.homes;
    let n = found.tables;
    let stay = carry.stay;
    let homes = base_buffers::part(places, carry_stage::HOMES_AT, HOME_TABLE);
    write_content::append_new_names(out, at, order, assembled, source, homes, n, stay, many)
}

// Appends the names that section i gains.
fn append_added(
    out: &mut [u8],
    at: u64,
    compiled: &[u8],
    assembled: &[u8],
    file: &[u8],
    path: &[u8],
    x: Writing,
    table: &[u8],
    places: &[u8],
    steps: &[u8],
    index: &[u8],
    i: usize,
) -> u64
    requires { PlanHeld compiled.now assembled.now file.now path.now x table.now places.now steps.now index.now × (at < 2 ^ 41) }
    ensures { Written out.old at
        (held_names compiled.now assembled.now file.now path.now x places.now i) result out.new
        × (result ≤ at + 2 ^ 34) }
{
    let stage = x.stage;
    let inputs = stage.inputs;
    let own = inputs.compiled;
    let carry = x.carry;
    let found = carry.homes;
    if i == own.section_strings {
        return append_opened(
            out,
            at,
            compiled,
            assembled,
            file,
            path,
            x,
            table,
            places,
            steps,
            index,
            found.opened,
        );
    }
    at
}

// Appends what C's section i becomes where it is no relocation table.
fn append_named<'a>(
    out: &mut [u8],
    at: u64,
    compiled: &'a [u8],
    assembled: &'a [u8],
    file: &[u8],
    path: &[u8],
    x: Writing,
    table: &[u8],
    places: &[u8],
    steps: &[u8],
    index: &mut [u8],
    i: usize,
) -> u64
    requires { PlanHeld compiled.now assembled.now file.now path.now x table.now places.now steps.now index.old
        × (i < x.carry.stay) × (at < 2 ^ 40) }
    ensures { Written out.old at
        (held_own compiled.now assembled.now file.now path.now x places.now i
        ++ held_names compiled.now assembled.now file.now path.now x places.now i) result out.new
        × (result ≤ at + 2 ^ 35) × SpansOver index.old index.new }
{
    let end = append_own(
        out, at, compiled, assembled, file, path, x, table, places, steps, index, i,
    );
    append_added(
        out, end, compiled, assembled, file, path, x, table, places, steps, index, i,
    )
}

// Whether section i of the result is a relocation table, where `stay` of C's sections stay.
fn is_planned_table(order: ByteOrder, compiled: &[u8], stay: usize, i: usize) -> bool
    requires { Headed order compiled.now × (stay ≤ section_count order compiled.now) }
    ensures { result ≡ (not (ltb i stay) || is_table order compiled.now i) }
{
    if i < stay {
        return elf_relocations::is_table(order, compiled, i);
    }
    true
}

// Appends what section i of the result holds.
pub fn append_planned<'a>(
    out: &mut [u8],
    at: u64,
    compiled: &'a [u8],
    assembled: &'a [u8],
    file: &[u8],
    path: &[u8],
    x: Writing,
    table: &[u8],
    places: &[u8],
    steps: &[u8],
    index: &mut [u8],
    i: usize,
) -> u64
    requires { PlanHeld compiled.now assembled.now file.now path.now x table.now places.now steps.now index.old × (at < 2 ^ 40) }
    ensures { Written out.old at
        (held_bytes compiled.now assembled.now file.now path.now x places.now i) result out.new
        × (result ≤ at + 2 ^ 35) × SpansOver index.old index.new }
{
    let stage = x.stage;
    let inputs = stage.inputs;
    let order = inputs.order;
    let carry = x.carry;
    if is_planned_table(order, compiled, carry.stay, i) {
        return append_table(
            out, at, compiled, assembled, file, path, x, table, places, steps, index, i,
        );
    }
    append_named(
        out, at, compiled, assembled, file, path, x, table, places, steps, index, i,
    )
}

// How many bytes section i of the result holds: an output of one byte takes no part in the count.
pub fn planned_size<'a>(
    compiled: &'a [u8],
    assembled: &'a [u8],
    file: &[u8],
    path: &[u8],
    x: Writing,
    table: &[u8],
    places: &[u8],
    steps: &[u8],
    index: &mut [u8],
    i: usize,
) -> u64
    requires { PlanHeld compiled.now assembled.now file.now path.now x table.now places.now steps.now index.old }
    ensures { (result ≡ length (held_bytes compiled.now assembled.now file.now path.now x places.now i))
        × (result ≤ 2 ^ 35) × SpansOver index.old index.new }
{
    let mut room = [0u8; 1];
    append_planned(
        &mut room, 0, compiled, assembled, file, path, x, table, places, steps, index, i,
    )
}

// A header with another sh_info.
fn with_info(h: SectionHeader, info: u32) -> SectionHeader
    ensures { result ≡ with_info h info }
{
    SectionHeader {
        sh_name: h.sh_name,
        sh_type: h.sh_type,
        sh_flags: h.sh_flags,
        sh_addr: h.sh_addr,
        sh_offset: h.sh_offset,
        sh_size: h.sh_size,
        sh_link: h.sh_link,
        sh_info: info,
        sh_addralign: h.sh_addralign,
        sh_entsize: h.sh_entsize,
    }
}

// The header of section i of the result, where it is one of C's that stay.
pub fn kept_heading(
    compiled: &[u8],
    assembled: &[u8],
    file: &[u8],
    path: &[u8],
    x: Writing,
    table: &[u8],
    places: &[u8],
    steps: &[u8],
    index: &[u8],
    i: usize,
) -> SectionHeader
    requires { PlanHeld compiled.now assembled.now file.now path.now x table.now places.now steps.now index.now × (i < x.carry.stay) }
    ensures { result ≡ (held_plan compiled.now assembled.now file.now path.now x places.now).heading i }
{
    let stage = x.stage;
    let inputs = stage.inputs;
    let order = inputs.order;
    let own = inputs.compiled;
    let counts = x.counts;
    let locals = counts.locals;
    let h = elf_readers::section_at(order, compiled, i);
    if i == own.symtab {
        return with_info(h, locals as u32);
    }
    h
}

// How many bytes C's section i becomes, but for the names that it gains.
fn own_size<'a>(
    compiled: &'a [u8],
    assembled: &'a [u8],
    file: &[u8],
    path: &[u8],
    x: Writing,
    table: &[u8],
    places: &[u8],
    steps: &[u8],
    index: &mut [u8],
    i: usize,
) -> u64
    requires { PlanHeld compiled.now assembled.now file.now path.now x table.now places.now steps.now index.old × (i < x.carry.stay) }
    ensures { (result ≡ length (held_own compiled.now assembled.now file.now path.now x places.now i))
        × (result ≤ 2 ^ 34) × SpansOver index.old index.new }
{
    let mut room = [0u8; 1];
    append_own(
        &mut room, 0, compiled, assembled, file, path, x, table, places, steps, index, i,
    )
}

// How many bytes the names of the first `many` new sections have.
fn opened_size(
    compiled: &[u8],
    assembled: &[u8],
    file: &[u8],
    path: &[u8],
    x: Writing,
    table: &[u8],
    places: &[u8],
    steps: &[u8],
    index: &[u8],
    many: usize,
) -> u64
    requires { PlanHeld compiled.now assembled.now file.now path.now x table.now places.now steps.now index.now × (many ≤ x.carry.homes.opened) }
    ensures { (result ≡ length (new_names x.stage.inputs.order compiled.now assembled.now
        (kept x.stage.inputs.order compiled.now x.flag) many))
        × (result ≤ 2 ^ 34) }
{
    let mut room = [0u8; 1];
    append_opened(
        &mut room, 0, compiled, assembled, file, path, x, table, places, steps, index, many,
    )
}

// Where the name of the i-th new section stands in the table of section names: sh_name of its header.
pub fn new_name_at<'a>(
    compiled: &'a [u8],
    assembled: &'a [u8],
    file: &[u8],
    path: &[u8],
    x: Writing,
    table: &[u8],
    places: &[u8],
    steps: &[u8],
    index: &mut [u8],
    i: usize,
) -> u64
    requires { PlanHeld compiled.now assembled.now file.now path.now x table.now places.now steps.now index.old
        × (x.stage.inputs.compiled.section_strings < x.carry.stay) × (i ≤ x.carry.homes.opened) }
    ensures { (result ≡ held_name_at compiled.now assembled.now file.now path.now x places.now i)
        × SpansOver index.old index.new }
{
    let stage = x.stage;
    let inputs = stage.inputs;
    let own = inputs.compiled;
    let names = own.section_strings;
    let first = own_size(
        compiled, assembled, file, path, x, table, places, steps, index, names,
    );
    let more = opened_size(
        compiled, assembled, file, path, x, table, places, steps, index, i,
    );
    first + more
}
