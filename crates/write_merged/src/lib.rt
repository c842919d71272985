// The merged object is written by its plan (crate write_plan, specs/Plan.antt): the file header, the sections that have a place, zeros, and the section headers. Each function
// equals its definition over that plan (crate write_object, specs/Object.antt and specs/Steps.antt); what is in hand is in specs/Merged.antt.
#![tactic(auto)]

ghost use Rattle.std.specs.Prelude.{◌≡◌, true, false, ◌+◌, ◌*◌, ◌≤◌, ◌<◌, length, get_or};
ghost use Rattle.base_lists.specs.Windows.{spliced};
ghost use Rattle.base_scope.specs.Codes.{LINES};
ghost use Rattle.base_answers.specs.Answers.{room_for};
ghost use Rattle.base_answers.specs.Answered.{Answered};
ghost use Rattle.elf_records.specs.Section.{section_bytes};
ghost use Rattle.merge_kept.specs.Kept.{kept};
ghost use Rattle.carry_homes.specs.Homes.{opened_by};
ghost use Rattle.carry_homes.specs.Code.{home_key};
ghost use Rattle.write_image.specs.Layout.{HEADER_END, HEADING_SIZE, aligned_to, headings_at, image_length};
ghost use Rattle.write_object.specs.Object.{has_place, layout_of, written_heading, fails_to_move, moved_finding};
ghost use Rattle.write_object.specs.Steps.{placed_piece, pieces_of, headings_of};
ghost use Rattle.write_planned.specs.Held.{SpansOver, held_plan};
ghost use Rattle.write_merged.specs.Merged.{opened_as, opened_with, plan_end, MergedReady, MergedSection, MergedStep, held_answer, held_object, held_sized};

use base_answers::{Outcome, Refusal};
use carry_homes::TableName;
use elf_records::SectionHeader;
pub use write_planned;
use write_planned::Writing;
pub use write_planned::carry_stage;

// How long the table of homes is.
const HOME_TABLE: usize = 1024;

// How many sizes are noted: more than an object has sections.
const SIZES: usize = 256;

// How many sections the merged object has.
fn section_total(x: Writing) -> usize
    requires { x.carry.stay + x.carry.homes.opened < 256 }
    ensures { result ≡ x.carry.stay + x.carry.homes.opened }
{
    let carry = x.carry;
    let homes = carry.homes;
    carry.stay + homes.opened
}

// The header of a new section, of a type and a size of its entries.
fn table_heading(name: u32, kind: u32, link: u32, info: u32, entry: u32) -> SectionHeader
    ensures { result ≡ opened_as name kind link info entry }
{
    SectionHeader {
        sh_name: name,
        sh_type: kind,
        sh_flags: 0,
        sh_addr: 0,
        sh_offset: 0,
        sh_size: 0,
        sh_link: link,
        sh_info: info,
        sh_addralign: 4,
        sh_entsize: entry,
    }
}

// The header of a new section, with addends or without.
fn opened_heading(name: u32, rela: bool, link: u32, info: u32) -> SectionHeader
    ensures { result ≡ opened_with name rela link info }
{
    if rela {
        return table_heading(name, base_scope::SHT_RELA, link, info, 12);
    }
    table_heading(name, base_scope::SHT_REL, link, info, 8)
}

// What the name of the i-th new section is made of.
fn opened_key(
    compiled: &[u8],
    assembled: &[u8],
    file: &[u8],
    path: &[u8],
    x: Writing,
    table: &[u8],
    places: &[u8],
    steps: &[u8],
    index: &[u8],
    i: usize,
) -> TableName
    requires { MergedReady compiled.now assembled.now file.now path.now x table.now places.now steps.now index.now × (i < x.carry.homes.opened) }
    ensures { (result ≡ home_key x.stage.inputs.order assembled.now
        (opened_by x.stage.inputs.order compiled.now assembled.now (kept x.stage.inputs.order compiled.now x.flag) i)) × (1 ≤ result.code) × (result.code ≤ LINES) }
{
    let carry = x.carry;
    let found = carry.homes;
    let n = found.tables;
    let stage = x.stage;
    let inputs = stage.inputs;
    let order = inputs.order;
    let homes = base_buffers::part(places, carry_stage::HOMES_AT, HOME_TABLE);
    let j = carry_homes::opened_by(homes, n, carry.stay, i);
    carry_homes::home_name(order, assembled, inputs.assembled, homes, j)
}

// The header of the i-th new section.
fn new_heading<'a>(
    compiled: &'a [u8],
    assembled: &'a [u8],
    file: &[u8],
    path: &[u8],
    x: Writing,
    table: &[u8],
    places: &[u8],
    steps: &[u8],
    index: &mut [u8],
    i: usize,
) -> SectionHeader
    requires { MergedReady compiled.now assembled.now file.now path.now x table.now places.now steps.now index.old × (i < x.carry.homes.opened) }
    ensures { (result ≡ (held_plan compiled.now assembled.now file.now path.now x
        places.now).heading (x.carry.stay + i)) × SpansOver index.old index.new }
{
    let name = write_planned::new_name_at(
        compiled, assembled, file, path, x, table, places, steps, index, i,
    );
    let key = opened_key(
        compiled, assembled, file, path, x, table, places, steps, index, i,
    );
    let stage = x.stage;
    let inputs = stage.inputs;
    let own = inputs.compiled;
    let target = own.section(key.code);
    opened_heading(name as u32, key.rela, own.symtab as u32, target as u32)
}

// The header of section i.
fn heading_at<'a>(
    compiled: &'a [u8],
    assembled: &'a [u8],
    file: &[u8],
    path: &[u8],
    x: Writing,
    table: &[u8],
    places: &[u8],
    steps: &[u8],
    index: &mut [u8],
    i: usize,
) -> SectionHeader
    requires { MergedReady compiled.now assembled.now file.now path.now x table.now places.now steps.now index.old
        × (i < (held_plan compiled.now assembled.now file.now path.now x places.now).many) }
    ensures { (result ≡ (held_plan compiled.now assembled.now file.now path.now x places.now).heading i)
        × SpansOver index.old index.new }
{
    let carry = x.carry;
    if i < carry.stay {
        return write_planned::kept_heading(
            compiled, assembled, file, path, x, table, places, steps, index, i,
        );
    }
    new_heading(
        compiled,
        assembled,
        file,
        path,
        x,
        table,
        places,
        steps,
        index,
        i - carry.stay,
    )
}

// How many bytes section i holds.
fn measure_section<'a>(
    compiled: &'a [u8],
    assembled: &'a [u8],
    file: &[u8],
    path: &[u8],
    x: Writing,
    table: &[u8],
    places: &[u8],
    steps: &[u8],
    index: &mut [u8],
    i: usize,
) -> u32
    requires { MergedReady compiled.now assembled.now file.now path.now x table.now places.now steps.now index.old × (i <
        (held_plan compiled.now assembled.now file.now path.now x places.now).many) }
    ensures { (result ≡ length ((held_plan compiled.now assembled.now file.now path.now x places.now).content i)) × SpansOver index.old index.new }
{
    write_planned::planned_size(
        compiled, assembled, file, path, x, table, places, steps, index, i,
    ) as u32
}

// The size noted of section i.
fn size_at(sizes: &[u32], i: usize) -> u32
    requires { (i < length sizes.now) × (i < 256) }
    ensures { result ≡ get_or sizes.now i 0 }
{
    sizes[i]
}

// Notes how many bytes each section holds: a section is measured once, and all that follows reads its size.
fn measure_sections<'a>(
    compiled: &'a [u8],
    assembled: &'a [u8],
    file: &[u8],
    path: &[u8],
    x: Writing,
    table: &[u8],
    places: &[u8],
    steps: &[u8],
    index: &mut [u8],
    sizes: &mut [u32],
)
    requires { MergedReady compiled.now assembled.now file.now path.now x table.now places.now steps.now index.old × (256 ≤ length sizes.old) }
    ensures { held_sized compiled.now assembled.now file.now path.now x places.now sizes.new × SpansOver index.old index.new }
{
    let n = section_total(x);
    for i in 0..n {
        let size = measure_section(
            compiled, assembled, file, path, x, table, places, steps, index, i,
        );
        sizes[i] = size;
    }
}

// Where the sections up to section i end.
fn merged_after<'a>(
    compiled: &'a [u8],
    assembled: &'a [u8],
    file: &[u8],
    path: &[u8],
    x: Writing,
    table: &[u8],
    places: &[u8],
    steps: &[u8],
    index: &mut [u8],
    sizes: &[u32],
    i: usize,
    end: usize,
) -> usize
    requires { MergedSection compiled.now assembled.now file.now path.now x table.now places.now steps.now index.old i end
        × held_sized compiled.now assembled.now file.now path.now x places.now sizes.now }
    ensures { (result ≡ plan_end (held_plan compiled.now assembled.now file.now path.now x places.now) (i + 1))
        × SpansOver index.old index.new }
{
    let h = heading_at(
        compiled, assembled, file, path, x, table, places, steps, index, i,
    );
    if write_object::has_place(h) {
        let start = write_image::aligned_to(end, h.sh_addralign as usize);
        return start + size_at(sizes, i) as usize;
    }
    end
}

// Where all sections end.
fn merged_end<'a>(
    compiled: &'a [u8],
    assembled: &'a [u8],
    file: &[u8],
    path: &[u8],
    x: Writing,
    table: &[u8],
    places: &[u8],
    steps: &[u8],
    index: &mut [u8],
    sizes: &[u32],
) -> usize
    requires { MergedReady compiled.now assembled.now file.now path.now x table.now places.now steps.now index.old
        × held_sized compiled.now assembled.now file.now path.now x places.now sizes.now }
    ensures { (result ≡ plan_end
        (held_plan compiled.now assembled.now file.now path.now x places.now)
        (held_plan compiled.now assembled.now file.now path.now x places.now).many)
        × SpansOver index.old index.new }
{
    let n = section_total(x);
    let mut end: usize = 52;
    for i in 0..n {
        end = merged_after(
            compiled, assembled, file, path, x, table, places, steps, index, sizes, i, end,
        );
    }
    end
}

// Whether section i is to move and has no header to move: only debug sections move, and their bytes are C's.
fn merged_fails<'a>(
    compiled: &'a [u8],
    assembled: &'a [u8],
    file: &[u8],
    path: &[u8],
    x: Writing,
    table: &[u8],
    places: &[u8],
    steps: &[u8],
    index: &mut [u8],
    i: usize,
    end: usize,
) -> bool
    requires { MergedSection compiled.now assembled.now file.now path.now x table.now places.now steps.now index.old i end }
    ensures { (result ≡ fails_to_move (held_plan compiled.now assembled.now file.now path.now x places.now)
        x.stage.inputs.order i) × SpansOver index.old index.new }
{
    let h = heading_at(
        compiled, assembled, file, path, x, table, places, steps, index, i,
    );
    if h.sh_type == base_scope::SHT_MIPS_DEBUG {
        let stage = x.stage;
        let inputs = stage.inputs;
        let order = inputs.order;
        let content = elf_readers::contents_of(order, compiled, i);
        let start = write_image::aligned_to(end, h.sh_addralign as usize);
        return statics_shift::shift_fails(order, content, h.sh_type, h.sh_offset, start as u32);
    }
    false
}

// Refusal 17 of the sections' moves.
fn moved_fault<'a>(
    compiled: &'a [u8],
    assembled: &'a [u8],
    file: &[u8],
    path: &[u8],
    x: Writing,
    table: &[u8],
    places: &[u8],
    steps: &[u8],
    index: &mut [u8],
    sizes: &[u32],
) -> Option<usize>
    requires { MergedReady compiled.now assembled.now file.now path.now x table.now places.now steps.now index.old
        × held_sized compiled.now assembled.now file.now path.now x places.now sizes.now }
    ensures { (result ≡ moved_finding (held_plan compiled.now assembled.now file.now path.now x places.now)
        x.stage.inputs.order) × SpansOver index.old index.new }
{
    let n = section_total(x);
    let mut end: usize = 52;
    for i in 0..n {
        if merged_fails(
            compiled, assembled, file, path, x, table, places, steps, index, i, end,
        ) {
            return Some(0);
        }
        end = merged_after(
            compiled, assembled, file, path, x, table, places, steps, index, sizes, i, end,
        );
    }
    None
}

// Writes section i at its place, with zeros from the end of what stands before it, and moves its words where it is a debug section.
fn write_placed<'a>(
    out: &mut [u8],
    compiled: &'a [u8],
    assembled: &'a [u8],
    file: &[u8],
    path: &[u8],
    x: Writing,
    table: &[u8],
    places: &[u8],
    steps: &[u8],
    index: &mut [u8],
    i: usize,
    end: usize,
    h: SectionHeader,
    start: usize,
) -> usize
    requires { MergedSection compiled.now assembled.now file.now path.now x table.now places.now steps.now index.old i end × (h ≡
        (held_plan compiled.now assembled.now file.now path.now x places.now).heading i) × (has_place h ≡ true) × (start ≡ aligned_to end h.sh_addralign)
        × (fails_to_move (held_plan compiled.now assembled.now file.now path.now x places.now) x.stage.inputs.order i ≡ false) × (plan_end
        (held_plan compiled.now assembled.now file.now path.now x places.now) (i + 1) ≤ length out.old) }
    ensures { MergedStep (held_plan compiled.now assembled.now file.now path.now x places.now) i (placed_piece
        (held_plan compiled.now assembled.now file.now path.now x places.now) x.stage.inputs.order i) end result
        out.old out.new index.old index.new }
{
    let stage = x.stage;
    let inputs = stage.inputs;
    let order = inputs.order;
    write_object::write_gap(out, end, start);
    let next = write_planned::append_planned(
        out,
        start as u64,
        compiled,
        assembled,
        file,
        path,
        x,
        table,
        places,
        steps,
        index,
        i,
    ) as usize;
    write_object::move_section(
        out,
        order,
        h.sh_type,
        start,
        next - start,
        h.sh_offset,
        start as u32,
    );
    next
}

// Writes section i behind the end of those before it, where it has a place.
fn write_merged_section<'a>(
    out: &mut [u8],
    compiled: &'a [u8],
    assembled: &'a [u8],
    file: &[u8],
    path: &[u8],
    x: Writing,
    table: &[u8],
    places: &[u8],
    steps: &[u8],
    index: &mut [u8],
    i: usize,
    end: usize,
) -> usize
    requires { MergedSection compiled.now assembled.now file.now path.now x table.now places.now steps.now index.old i end × (fails_to_move
        (held_plan compiled.now assembled.now file.now path.now x places.now) x.stage.inputs.order i ≡ false) × (plan_end
        (held_plan compiled.now assembled.now file.now path.now x places.now) (i + 1) ≤ length out.old) }
    ensures { MergedStep (held_plan compiled.now assembled.now file.now path.now x places.now) i (placed_piece
        (held_plan compiled.now assembled.now file.now path.now x places.now) x.stage.inputs.order i) end result
        out.old out.new index.old index.new }
{
    let h = heading_at(
        compiled, assembled, file, path, x, table, places, steps, index, i,
    );
    if write_object::has_place(h) {
        let start = write_image::aligned_to(end, h.sh_addralign as usize);
        return write_placed(
            out, compiled, assembled, file, path, x, table, places, steps, index, i, end, h, start,
        );
    }
    end
}

// Writes the sections that have a place, one behind the other.
fn write_merged_sections<'a>(
    out: &mut [u8],
    compiled: &'a [u8],
    assembled: &'a [u8],
    file: &[u8],
    path: &[u8],
    x: Writing,
    table: &[u8],
    places: &[u8],
    steps: &[u8],
    index: &mut [u8],
)
    requires { MergedReady compiled.now assembled.now file.now path.now x table.now places.now steps.now index.old × (moved_finding
        (held_plan compiled.now assembled.now file.now path.now x places.now) x.stage.inputs.order ≡ None) × (plan_end
        (held_plan compiled.now assembled.now file.now path.now x places.now)
        (held_plan compiled.now assembled.now file.now path.now x places.now).many ≤ length out.old) }
    ensures { (out.new ≡ spliced out.old HEADER_END (pieces_of
        (held_plan compiled.now assembled.now file.now path.now x places.now)
        x.stage.inputs.order (held_plan compiled.now assembled.now file.now path.now x places.now).many))
        × SpansOver index.old index.new }
{
    let n = section_total(x);
    let mut end: usize = 52;
    for i in 0..n {
        end = write_merged_section(
            out, compiled, assembled, file, path, x, table, places, steps, index, i, end,
        );
    }
}

// Writes the header of section i.
fn write_merged_heading<'a>(
    out: &mut [u8],
    at: usize,
    compiled: &'a [u8],
    assembled: &'a [u8],
    file: &[u8],
    path: &[u8],
    x: Writing,
    table: &[u8],
    places: &[u8],
    steps: &[u8],
    index: &mut [u8],
    sizes: &[u32],
    i: usize,
    end: usize,
) -> usize
    requires { MergedSection compiled.now assembled.now file.now path.now x table.now places.now steps.now index.old i end
        × held_sized compiled.now assembled.now file.now path.now x places.now sizes.now × (at + 40 ≤ length out.old) }
    ensures { MergedStep (held_plan compiled.now assembled.now file.now path.now x places.now) i (section_bytes
        x.stage.inputs.order (written_heading
        (held_plan compiled.now assembled.now file.now path.now x places.now) i)) at result
        out.old out.new index.old index.new }
{
    let h = heading_at(
        compiled, assembled, file, path, x, table, places, steps, index, i,
    );
    let stage = x.stage;
    let inputs = stage.inputs;
    let order = inputs.order;
    let long = size_at(sizes, i);
    let size = write_object::written_size(h, long);
    if write_object::has_place(h) {
        let start = write_image::aligned_to(end, h.sh_addralign as usize);
        write_object::write_heading(out, at, order, h, start as u32, size);
        return start + long as usize;
    }
    write_object::write_heading(out, at, order, h, h.sh_offset, size);
    end
}

// Writes the section headers.
fn write_merged_headings<'a>(
    out: &mut [u8],
    at: usize,
    compiled: &'a [u8],
    assembled: &'a [u8],
    file: &[u8],
    path: &[u8],
    x: Writing,
    table: &[u8],
    places: &[u8],
    steps: &[u8],
    index: &mut [u8],
    sizes: &[u32],
)
    requires { MergedReady compiled.now assembled.now file.now path.now x table.now places.now steps.now index.old
        × held_sized compiled.now assembled.now file.now path.now x places.now sizes.now × (at + HEADING_SIZE *
        (held_plan compiled.now assembled.now file.now path.now x places.now).many ≤ length out.old) }
    ensures { (out.new ≡ spliced out.old at (headings_of
        (held_plan compiled.now assembled.now file.now path.now x places.now)
        x.stage.inputs.order (held_plan compiled.now assembled.now file.now path.now x places.now).many))
        × SpansOver index.old index.new }
{
    let n = section_total(x);
    let mut end: usize = 52;
    for i in 0..n {
        end = write_merged_heading(
            out,
            at + 40 * i,
            compiled,
            assembled,
            file,
            path,
            x,
            table,
            places,
            steps,
            index,
            sizes,
            i,
            end,
        );
    }
}

// Writes the object: the file header, the sections, zeros, and the section headers.
fn write_merged<'a>(
    out: &mut [u8],
    compiled: &'a [u8],
    assembled: &'a [u8],
    file: &[u8],
    path: &[u8],
    x: Writing,
    table: &[u8],
    places: &[u8],
    steps: &[u8],
    index: &mut [u8],
    sizes: &[u32],
    end: usize,
    at: usize,
    many: usize,
)
    requires { MergedReady compiled.now assembled.now file.now path.now x table.now places.now steps.now index.old
        × held_sized compiled.now assembled.now file.now path.now x places.now sizes.now × (moved_finding
        (held_plan compiled.now assembled.now file.now path.now x places.now) x.stage.inputs.order ≡ None) × (end ≡ plan_end
        (held_plan compiled.now assembled.now file.now path.now x places.now) (held_plan compiled.now assembled.now file.now path.now x places.now).many)
        × (at ≡ headings_at (layout_of (held_plan compiled.now assembled.now file.now path.now x places.now))) × (many ≡
        (held_plan compiled.now assembled.now file.now path.now x places.now).many)
        × (image_length (layout_of (held_plan compiled.now assembled.now file.now path.now x places.now)) ≤ length out.old) }
    ensures { (out.new ≡ spliced out.old 0
        (held_object compiled.now assembled.now file.now path.now x places.now)) × SpansOver index.old
        index.new }
{
    let stage = x.stage;
    let inputs = stage.inputs;
    let order = inputs.order;
    write_object::write_front(out, order, compiled, at as u32, many as u32);
    write_merged_sections(
        out, compiled, assembled, file, path, x, table, places, steps, index,
    );
    write_object::write_gap(out, end, at);
    write_merged_headings(
        out, at, compiled, assembled, file, path, x, table, places, steps, index, sizes,
    );
}

// Writes the object where there is room for it.
fn place_merged<'a>(
    out: &mut [u8],
    compiled: &'a [u8],
    assembled: &'a [u8],
    file: &[u8],
    path: &[u8],
    x: Writing,
    table: &[u8],
    places: &[u8],
    steps: &[u8],
    index: &mut [u8],
    sizes: &[u32],
) -> Outcome
    requires { MergedReady compiled.now assembled.now file.now path.now x table.now places.now steps.now index.old
        × held_sized compiled.now assembled.now file.now path.now x places.now sizes.now × (moved_finding
        (held_plan compiled.now assembled.now file.now path.now x places.now) x.stage.inputs.order ≡ None) }
    ensures { Answered (room_for (held_object compiled.now assembled.now file.now path.now x places.now) (length
        out.old)) result out.old out.new }
{
    let many = section_total(x);
    let end = merged_end(
        compiled, assembled, file, path, x, table, places, steps, index, sizes,
    );
    let at = write_image::aligned_to(end, 4);
    let long = at + SectionHeader::SIZE * many;
    if long <= out.len() {
        write_merged(
            out, compiled, assembled, file, path, x, table, places, steps, index, sizes, end, at,
            many,
        );
        return base_answers::result(long as u64);
    }
    base_answers::refused(Refusal {
        number: base_scope::OUTPUT_ROOM,
        object: base_answers::NONE,
        place: long as u64,
    })
}

// The answer, and the object at the front of the output.
pub fn merged_answer<'a>(
    out: &mut [u8],
    compiled: &'a [u8],
    assembled: &'a [u8],
    file: &[u8],
    path: &[u8],
    x: Writing,
    table: &[u8],
    places: &[u8],
    steps: &[u8],
    index: &mut [u8],
) -> Outcome
    requires { MergedReady compiled.now assembled.now file.now path.now x table.now places.now steps.now index.old }
    ensures { Answered (held_answer compiled.now assembled.now file.now path.now x places.now (length
        out.old)) result out.old out.new }
{
    let mut sizes = [0u32; SIZES];
    measure_sections(
        compiled, assembled, file, path, x, table, places, steps, index, &mut sizes,
    );
    match moved_fault(
        compiled, assembled, file, path, x, table, places, steps, index, &sizes,
    ) {
        None => place_merged(
            out, compiled, assembled, file, path, x, table, places, steps, index, &sizes,
        ),
        Some(place) => base_answers::refused(Refusal {
            number: base_scope::STATICS,
            object: base_answers::COMPILED,
            place: place as u64,
        }),
    }
}
