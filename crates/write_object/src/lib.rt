// The object that a merge writes, as steps that a writer of any plan takes: zeros between sections, the file header, a section header, a section's bytes, and the move of a debug
// section. Each equals its definition in specs/Steps.antt; specs/Object.antt is the whole object. `rewrite` is one whole instance: an object is written again from its own sections
// (specs/Own.antt).
#![tactic(auto)]

ghost use Rattle.std.specs.Prelude.{◌≡◌, false, ◌+◌, ◌-◌, ◌*◌, ◌≤◌, ◌<◌, length, take, drop};
ghost use Rattle.base_lists.specs.Windows.{spliced};
ghost use Rattle.base_buffers.specs.Buffers.{zeros};
ghost use Rattle.base_answers.specs.Answers.{room_for};
ghost use Rattle.base_answers.specs.Answered.{Answered};
ghost use Rattle.elf_records.specs.Header.{elf_bytes};
ghost use Rattle.elf_records.specs.Section.{section_bytes};
ghost use Rattle.elf_readers.specs.Readers.{header, section_count};
ghost use Rattle.statics_shift.specs.Shift.{shift_fails};
ghost use Rattle.write_image.specs.Layout.{HEADER_END, HEADING_SIZE, headings_at, image_length};
ghost use Rattle.write_object.specs.Object.{has_place, layout_of, written_heading, fails_to_move, moved_finding};
ghost use Rattle.write_object.specs.Steps.{front_with, heading_with, size_with, moved_bytes, padded_section, placed_piece, pieces_of, headings_of};
ghost use Rattle.write_object.specs.Own.{own_plan, own_object, own_end, rewrite_answer, OwnReady, OwnSection, OwnStep, Rewritten};

use base_answers::{Outcome, Refusal};
use base_fields::ByteOrder;
use elf_records::{ElfHeader, SectionHeader};

// Whether a section has a place in the object.
pub fn has_place(h: SectionHeader) -> bool
    ensures { result ≡ has_place h }
{
    if h.sh_type == base_scope::SHT_NULL {
        return false;
    }
    h.sh_type != base_scope::SHT_NOBITS
}

// Zeros the bytes between two places.
pub fn write_gap(out: &mut [u8], from: usize, to: usize)
    requires { (from ≤ to) × (to ≤ length out.old) }
    ensures { out.new ≡ spliced out.old from (zeros (to - from)) }
{
    base_buffers::zero(&mut out[from..to]);
}

// Writes the file header of a file, with the place and the number of the section headers.
pub fn write_front(out: &mut [u8], order: ByteOrder, file: &[u8], shoff: u32, many: u32)
    requires { (52 ≤ length file.now) × (52 ≤ length out.old) × (many < 65536) }
    ensures { out.new ≡ spliced out.old 0 (elf_bytes order (front_with (header order file.now) shoff many)) }
{
    let h = ElfHeader::new(order, file, 0);
    let e_ident = h.e_ident;
    let front = ElfHeader {
        e_ident,
        e_type: h.e_type,
        e_machine: h.e_machine,
        e_version: h.e_version,
        e_entry: h.e_entry,
        e_phoff: h.e_phoff,
        e_shoff: shoff,
        e_flags: h.e_flags,
        e_ehsize: h.e_ehsize,
        e_phentsize: h.e_phentsize,
        e_phnum: h.e_phnum,
        e_shentsize: h.e_shentsize,
        e_shnum: many,
        e_shstrndx: h.e_shstrndx,
    };
    front.write(order, out, 0);
}

// Writes a section header, with the place and the size of its section.
pub fn write_heading(
    out: &mut [u8],
    at: usize,
    order: ByteOrder,
    h: SectionHeader,
    offset: u32,
    size: u32,
)
    requires { at + 40 ≤ length out.old }
    ensures { out.new ≡ spliced out.old at (section_bytes order (heading_with h offset size)) }
{
    let heading = SectionHeader {
        sh_name: h.sh_name,
        sh_type: h.sh_type,
        sh_flags: h.sh_flags,
        sh_addr: h.sh_addr,
        sh_offset: offset,
        sh_size: size,
        sh_link: h.sh_link,
        sh_info: h.sh_info,
        sh_addralign: h.sh_addralign,
        sh_entsize: h.sh_entsize,
    };
    heading.write(order, out, at);
}

// The size that a section's header states, where it holds so many bytes.
pub fn written_size(h: SectionHeader, bytes: u32) -> u32
    ensures { result ≡ size_with h bytes }
{
    if h.sh_type == base_scope::SHT_NOBITS {
        return h.sh_size;
    }
    bytes
}

// Moves the words of a debug section whose place changes; other sections stay as they are.
pub fn move_section(
    out: &mut [u8],
    order: ByteOrder,
    kind: u32,
    start: usize,
    size: usize,
    old: u32,
    new: u32,
)
    requires { (start + size ≤ length out.old) × (shift_fails order (take size (drop start out.old)) kind old new ≡ false) }
    ensures { out.new ≡ spliced out.old start (moved_bytes order kind (take size (drop start out.old)) old new) }
{
    if kind != base_scope::SHT_MIPS_DEBUG {
        return;
    }
    if old == new {
        return;
    }
    let end = start + size;
    statics_shift::move_debug(order, &mut out[start..end], old, new);
}

// Writes a section's bytes at their place, with zeros from the end of what stands before it.
pub fn write_section(
    out: &mut [u8],
    order: ByteOrder,
    h: SectionHeader,
    content: &[u8],
    end: usize,
    start: usize,
)
    requires { (end ≤ start) × (start + length content.now ≤ length out.old) × (start < 4294967296)
        × (shift_fails order content.now h.sh_type h.sh_offset start ≡ false) }
    ensures { out.new ≡ spliced out.old end (padded_section order h content.now end start) }
{
    write_gap(out, end, start);
    base_fields::write_bytes(out, start, content);
    move_section(
        out,
        order,
        h.sh_type,
        start,
        content.len(),
        h.sh_offset,
        start as u32,
    );
}

// Where the sections up to section i end.
fn end_after(order: ByteOrder, file: &[u8], i: usize, end: usize) -> usize
    requires { OwnSection order file.now i end }
    ensures { result ≡ own_end order file.now (i + 1) }
{
    let h = elf_readers::section_at(order, file, i);
    if has_place(h) {
        let content = elf_readers::contents_of(order, file, i);
        let start = write_image::aligned_to(end, h.sh_addralign as usize);
        return start + content.len();
    }
    end
}

// Where all sections end.
fn own_end(order: ByteOrder, file: &[u8]) -> usize
    requires { OwnReady order file.now }
    ensures { result ≡ own_end order file.now (section_count order file.now) }
{
    let n = elf_readers::section_count(order, file);
    let mut end: usize = 52;
    for i in 0..n {
        end = end_after(order, file, i, end);
    }
    end
}

// Whether section i is to move and has no header to move.
fn fails_at(order: ByteOrder, file: &[u8], i: usize, end: usize) -> bool
    requires { OwnSection order file.now i end }
    ensures { result ≡ fails_to_move (own_plan order file.now) order i }
{
    let h = elf_readers::section_at(order, file, i);
    if has_place(h) {
        let content = elf_readers::contents_of(order, file, i);
        let start = write_image::aligned_to(end, h.sh_addralign as usize);
        return statics_shift::shift_fails(order, content, h.sh_type, h.sh_offset, start as u32);
    }
    false
}

// Refusal 17 of the sections' moves.
fn moved_finding(order: ByteOrder, file: &[u8]) -> Option<usize>
    requires { OwnReady order file.now }
    ensures { result ≡ moved_finding (own_plan order file.now) order }
{
    let n = elf_readers::section_count(order, file);
    let mut end: usize = 52;
    for i in 0..n {
        if fails_at(order, file, i, end) {
            return Some(0);
        }
        end = end_after(order, file, i, end);
    }
    None
}

// Writes section i behind the end of those before it, where it has a place.
fn write_own_section(out: &mut [u8], order: ByteOrder, file: &[u8], i: usize, end: usize) -> usize
    requires { OwnSection order file.now i end × (fails_to_move (own_plan order file.now) order i ≡ false) × (own_end order file.now (i + 1) ≤ length out.old) }
    ensures { OwnStep order file.now i (placed_piece (own_plan order file.now) order i) end result out.old out.new }
{
    let h = elf_readers::section_at(order, file, i);
    if has_place(h) {
        let content = elf_readers::contents_of(order, file, i);
        let start = write_image::aligned_to(end, h.sh_addralign as usize);
        write_section(out, order, h, content, end, start);
        return start + content.len();
    }
    end
}

// Writes the sections that have a place, one behind the other.
fn write_own_sections(out: &mut [u8], order: ByteOrder, file: &[u8])
    requires { OwnReady order file.now × (moved_finding (own_plan order file.now) order ≡ None)
        × (own_end order file.now (section_count order file.now) ≤ length out.old) }
    ensures { out.new ≡ spliced out.old HEADER_END (pieces_of (own_plan order file.now) order (section_count order file.now)) }
{
    let n = elf_readers::section_count(order, file);
    let mut end: usize = 52;
    for i in 0..n {
        end = write_own_section(out, order, file, i, end);
    }
}

// Writes the header of section i.
fn write_own_heading(
    out: &mut [u8],
    at: usize,
    order: ByteOrder,
    file: &[u8],
    i: usize,
    end: usize,
) -> usize
    requires { OwnSection order file.now i end × (at + 40 ≤ length out.old) }
    ensures { OwnStep order file.now i (section_bytes order (written_heading (own_plan order file.now) i)) at result out.old out.new }
{
    let h = elf_readers::section_at(order, file, i);
    let content = elf_readers::contents_of(order, file, i);
    let size = written_size(h, content.len() as u32);
    if has_place(h) {
        let start = write_image::aligned_to(end, h.sh_addralign as usize);
        write_heading(out, at, order, h, start as u32, size);
        return start + content.len();
    }
    write_heading(out, at, order, h, h.sh_offset, size);
    end
}

// Writes the section headers.
fn write_own_headings(out: &mut [u8], at: usize, order: ByteOrder, file: &[u8])
    requires { OwnReady order file.now × (at + HEADING_SIZE * section_count order file.now ≤ length out.old) }
    ensures { out.new ≡ spliced out.old at (headings_of (own_plan order file.now) order (section_count order file.now)) }
{
    let n = elf_readers::section_count(order, file);
    let mut end: usize = 52;
    for i in 0..n {
        end = write_own_heading(out, at + 40 * i, order, file, i, end);
    }
}

// Writes the object: the file header, the sections, zeros, and the section headers.
fn write_own(out: &mut [u8], order: ByteOrder, file: &[u8], end: usize, at: usize, many: usize)
    requires { OwnReady order file.now × (moved_finding (own_plan order file.now) order ≡ None) × (end ≡ own_end order file.now (section_count order file.now))
        × (at ≡ headings_at (layout_of (own_plan order file.now))) × (many ≡ section_count order file.now) × (many < 65536)
        × (image_length (layout_of (own_plan order file.now)) ≤ length out.old) }
    ensures { out.new ≡ spliced out.old 0 (own_object order file.now) }
{
    write_front(out, order, file, at as u32, many as u32);
    write_own_sections(out, order, file);
    write_gap(out, end, at);
    write_own_headings(out, at, order, file);
}

// Writes the object where there is room for it.
fn place_object(out: &mut [u8], order: ByteOrder, file: &[u8]) -> Outcome
    requires { OwnReady order file.now × (moved_finding (own_plan order file.now) order ≡ None) }
    ensures { Answered (room_for (own_object order file.now) (length out.old)) result out.old out.new }
{
    let many = elf_readers::section_count(order, file);
    let end = own_end(order, file);
    let at = write_image::aligned_to(end, 4);
    let long = at + SectionHeader::SIZE * many;
    if long <= out.len() {
        write_own(out, order, file, end, at, many);
        return base_answers::result(long as u64);
    }
    base_answers::refused(Refusal {
        number: base_scope::OUTPUT_ROOM,
        object: base_answers::NONE,
        place: long as u64,
    })
}

// The answer, and the object at the front of the output.
fn rewrite_answer(out: &mut [u8], order: ByteOrder, file: &[u8]) -> Outcome
    requires { OwnReady order file.now }
    ensures { Answered (rewrite_answer order file.now (length out.old)) result out.old out.new }
{
    match moved_finding(order, file) {
        None => place_object(out, order, file),
        Some(place) => base_answers::refused(Refusal {
            number: base_scope::STATICS,
            object: base_answers::COMPILED,
            place: place as u64,
        }),
    }
}

// Writes an object again from its own sections, and zeros behind it.
pub fn rewrite(file: &[u8], order: ByteOrder, out: &mut [u8]) -> Outcome
    requires { OwnReady order file.now }
    ensures { Rewritten (rewrite_answer order file.now (length out.old)) result out.old out.new }
{
    let r = rewrite_answer(out, order, file);
    let end = r.length as usize;
    base_buffers::zero_from(out, end);
    r
}
