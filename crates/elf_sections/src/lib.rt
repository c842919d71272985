// Document 01's checks of an object's section headers and section names: refusals 3, 4 and 3 by name, each equal to its definition in specs/.
// They are called in that order, behind refusal 2, and each requires what the ones before it found.
#![tactic(auto)]

ghost use Rattle.std.specs.Prelude.{◌≡◌, cond, ◌+◌, min, ◌≤◌, ◌<◌, length};
ghost use Rattle.base_lists.specs.Ranges.{first};
ghost use Rattle.base_scope.specs.Codes.{CODES};
ghost use Rattle.elf_readers.specs.Readers.{section_count, header_place, section_strings};
ghost use Rattle.elf_readers.specs.Bounds.{Headed, Named};
ghost use Rattle.elf_sections.specs.Headers.{null_section_sound, whole_entries, bytes_inside, header_sound, section_sound, bad_section, count_sound, section_fault};
ghost use Rattle.elf_sections.specs.Names.{name_sound, bad_name, name_fault, mistyped, coded_after, type_fault, Naming};

use base_fields::ByteOrder;
use elf_records::SectionHeader;

// Whether section i is of type 0 exactly where it is section 0, and that one has no size.
fn is_null_section_sound(i: usize, h: SectionHeader) -> bool
    ensures { result ≡ null_section_sound i h }
{
    if i == 0 {
        return base_scope::both(h.sh_type == base_scope::SHT_NULL, h.sh_size == 0);
    }
    h.sh_type != base_scope::SHT_NULL
}

// Whether the entries of a section are whole.
fn has_whole_entries(h: SectionHeader) -> bool
    ensures { result ≡ whole_entries h }
{
    let size = h.sh_size;
    let entsize = h.sh_entsize;
    if entsize == 0 {
        return true;
    }
    size % entsize == 0
}

// Whether the bytes of a section lie inside a file of len bytes.
fn has_bytes_inside(len: usize, h: SectionHeader) -> bool
    ensures { result ≡ bytes_inside len h }
{
    if h.sh_type == base_scope::SHT_NOBITS {
        return true;
    }
    h.sh_offset as usize + h.sh_size as usize <= len
}

// Whether document 01's clauses on one section header hold of section i in a file of len bytes: type 0, flags, whole entries, bytes, alignment.
fn is_header_sound(len: usize, i: usize, h: SectionHeader) -> bool
    ensures { result ≡ header_sound len i h }
{
    let flags = h.sh_flags;
    let aligned = h.sh_addralign <= base_scope::ALIGN_LIMIT;
    let held = base_scope::both(has_bytes_inside(len, h), aligned);
    let whole = base_scope::both(has_whole_entries(h), held);
    let unlinked = base_scope::both(flags / base_scope::SHF_LINK_ORDER % 2 == 0, whole);
    base_scope::both(is_null_section_sound(i, h), unlinked)
}

// Whether section i's header lies inside the file and those clauses hold of it.
fn is_section_sound(order: ByteOrder, file: &[u8], i: usize) -> bool
    requires { (52 ≤ length file.now) × (i < 65536) }
    ensures { result ≡ section_sound order file.now i }
{
    let at = elf_readers::header_place(order, file, i);
    if at + SectionHeader::SIZE > file.len() {
        return false;
    }
    is_header_sound(file.len(), i, SectionHeader::new(order, file, at))
}

// The first of n sections of which they do not, or n.
fn first_bad_section(order: ByteOrder, file: &[u8], n: usize) -> usize
    requires { (52 ≤ length file.now) × (n < 65536) }
    ensures { result ≡ first (bad_section order file.now) 0 n }
{
    for i in 0..n {
        if !is_section_sound(order, file, i) {
            return i;
        }
    }
    n
}

// Refusal 3, its first part.
pub fn section_fault(order: ByteOrder, file: &[u8]) -> Option<usize>
    requires { 52 ≤ length file.now }
    ensures { result ≡ section_fault order file.now }
{
    let n = elf_readers::section_count(order, file);
    if base_scope::both(1 <= n, n <= base_scope::SECTION_LIMIT) {
        let bad = first_bad_section(order, file, n);
        return base_scope::found_below(n, bad);
    }
    Some(0)
}

// Whether section i's name has a zero end and no byte over 127. `headers` is where the headers start, `strings` the names' table, `ends` one past its last zero byte.
fn is_name_sound(
    order: ByteOrder,
    file: &[u8],
    headers: usize,
    strings: &[u8],
    ends: usize,
    i: usize,
) -> bool
    requires { Naming order file.now strings.now ends × (headers ≡ header_place order file.now 0) × (i < section_count order file.now) }
    ensures { result ≡ name_sound order file.now i }
{
    let at = elf_readers::name_place(order, file, headers, i);
    if at < ends {
        return base_names::is_ascii(base_names::name_at(strings, at));
    }
    false
}

// The first section whose name has no zero end or a byte over 127, or the section count.
fn first_bad_name(order: ByteOrder, file: &[u8]) -> usize
    requires { Named order file.now }
    ensures { result ≡ first (bad_name order file.now) 0 (section_count order file.now) }
{
    let headers = elf_readers::header_place(order, file, 0);
    let strings = elf_readers::section_strings(order, file);
    let ends = base_names::past_last_zero(strings);
    let n = elf_readers::section_count(order, file);
    for i in 0..n {
        if !is_name_sound(order, file, headers, strings, ends, i) {
            return i;
        }
    }
    n
}

// Refusal 4.
pub fn name_fault(order: ByteOrder, file: &[u8]) -> Option<usize>
    requires { Headed order file.now }
    ensures { result ≡ name_fault order file.now }
{
    let strings = base_fields::read16(order, file, 50) as usize;
    if elf_readers::is_strtab(order, file, strings) {
        let n = elf_readers::section_count(order, file);
        let bad = first_bad_name(order, file);
        return base_scope::found_below(n, bad);
    }
    Some(0)
}

// Whether section k is there and of another type than document 01 asks of code i + 1.
fn is_mistyped(order: ByteOrder, file: &[u8], i: u32, k: usize) -> bool
    requires { Named order file.now × (i < CODES) × (k ≡ coded_after order file.now i) }
    ensures { result ≡ mistyped order file.now i }
{
    if k < elf_readers::section_count(order, file) {
        return elf_readers::type_of(order, file, k) != base_scope::code_type(i + 1);
    }
    false
}

// The lower of a section that is mistyped and the lowest one so far.
fn lower_mistyped(order: ByteOrder, file: &[u8], i: u32, lowest: usize) -> usize
    requires { Named order file.now × (i < CODES) }
    ensures { result ≡ cond (mistyped order file.now i) (min (coded_after order file.now i) lowest) lowest }
{
    let k = elf_readers::coded_section(order, file, i + 1);
    if is_mistyped(order, file, i, k) {
        if k < lowest {
            return k;
        }
        return lowest;
    }
    lowest
}

// Refusal 3, its second part.
pub fn type_fault(order: ByteOrder, file: &[u8]) -> Option<usize>
    requires { Named order file.now }
    ensures { result ≡ type_fault order file.now }
{
    let n = elf_readers::section_count(order, file);
    let mut lowest = n;
    for i in 0..base_scope::CODES {
        lowest = lower_mistyped(order, file, i, lowest);
    }
    base_scope::found_below(n, lowest)
}
