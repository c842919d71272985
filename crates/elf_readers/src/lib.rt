// Reading an object: the byte order, section headers, the bytes of a section and section names. Each function equals the reader of the same
// name in specs/Readers.antt. What it needs of the file is in specs/Bounds.antt, which its callers have from document 01's checks.
#![tactic(auto)]

ghost use Rattle.std.specs.Prelude.{◌≡◌, ◌+◌, ◌*◌, ◌≤◌, ◌<◌, length};
ghost use Rattle.base_fields.specs.Numbers.{number};
ghost use Rattle.base_scope.specs.Codes.{CODES};
ghost use Rattle.elf_readers.specs.Readers.{order_of, header, section_count, header_place, section, contents, is_strtab, section_strings, section_name, has_name, section_named, coded_section};
ghost use Rattle.elf_readers.specs.Bounds.{Headed, Named};

use base_fields::ByteOrder;
use elf_records::{ElfHeader, SectionHeader};

// The byte order that a file states.
pub fn order_of(file: &[u8]) -> ByteOrder
    ensures { result ≡ order_of file.now }
{
    if file.len() <= 5 {
        return ByteOrder::Big;
    }
    if file[5] == base_scope::ELFDATA2LSB {
        return ByteOrder::Little;
    }
    ByteOrder::Big
}

// How many sections a file states.
pub fn section_count(order: ByteOrder, file: &[u8]) -> usize
    requires { 52 ≤ length file.now }
    ensures { (result ≡ section_count order file.now) × (result < 65536) }
{
    base_fields::read16(order, file, 48) as usize
}

// Where section header i stands.
pub fn header_place(order: ByteOrder, file: &[u8], i: usize) -> usize
    requires { (52 ≤ length file.now) × (i < 65536) }
    ensures { (result ≡ header_place order file.now i) × (result < 8589934592) }
{
    base_fields::read32(order, file, 32) as usize + SectionHeader::SIZE * i
}

// Section header i.
pub fn section_at(order: ByteOrder, file: &[u8], i: usize) -> SectionHeader
    requires { Headed order file.now × (i < section_count order file.now) }
    ensures { result ≡ section order file.now i }
{
    let at = header_place(order, file, i);
    SectionHeader::new(order, file, at)
}

// Word k of section i's header; `at` is where the headers start.
pub fn header_word(order: ByteOrder, file: &[u8], at: usize, i: usize, k: usize) -> u32
    requires { Headed order file.now × (at ≡ header_place order file.now 0) × (i < section_count order file.now) × (k < 10) }
    ensures { result ≡ number order 4 file.now (header_place order file.now i + 4 * k) }
{
    base_fields::read32(order, file, at + SectionHeader::SIZE * i + 4 * k)
}

// The type of section i; `at` is where the headers start. A search among the sections reads no more of each.
pub fn section_type(order: ByteOrder, file: &[u8], at: usize, i: usize) -> u32
    requires { Headed order file.now × (at ≡ header_place order file.now 0) × (i < section_count order file.now) }
    ensures { result ≡ (section order file.now i).sh_type }
{
    header_word(order, file, at, i, 1)
}

// The type of section i: one word of its header.
pub fn type_of(order: ByteOrder, file: &[u8], i: usize) -> u32
    requires { Headed order file.now × (i < section_count order file.now) }
    ensures { result ≡ (section order file.now i).sh_type }
{
    let at = header_place(order, file, 0);
    section_type(order, file, at, i)
}

// Where the name of section i starts in the names' table; `at` is where the headers start.
pub fn name_place(order: ByteOrder, file: &[u8], at: usize, i: usize) -> usize
    requires { Headed order file.now × (at ≡ header_place order file.now 0) × (i < section_count order file.now) }
    ensures { result ≡ (section order file.now i).sh_name }
{
    header_word(order, file, at, i, 0) as usize
}

// The bytes of section i, as a part of the file.
pub fn contents_of<'a>(order: ByteOrder, file: &'a [u8], i: usize) -> &'a [u8]
    requires { Headed order file.now × (i < section_count order file.now) }
    ensures { result.now ≡ contents order file.now i }
{
    let at = header_place(order, file, 0);
    if section_type(order, file, at, i) == base_scope::SHT_NOBITS {
        return &file[0..0];
    }
    let from = header_word(order, file, at, i, 4) as usize;
    let to = from + header_word(order, file, at, i, 5) as usize;
    &file[from..to]
}

// Whether section i is there and a string table.
pub fn is_strtab(order: ByteOrder, file: &[u8], i: usize) -> bool
    requires { Headed order file.now }
    ensures { result ≡ is_strtab order file.now i }
{
    if i < section_count(order, file) {
        return type_of(order, file, i) == base_scope::SHT_STRTAB;
    }
    false
}

// The string table of the section names, as a part of the file.
pub fn section_strings<'a>(order: ByteOrder, file: &'a [u8]) -> &'a [u8]
    requires { Named order file.now }
    ensures { result.now ≡ section_strings order file.now }
{
    let i = base_fields::read16(order, file, 50) as usize;
    contents_of(order, file, i)
}

// The name of section i, as a part of the file.
pub fn section_name<'a>(order: ByteOrder, file: &'a [u8], i: usize) -> &'a [u8]
    requires { Named order file.now × (i < section_count order file.now) }
    ensures { result.now ≡ section_name order file.now i }
{
    let at = header_place(order, file, 0);
    let strings = section_strings(order, file);
    base_names::name_at(strings, name_place(order, file, at, i))
}

// Whether section i has a name; `at` is where the headers start, `strings` the names' table.
fn has_name(order: ByteOrder, file: &[u8], at: usize, strings: &[u8], name: &[u8], i: usize) -> bool
    requires { Headed order file.now × (at ≡ header_place order file.now 0) × (strings.now ≡ section_strings order file.now) × (i < section_count order file.now) }
    ensures { result ≡ has_name order file.now name.now i }
{
    base_names::name_is(strings, name_place(order, file, at, i), name)
}

// The section of a name: the first that has it, or the section count.
pub fn section_named(order: ByteOrder, file: &[u8], name: &[u8]) -> usize
    requires { Named order file.now }
    ensures { result ≡ section_named order file.now name.now }
{
    let at = header_place(order, file, 0);
    let strings = section_strings(order, file);
    let n = section_count(order, file);
    for i in 0..n {
        if has_name(order, file, at, strings, name, i) {
            return i;
        }
    }
    n
}

// The section of a code: the first of its name, or the section count.
pub fn coded_section(order: ByteOrder, file: &[u8], code: u32) -> usize
    requires { Named order file.now × (1 ≤ code) × (code ≤ CODES) }
    ensures { result ≡ coded_section order file.now code }
{
    match code {
        base_scope::TEXT => section_named(order, file, b".text"),
        base_scope::DATA => section_named(order, file, b".data"),
        base_scope::RODATA => section_named(order, file, b".rodata"),
        base_scope::BSS => section_named(order, file, b".bss"),
        base_scope::LATE_RODATA => section_named(order, file, b".late_rodata"),
        _ => section_named(order, file, b".reginfo"),
    }
}
