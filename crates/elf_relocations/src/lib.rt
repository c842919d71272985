// The relocation tables of an object: which they are, how many entries they have, and refusal 6. Each equals its definition in specs/.
#![tactic(auto)]

ghost use Rattle.std.specs.Prelude.{◌≡◌, ◌≤◌, ◌<◌};
ghost use Rattle.base_lists.specs.Ranges.{first};
ghost use Rattle.base_fields.specs.Layouts.{width_of};
ghost use Rattle.elf_records.specs.Relocation.{relocation_layout};
ghost use Rattle.elf_readers.specs.Readers.{section_count};
ghost use Rattle.elf_readers.specs.Bounds.{Headed};
ghost use Rattle.elf_symbols.specs.Symbols.{symtab};
ghost use Rattle.elf_relocations.specs.Relocations.{is_rela, is_table, entry_size, relocation_table_sound, bad_table, relocation_fault, relocates, table_from, relocation_count};

use base_fields::ByteOrder;

// Whether section i has relocations with addends.
pub fn is_rela(order: ByteOrder, file: &[u8], i: usize) -> bool
    requires { Headed order file.now × (i < section_count order file.now) }
    ensures { result ≡ is_rela order file.now i }
{
    elf_readers::type_of(order, file, i) == base_scope::SHT_RELA
}

// Whether section i is a relocation table.
pub fn is_table(order: ByteOrder, file: &[u8], i: usize) -> bool
    requires { Headed order file.now × (i < section_count order file.now) }
    ensures { result ≡ is_table order file.now i }
{
    let kind = elf_readers::type_of(order, file, i);
    if kind == base_scope::SHT_RELA {
        return true;
    }
    kind == base_scope::SHT_REL
}

// Bytes of an entry, with an addend or with none.
fn width_of(rela: bool) -> usize
    ensures { (result ≡ width_of (relocation_layout rela)) × (8 ≤ result) × (result ≤ 12) }
{
    if rela { 12 } else { 8 }
}

// Bytes of an entry of table i.
pub fn entry_size(order: ByteOrder, file: &[u8], i: usize) -> usize
    requires { Headed order file.now × (i < section_count order file.now) }
    ensures { (result ≡ entry_size order file.now i) × (8 ≤ result) × (result ≤ 12) }
{
    width_of(is_rela(order, file, i))
}

// Whether table i has entries of its type's size, an existing section to apply to, and `symbols`, the symbol table, as its link.
fn is_relocation_table_sound(order: ByteOrder, file: &[u8], symbols: usize, i: usize) -> bool
    requires { Headed order file.now × (symbols ≡ symtab order file.now) × (i < section_count order file.now) }
    ensures { result ≡ relocation_table_sound order file.now i }
{
    let h = elf_readers::section_at(order, file, i);
    let n = elf_readers::section_count(order, file);
    let size = entry_size(order, file, i);
    let placed = base_scope::both((h.sh_info as usize) < n, h.sh_link as usize == symbols);
    base_scope::both(h.sh_entsize as usize == size, placed)
}

// Whether section i is a relocation table and one of these is wrong.
fn is_bad_table(order: ByteOrder, file: &[u8], symbols: usize, i: usize) -> bool
    requires { Headed order file.now × (symbols ≡ symtab order file.now) × (i < section_count order file.now) }
    ensures { result ≡ bad_table order file.now i }
{
    if is_table(order, file, i) {
        return !is_relocation_table_sound(order, file, symbols, i);
    }
    false
}

// Refusal 6.
pub fn relocation_fault(order: ByteOrder, file: &[u8]) -> Option<usize>
    requires { Headed order file.now }
    ensures { result ≡ relocation_fault order file.now }
{
    let symbols = elf_symbols::symtab_index(order, file);
    let n = elf_readers::section_count(order, file);
    for i in 0..n {
        if is_bad_table(order, file, symbols, i) {
            return Some(i);
        }
    }
    None
}

// Whether section i is a relocation table for section s.
fn is_table_for(order: ByteOrder, file: &[u8], s: usize, i: usize) -> bool
    requires { Headed order file.now × (i < section_count order file.now) }
    ensures { result ≡ relocates order file.now s i }
{
    if is_table(order, file, i) {
        let h = elf_readers::section_at(order, file, i);
        return h.sh_info as usize == s;
    }
    false
}

// The first relocation table for section s at or after i, or the section count.
pub fn table_from(order: ByteOrder, file: &[u8], s: usize, from: usize) -> usize
    requires { Headed order file.now × (from ≤ section_count order file.now) }
    ensures { result ≡ table_from order file.now s from }
{
    let n = elf_readers::section_count(order, file);
    for i in from..n {
        if is_table_for(order, file, s, i) {
            return i;
        }
    }
    n
}

// How many entries table t has.
pub fn relocation_count(order: ByteOrder, file: &[u8], t: usize) -> usize
    requires { Headed order file.now × (t < section_count order file.now) }
    ensures { result ≡ relocation_count order file.now t }
{
    let h = elf_readers::section_at(order, file, t);
    let size = entry_size(order, file, t);
    h.sh_size as usize / size
}
