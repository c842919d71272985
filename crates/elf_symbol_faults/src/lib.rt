// Refusal 5: an object's symbol table, and the lowest of its symbols that is at fault. Each function equals its definition in specs/.
#![tactic(auto)]

ghost use Rattle.std.specs.Prelude.{◌≡◌, ◌<◌};
ghost use Rattle.base_lists.specs.Ranges.{first};
ghost use Rattle.elf_readers.specs.Bounds.{Headed};
ghost use Rattle.elf_symbols.specs.Symbols.{symbol_count, Table, Entries};
ghost use Rattle.elf_symbol_faults.specs.Faults.{zero_entry, index_sound, symbol_table_sound, null_symbol_sound, symbol_sound, bad_symbol, symbol_fault, Checking};

use base_fields::ByteOrder;
use elf_records::SymbolEntry;
use elf_symbols::SymbolTable;

// Whether there is a symbol table with entries of 16 bytes, 1 to 4,096 of them, and a string table for its names.
fn is_symbol_table_sound(order: ByteOrder, file: &[u8]) -> bool
    requires { Headed order file.now }
    ensures { result ≡ symbol_table_sound order file.now }
{
    let t = elf_symbols::symtab_index(order, file);
    if t < elf_readers::section_count(order, file) {
        let h = elf_readers::section_at(order, file, t);
        let count = h.sh_size as usize / SymbolEntry::SIZE;
        let counted = base_scope::both(1 <= count, count <= base_scope::SYMBOL_LIMIT);
        let linked = base_scope::both(
            elf_readers::is_strtab(order, file, h.sh_link as usize),
            counted,
        );
        return base_scope::both(h.sh_entsize == 16, linked);
    }
    false
}

// Whether every field of an entry is zero.
fn is_zero_entry(s: SymbolEntry) -> bool
    ensures { result ≡ zero_entry s }
{
    let r = base_scope::both(s.st_other == 0, s.st_shndx == 0);
    let r = base_scope::both(s.st_info == 0, r);
    let r = base_scope::both(s.st_size == 0, r);
    let r = base_scope::both(s.st_value == 0, r);
    base_scope::both(s.st_name == 0, r)
}

// Whether a section index exists or is reserved.
fn is_index_sound(count: usize, x: u32) -> bool
    ensures { result ≡ index_sound count x }
{
    if (x as usize) < count {
        return true;
    }
    base_scope::both(base_scope::SHN_LORESERVE <= x, x < base_scope::SHN_XINDEX)
}

// Whether symbol k is entry 0, all zeros with an empty name, or another one.
fn is_null_symbol_sound(order: ByteOrder, file: &[u8], at: usize, strings: &[u8], k: usize) -> bool
    requires { Entries order file.now at strings.now × (k < symbol_count order file.now) }
    ensures { result ≡ null_symbol_sound order file.now k }
{
    if k == 0 {
        let s = elf_symbols::symbol_at(order, file, at, k);
        let name = base_names::name_at(strings, s.st_name as usize);
        return base_scope::both(is_zero_entry(s), name.len() == 0);
    }
    true
}

// Whether symbol k is entry 0 only as zeros, its name ends, and its section exists or is reserved. `ends` is one past the last zero byte of the strings, so a name's end takes no search.
fn is_symbol_sound(
    order: ByteOrder,
    file: &[u8],
    at: usize,
    strings: &[u8],
    ends: usize,
    sections: usize,
    k: usize,
) -> bool
    requires { Checking order file.now at strings.now ends sections × (k < symbol_count order file.now) }
    ensures { result ≡ symbol_sound order file.now k }
{
    let s = elf_symbols::symbol_at(order, file, at, k);
    let ended = (s.st_name as usize) < ends;
    let indexed = is_index_sound(sections, s.st_shndx);
    let null = is_null_symbol_sound(order, file, at, strings, k);
    base_scope::both(ended, base_scope::both(null, indexed))
}

// The first symbol of which that does not hold, or the symbol count.
fn first_bad_symbol(order: ByteOrder, file: &[u8], table: SymbolTable) -> usize
    requires { Table order file.now table }
    ensures { result ≡ first (bad_symbol order file.now) 0 (symbol_count order file.now) }
{
    let strings = elf_symbols::strings_of(file, table);
    let ends = base_names::past_last_zero(strings);
    let sections = elf_readers::section_count(order, file);
    let at = table.at;
    let n = table.count;
    for k in 0..n {
        if !is_symbol_sound(order, file, at, strings, ends, sections, k) {
            return k;
        }
    }
    n
}

// Refusal 5.
pub fn symbol_fault(order: ByteOrder, file: &[u8]) -> Option<usize>
    requires { Headed order file.now }
    ensures { result ≡ symbol_fault order file.now }
{
    if is_symbol_table_sound(order, file) {
        let table = elf_symbols::symbol_table(order, file);
        let bad = first_bad_symbol(order, file, table);
        return base_scope::found_below(table.count, bad);
    }
    Some(0)
}
