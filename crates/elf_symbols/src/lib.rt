// The symbols of an object: the first SYMTAB, its entries and names. Each equals its definition in specs/; the crate elf_index finds the first symbol of a name.
#![tactic(auto)]

ghost use Rattle.std.specs.Prelude.{◌≡◌, ◌-◌, ◌≤◌, ◌<◌, length, take, drop};
ghost use Rattle.elf_readers.specs.Readers.{section_count, header_place};
ghost use Rattle.elf_readers.specs.Bounds.{Headed};
ghost use Rattle.elf_symbols.specs.Symbols.{is_symtab, symtab, symbol_count, symbol_place, symbol, symbol_table, symbol_name, Tabled, Entries};

use base_fields::ByteOrder;
use elf_records::SymbolEntry;

// Whether section i is a symbol table; `at` is where the headers start.
fn is_symtab(order: ByteOrder, file: &[u8], at: usize, i: usize) -> bool
    requires { Headed order file.now × (at ≡ header_place order file.now 0) × (i < section_count order file.now) }
    ensures { result ≡ is_symtab order file.now i }
{
    elf_readers::section_type(order, file, at, i) == base_scope::SHT_SYMTAB
}

// The first symbol table, or the section count.
pub fn symtab_index(order: ByteOrder, file: &[u8]) -> usize
    requires { Headed order file.now }
    ensures { result ≡ symtab order file.now }
{
    let at = elf_readers::header_place(order, file, 0);
    let n = elf_readers::section_count(order, file);
    for i in 0..n {
        if is_symtab(order, file, at, i) {
            return i;
        }
    }
    n
}

// A symbol table in hand: where its entries start in the file, how many there are, and from where to where their strings lie.
#[derive(Clone, Copy)]
pub struct SymbolTable {
    pub at: usize,
    pub count: usize,
    pub names: usize,
    pub end: usize,
}

// The symbol table of an object.
pub fn symbol_table(order: ByteOrder, file: &[u8]) -> SymbolTable
    requires { Tabled order file.now }
    ensures { result ≡ symbol_table order file.now }
{
    let i = symtab_index(order, file);
    let h = elf_readers::section_at(order, file, i);
    let s = elf_readers::section_at(order, file, h.sh_link as usize);
    let names = s.sh_offset as usize;
    SymbolTable {
        at: h.sh_offset as usize,
        count: h.sh_size as usize / SymbolEntry::SIZE,
        names,
        end: names + s.sh_size as usize,
    }
}

// The strings of a symbol table, as a part of the file.
pub fn strings_of<'a>(file: &'a [u8], table: SymbolTable) -> &'a [u8]
    requires { (table.names ≤ table.end) × (table.end ≤ length file.now) }
    ensures { result.now ≡ take (table.end - table.names) (drop table.names file.now) }
{
    let from = table.names;
    let to = table.end;
    &file[from..to]
}

// Symbol k; `at` is where the table starts.
pub fn symbol_at(order: ByteOrder, file: &[u8], at: usize, k: usize) -> SymbolEntry
    requires { Tabled order file.now × (at ≡ symbol_place order file.now 0) × (k < symbol_count order file.now) }
    ensures { result ≡ symbol order file.now k }
{
    SymbolEntry::new(order, file, at + SymbolEntry::SIZE * k)
}

// The name of symbol k, as a part of the strings.
pub fn symbol_name<'a>(
    order: ByteOrder,
    file: &[u8],
    at: usize,
    strings: &'a [u8],
    k: usize,
) -> &'a [u8]
    requires { Entries order file.now at strings.now × (k < symbol_count order file.now) }
    ensures { result.now ≡ symbol_name order file.now k }
{
    let s = symbol_at(order, file, at, k);
    base_names::name_at(strings, s.st_name as usize)
}
