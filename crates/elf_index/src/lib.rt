// An index of an object's symbols by name, in a lent table: `index_symbols` makes it (specs/Index.antt), and the first symbol of a name is found among the few of its bucket.
// What is found equals `symbol_named` of the crate elf_symbols. A name may come in two parts, as a label and its suffix; they are compared as lists, since a label may hold a
// zero byte, and then no symbol has its name.
#![tactic(auto)]

ghost use Rattle.std.specs.Prelude.{◌≡◌, ◌++◌, ◌+◌, ◌<◌, ◌≤◌, length};
ghost use Rattle.base_lists.specs.Windows.{spliced};
ghost use Rattle.base_fields.specs.declared.ByteOrder.TheVariants.{Big};
ghost use Rattle.base_fields.specs.Numbers.{encoded};
ghost use Rattle.base_scope.specs.Limits.{SYMBOL_LIMIT};
ghost use Rattle.base_index.specs.Index.{hash_place, hash_of, Room};
ghost use Rattle.elf_symbols.specs.Symbols.{symbol_count, symbol_name, is_symbol_named, symbol_named, Table, Entries};
ghost use Rattle.elf_index.specs.Index.{SymbolIndex};

use base_fields::ByteOrder;
use elf_symbols::SymbolTable;

// The hash of symbol k's name.
fn name_hash(order: ByteOrder, file: &[u8], at: usize, strings: &[u8], k: usize) -> u32
    requires { Entries order file.now at strings.now × (k < symbol_count order file.now) }
    ensures { result ≡ hash_of (symbol_name order file.now k) }
{
    let s = elf_symbols::symbol_at(order, file, at, k);
    base_index::name_hash(strings, s.st_name as usize)
}

// Puts the hash of symbol k's name.
fn put_name(order: ByteOrder, file: &[u8], at: usize, strings: &[u8], k: usize, index: &mut [u8])
    requires { Entries order file.now at strings.now × (k < symbol_count order file.now) × (hash_place k + 2 ≤ length index.old) }
    ensures { index.new ≡ spliced index.old (hash_place k) (encoded Big 2 (hash_of (symbol_name order file.now k))) }
{
    base_index::put_hash(index, k, name_hash(order, file, at, strings, k));
}

// Makes the index of the symbols by the hashes of their names.
pub fn index_symbols(order: ByteOrder, file: &[u8], symbols: SymbolTable, index: &mut [u8])
    requires { Table order file.now symbols × Room SYMBOL_LIMIT index.old }
    ensures { SymbolIndex order file.now index.new }
{
    let strings = elf_symbols::strings_of(file, symbols);
    let at = symbols.at;
    let n = symbols.count;
    for k in 0..n {
        put_name(order, file, at, strings, k, index);
    }
    base_index::build(index, base_scope::SYMBOL_LIMIT, n);
}

// Whether symbol k has the name of a front and a back, of which the hash is in hand: names are read only where the hashes agree.
fn is_joined(
    order: ByteOrder,
    file: &[u8],
    at: usize,
    strings: &[u8],
    index: &[u8],
    front: &[u8],
    back: &[u8],
    hash: u32,
    k: usize,
) -> bool
    requires { Entries order file.now at strings.now × (k < symbol_count order file.now) × SymbolIndex order file.now index.now × (hash ≡ hash_of (front.now ++ back.now)) }
    ensures { result ≡ is_symbol_named order file.now (front.now ++ back.now) k }
{
    if base_index::hash_at(index, k) == hash {
        let s = elf_symbols::symbol_at(order, file, at, k);
        return base_names::name_joined(strings, s.st_name as usize, front, back);
    }
    false
}

// The first symbol of the name of a front and a back, or the symbol count.
pub fn symbol_joined(
    order: ByteOrder,
    file: &[u8],
    symbols: SymbolTable,
    index: &[u8],
    front: &[u8],
    back: &[u8],
) -> usize
    requires { Table order file.now symbols × SymbolIndex order file.now index.now }
    ensures { result ≡ symbol_named order file.now (front.now ++ back.now) }
{
    let strings = elf_symbols::strings_of(file, symbols);
    let at = symbols.at;
    let n = symbols.count;
    let hash = base_index::hash_joined(front, back);
    let mut k = base_index::head_of(index, base_scope::SYMBOL_LIMIT, n, hash);
    while k < n {
        if is_joined(order, file, at, strings, index, front, back, hash, k) {
            return k;
        }
        k = base_index::next_of(index, base_scope::SYMBOL_LIMIT, k);
    }
    n
}

// The first symbol of a name, or the symbol count.
pub fn symbol_indexed(
    order: ByteOrder,
    file: &[u8],
    symbols: SymbolTable,
    index: &[u8],
    name: &[u8],
) -> usize
    requires { Table order file.now symbols × SymbolIndex order file.now index.now }
    ensures { result ≡ symbol_named order file.now name.now }
{
    symbol_joined(order, file, symbols, index, name, b"")
}
