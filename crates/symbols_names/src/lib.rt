// The working names of ids, read from both objects and the table of statics. A working name is a stored name, which is a part of an object, and for a static above
// level 1 `:` and its count; it stands nowhere in one piece, so it is read and compared by its two parts. Each function equals its definition: `name_of` in the crate
// symbols_ids, specs/Ids.antt, and its parts in specs/Names.antt. Document 01, "Symbols" and "Statics".
#![tactic(auto)]

ghost use Rattle.std.specs.Prelude.{◌≡◌, not, ◌&&◌, ◌++◌, ◌+◌, ◌*◌, ◌%◌, ◌≤◌, ◌<◌, length, get_or, eqb};
ghost use Rattle.base_lists.specs.Strings.{same, name_at};
ghost use Rattle.base_scope.specs.Limits.{SYMBOL_LIMIT, STATIC_LIMIT};
ghost use Rattle.elf_symbols.specs.Symbols.{symbol_count, symbol, symbol_name, Table};
ghost use Rattle.statics_table.specs.Statics.{count_tail, working_name};
ghost use Rattle.statics_table.specs.Table.{statics_in};
ghost use Rattle.symbols_ids.specs.Ids.{name_of};
ghost use Rattle.symbols_names.specs.Names.{first_in, stored_of, kind_of, name_count_in, without_last, RowsHeld, SourcesRead};

use base_fields::ByteOrder;
use base_names::Owner;
use elf_symbols::SymbolTable;
use statics_table::Static;
pub use symbols_ids::{merge_inputs, symbols_taken};

// What is in hand to read names: both symbol tables, and how many rows the table of statics has.
#[derive(Clone, Copy)]
pub struct Sources {
    pub compiled: SymbolTable,
    pub assembled: SymbolTable,
    pub statics: usize,
}

// The id of the first static.
fn first_static(sources: Sources) -> usize
    requires { first_in sources ≤ 2 * SYMBOL_LIMIT }
    ensures { result ≡ first_in sources }
{
    let own = sources.compiled;
    let other = sources.assembled;
    own.count + other.count
}

// Where the name of symbol k starts in the object's strings.
fn name_start(order: ByteOrder, file: &[u8], table: SymbolTable, k: usize) -> usize
    requires { Table order file.now table × (k < symbol_count order file.now) }
    ensures { result ≡ (symbol order file.now k).st_name }
{
    let at = table.at;
    let s = elf_symbols::symbol_at(order, file, at, k);
    s.st_name as usize
}

// The name of a symbol of the compiled or the assembled object, as a part of that object's strings.
fn symbol_name<'a>(
    order: ByteOrder,
    compiled: &'a [u8],
    assembled: &'a [u8],
    statics: &[u8],
    sources: Sources,
    id: usize,
) -> &'a [u8]
    requires { SourcesRead order compiled.now assembled.now statics.now sources × (id < first_in sources) }
    ensures { result.now ≡ stored_of order compiled.now assembled.now (statics_in statics.now sources.statics) id }
{
    let own = sources.compiled;
    let other = sources.assembled;
    let c = elf_symbols::strings_of(compiled, own);
    let a = elf_symbols::strings_of(assembled, other);
    let first = own.count;
    if id < first {
        let at = name_start(order, compiled, own, id);
        return base_names::name_of(c, a, Owner::Compiled, at);
    }
    let at = name_start(order, assembled, other, id - first);
    base_names::name_of(c, a, Owner::Assembled, at)
}

// The stored name of an id: the whole name of a symbol, and of a static what stands before its count.
pub fn stored_name<'a>(
    order: ByteOrder,
    compiled: &'a [u8],
    assembled: &'a [u8],
    statics: &[u8],
    sources: Sources,
    id: usize,
) -> &'a [u8]
    requires { SourcesRead order compiled.now assembled.now statics.now sources × (id < first_in sources + sources.statics) }
    ensures { result.now ≡ stored_of order compiled.now assembled.now (statics_in statics.now sources.statics) id }
{
    let first = first_static(sources);
    if id < first {
        return symbol_name(order, compiled, assembled, statics, sources, id);
    }
    let s = Static::read(statics, id - first);
    base_names::name_at(compiled, s.start as usize)
}

// The count behind the stored name of an id; 0 where there is none.
pub fn name_count(statics: &[u8], sources: Sources, id: usize) -> u32
    requires { RowsHeld statics.now sources × (id < first_in sources + sources.statics) }
    ensures { result ≡ name_count_in statics.now sources id }
{
    let first = first_static(sources);
    if id < first {
        return 0;
    }
    let s = Static::read(statics, id - first);
    s.number
}

// The last digit of a number without its last `low` digits.
fn digit_before(number: u32, low: usize) -> u8
    ensures { result ≡ 48 + without_last low number % 10 }
{
    let mut n = number;
    for _ in 0..low {
        n = n / 10;
    }
    (48 + n % 10) as u8
}

// Byte i of `:` and a count.
pub fn tail_byte(number: u32, i: usize) -> u8
    requires { (number ≤ STATIC_LIMIT) × (i < length (count_tail number)) }
    ensures { result ≡ get_or (count_tail number) i 0 }
{
    if i == 0 {
        return b':';
    }
    let n = statics_table::tail_length(number) as usize;
    digit_before(number, n - 1 - i)
}

// How many bytes a stored name and the tail of a count have.
fn joined_length(stored: &[u8], number: u32) -> usize
    requires { number ≤ STATIC_LIMIT }
    ensures { result ≡ length (stored.now ++ count_tail number) }
{
    let n = statics_table::tail_length(number) as usize;
    stored.len() + n
}

// Byte i of a stored name and the tail of a count.
fn joined_byte(stored: &[u8], number: u32, i: usize) -> u8
    requires { (number ≤ STATIC_LIMIT) × (i < length (stored.now ++ count_tail number)) }
    ensures { result ≡ get_or (stored.now ++ count_tail number) i 0 }
{
    let n = stored.len();
    if i < n {
        return stored[i];
    }
    tail_byte(number, i - n)
}

// Whether two stored names with the tails of their counts have one byte at i.
fn is_same_byte(a: &[u8], m: u32, b: &[u8], n: u32, i: usize) -> bool
    requires { (m ≤ STATIC_LIMIT) × (n ≤ STATIC_LIMIT) × (i < length (a.now ++ count_tail m)) × (i < length (b.now ++ count_tail n)) }
    ensures { result ≡ eqb (get_or (a.now ++ count_tail m) i 0) (get_or (b.now ++ count_tail n) i 0) }
{
    let x = joined_byte(a, m, i);
    let y = joined_byte(b, n, i);
    x == y
}

// Whether two stored names with the tails of their counts are equal, byte by byte: a static `n` with count 1 beside a symbol that is named `n:1`.
fn is_joined_same(a: &[u8], m: u32, b: &[u8], n: u32) -> bool
    requires { (m ≤ STATIC_LIMIT) × (n ≤ STATIC_LIMIT) }
    ensures { result ≡ same (a.now ++ count_tail m) (b.now ++ count_tail n) }
{
    let long = joined_length(a, m);
    let other = joined_length(b, n);
    if long != other {
        return false;
    }
    for i in 0..long {
        if !is_same_byte(a, m, b, n, i) {
            return false;
        }
    }
    true
}

// What a working name is: empty, `_gp_disp`, or any other.
#[derive(Clone, Copy)]
pub struct NameKind {
    pub unnamed: bool,
    pub gp_disp: bool,
}

// Whether a name that begins with this byte is any other.
fn is_other(byte: u8) -> bool
    ensures { result ≡ (not (eqb byte 0) && not (eqb byte 95)) }
{
    base_scope::both(byte != 0, byte != b'_')
}

// The kind of the name at `at` of a table. Most names begin with a letter, and that tells it.
pub fn kind_at(t: &[u8], at: usize) -> NameKind
    ensures { result ≡ kind_of (name_at t.now at) }
{
    if at < t.len() {
        if is_other(t[at]) {
            return NameKind {
                unnamed: false,
                gp_disp: false,
            };
        }
    }
    let unnamed = base_names::name_is(t, at, b"");
    let gp_disp = base_names::name_is(t, at, b"_gp_disp");
    NameKind { unnamed, gp_disp }
}

// The kind of the name of an object's symbol k.
fn symbol_kind(order: ByteOrder, file: &[u8], table: SymbolTable, k: usize) -> NameKind
    requires { Table order file.now table × (k < symbol_count order file.now) }
    ensures { result ≡ kind_of (symbol_name order file.now k) }
{
    let strings = elf_symbols::strings_of(file, table);
    kind_at(strings, name_start(order, file, table, k))
}

// The kind of the working name of a static; one with a count has a colon.
pub fn static_kind(compiled: &[u8], s: Static) -> NameKind
    ensures { result ≡ kind_of (working_name compiled.now s) }
{
    if s.number != 0 {
        return NameKind {
            unnamed: false,
            gp_disp: false,
        };
    }
    kind_at(compiled, s.start as usize)
}

// The kind of the working name of an id, by where it comes from.
pub fn name_kind<'a>(
    order: ByteOrder,
    compiled: &'a [u8],
    assembled: &'a [u8],
    statics: &[u8],
    sources: Sources,
    id: usize,
) -> NameKind
    requires { SourcesRead order compiled.now assembled.now statics.now sources × (id < first_in sources + sources.statics) }
    ensures { result ≡ kind_of (name_of order compiled.now assembled.now (statics_in statics.now sources.statics) id) }
{
    let own = sources.compiled;
    let other = sources.assembled;
    let first = own.count;
    if id < first {
        return symbol_kind(order, compiled, own, id);
    }
    let behind = first_static(sources);
    if id < behind {
        return symbol_kind(order, assembled, other, id - first);
    }
    static_kind(compiled, Static::read(statics, id - behind))
}

// Whether two ids have one working name. Behind equal counts the stored names decide.
pub fn is_same_name<'a>(
    order: ByteOrder,
    compiled: &'a [u8],
    assembled: &'a [u8],
    statics: &[u8],
    sources: Sources,
    i: usize,
    j: usize,
) -> bool
    requires { SourcesRead order compiled.now assembled.now statics.now sources × (i < first_in sources + sources.statics) × (j < first_in sources + sources.statics) }
    ensures { result ≡ same (name_of order compiled.now assembled.now (statics_in statics.now sources.statics) i) (name_of order compiled.now assembled.now (statics_in statics.now sources.statics) j) }
{
    let a = stored_name(order, compiled, assembled, statics, sources, i);
    let b = stored_name(order, compiled, assembled, statics, sources, j);
    let m = name_count(statics, sources, i);
    let n = name_count(statics, sources, j);
    if m == n {
        return base_names::same_bytes(a, b);
    }
    is_joined_same(a, m, b, n)
}
