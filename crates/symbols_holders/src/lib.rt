// The holders of the positions of the list of symbols: the first position of each working name, found through an index of the list by the names' hashes, so that
// names are compared only where their hashes agree. A caller indexes the list, and has the holders put. A holder is
// `holder_of` in the crate symbols_merge, specs/Listed.antt; what is in hand, and what is left: specs/Ready.antt. Document 01, "Symbols": "Equal non-empty working names
// merge, binding ignored".
#![tactic(auto)]

ghost use Rattle.std.specs.Prelude.{◌≡◌, ◌&&◌, ◌++◌, min, ◌+◌, ◌*◌, ◌%◌, ◌≤◌, ◌<◌, length, get_or, take, leb, ltb};
ghost use Rattle.base_lists.specs.Windows.{spliced};
ghost use Rattle.base_fields.specs.declared.ByteOrder.TheVariants.{Big};
ghost use Rattle.base_fields.specs.Numbers.{encoded};
ghost use Rattle.base_index.specs.Index.{ROUND, mixed, hash_of, hash_place, Room};
ghost use Rattle.base_scope.specs.Limits.{SYMBOL_LIMIT, STATIC_LIMIT, ID_LIMIT};
ghost use Rattle.statics_table.specs.Statics.{count_tail};
ghost use Rattle.symbols_merge.specs.Listed.{holder_of};
ghost use Rattle.symbols_names.specs.Names.{first_in, SourcesRead};
ghost use Rattle.symbols_rows.specs.Rows.{half_in};
ghost use Rattle.symbols_holders.specs.Ready.{known_in, KnownHashes, Hashed, ListIndexed, ListHeld, PositionHeld, alike_in, id_count, id_name, symbols_in, HoldersReady, PositionReady, NamesHeld};

use base_fields::ByteOrder;
pub use symbols_names;
use symbols_names::Sources;
pub use symbols_names::{merge_inputs, symbols_taken};

// How many bytes of `:` and a count there is room for.
fn tail_room(number: u32, room: usize) -> usize
    requires { number ≤ STATIC_LIMIT }
    ensures { result ≡ min room (length (count_tail number)) }
{
    let n = statics_table::tail_length(number) as usize;
    if room < n {
        return room;
    }
    n
}

// The sum of the first `room` bytes of `:` and a count, from the last one to the first.
fn hash_tail(number: u32, room: usize) -> u64
    requires { number ≤ STATIC_LIMIT }
    ensures { result % ROUND ≡ mixed (take room (count_tail number)) 0 }
{
    let mut i = tail_room(number, room);
    let mut g: u64 = 0;
    while 0 < i {
        i -= 1;
        g = base_index::mix(symbols_names::tail_byte(number, i), g);
    }
    g
}

// The hash of a stored name with the tail of its count: the tail as far as there is room, the stored name before it, and the length of both.
fn joined_hash(stored: &[u8], number: u32) -> u32
    requires { number ≤ STATIC_LIMIT }
    ensures { result ≡ hash_of (stored.now ++ count_tail number) }
{
    let tail = statics_table::tail_length(number) as usize;
    let back = hash_tail(number, base_index::room_behind(stored.len()));
    let whole = base_index::hash_before(stored, base_index::HASH_BYTES, back);
    base_index::hash_end(whole, stored.len() + tail)
}

// Whether an id is that of one of A's symbols.
fn is_assembled(sources: Sources, id: usize) -> bool
    requires { first_in sources ≤ 2 * SYMBOL_LIMIT }
    ensures { result ≡ (leb sources.compiled.count id && ltb id (first_in sources)) }
{
    let own = sources.compiled;
    let other = sources.assembled;
    let first = own.count;
    base_scope::both(first <= id, id < first + other.count)
}

// The hash of the name of A's symbol k, which the index has from `known` on.
fn known_hash(index: &[u8], known: usize, k: usize) -> u32
    requires { known + 2 * k + 2 ≤ length index.now }
    ensures { result ≡ known_in index.now known k }
{
    base_fields::read16(ByteOrder::Big, index, known + 2 * k)
}

// The hash of the working name of an id. That of a symbol of A is known.
fn name_hash<'a>(
    order: ByteOrder,
    compiled: &'a [u8],
    assembled: &'a [u8],
    statics: &[u8],
    sources: Sources,
    known: usize,
    index: &[u8],
    id: usize,
) -> u32
    requires { SourcesRead order compiled.now assembled.now statics.now sources × (id < id_count sources) × KnownHashes order assembled.now known index.now }
    ensures { result ≡ hash_of (id_name order compiled.now assembled.now statics.now sources id) }
{
    if is_assembled(sources, id) {
        let own = sources.compiled;
        return known_hash(index, known, id - own.count);
    }
    let stored = symbols_names::stored_name(order, compiled, assembled, statics, sources, id);
    let count = symbols_names::name_count(statics, sources, id);
    joined_hash(stored, count)
}

// Puts the hash of the name of the id at position p, as that of item p.
fn put_hash<'a>(
    order: ByteOrder,
    compiled: &'a [u8],
    assembled: &'a [u8],
    statics: &[u8],
    sources: Sources,
    list: &[u8],
    known: usize,
    p: usize,
    index: &mut [u8],
)
    requires { SourcesRead order compiled.now assembled.now statics.now sources × PositionHeld sources list.now index.old p × KnownHashes order assembled.now known index.old }
    ensures { index.new ≡ spliced index.old (hash_place p) (encoded Big 2
        (hash_of (id_name order compiled.now assembled.now statics.now sources (half_in list.now p)))) }
{
    let id = symbols_rows::half_at(list, p);
    let hash = name_hash(
        order, compiled, assembled, statics, sources, known, index, id,
    );
    base_index::put_hash(index, p, hash);
}

// Puts the hashes of the names of the ids at the m positions of the list. Those of A's symbols stand in the index from `known` on, behind all that are put.
fn put_hashes<'a>(
    order: ByteOrder,
    compiled: &'a [u8],
    assembled: &'a [u8],
    statics: &[u8],
    sources: Sources,
    list: &[u8],
    known: usize,
    m: usize,
    index: &mut [u8],
)
    requires { SourcesRead order compiled.now assembled.now statics.now sources × ListHeld sources list.now m × (m ≤ ID_LIMIT) × Room ID_LIMIT index.old
        × KnownHashes order assembled.now known index.old }
    ensures { Hashed (id_name order compiled.now assembled.now statics.now sources) list.now index.new m }
{
    for k in 0..m {
        put_hash(
            order, compiled, assembled, statics, sources, list, known, k, index,
        );
    }
}

// Indexes the m positions of the list by the hashes of the names of their ids. Those of A's symbols stand in it from `known` on, and are written over.
pub fn index_list<'a>(
    order: ByteOrder,
    compiled: &'a [u8],
    assembled: &'a [u8],
    statics: &[u8],
    sources: Sources,
    list: &[u8],
    known: usize,
    m: usize,
    index: &mut [u8],
)
    requires { SourcesRead order compiled.now assembled.now statics.now sources × ListHeld sources list.now m × (m ≤ ID_LIMIT) × Room ID_LIMIT index.old
        × KnownHashes order assembled.now known index.old }
    ensures { ListIndexed (id_name order compiled.now assembled.now statics.now sources) list.now index.new m }
{
    put_hashes(
        order, compiled, assembled, statics, sources, list, known, m, index,
    );
    base_index::build(index, base_scope::ID_LIMIT, m);
}

// Whether position k has the name of position p: names are read only where the hashes agree.
fn is_alike<'a>(
    order: ByteOrder,
    compiled: &'a [u8],
    assembled: &'a [u8],
    statics: &[u8],
    sources: Sources,
    list: &[u8],
    index: &[u8],
    p: usize,
    k: usize,
) -> bool
    requires { SourcesRead order compiled.now assembled.now statics.now sources
        × PositionHeld sources list.now index.now p × PositionHeld sources list.now index.now k }
    ensures { result ≡ alike_in order compiled.now assembled.now statics.now sources list.now index.now p k }
{
    if base_index::hash_at(index, k) == base_index::hash_at(index, p) {
        let i = symbols_rows::half_at(list, p);
        let j = symbols_rows::half_at(list, k);
        return symbols_names::is_same_name(order, compiled, assembled, statics, sources, i, j);
    }
    false
}

// The holder of position p, of m. The walk through the bucket of its hash comes to p itself at the latest, and p need not be compared with itself.
pub fn holder_at<'a>(
    order: ByteOrder,
    compiled: &'a [u8],
    assembled: &'a [u8],
    statics: &[u8],
    sources: Sources,
    rows: &[u8],
    list: &[u8],
    index: &[u8],
    m: usize,
    p: usize,
) -> usize
    requires { PositionReady order compiled.now assembled.now statics.now sources rows.now list.now index.now m p }
    ensures { (result ≡ holder_of (symbols_in order compiled.now assembled.now statics.now sources rows.now) p) × (result ≤ p) }
{
    let row = symbols_rows::row_at(rows, list, p);
    if row.unnamed {
        return p;
    }
    let hash = base_index::hash_at(index, p);
    let mut k = base_index::head_of(index, base_scope::ID_LIMIT, m, hash);
    while k < p {
        if is_alike(
            order, compiled, assembled, statics, sources, list, index, p, k,
        ) {
            return k;
        }
        k = base_index::next_of(index, base_scope::ID_LIMIT, k);
    }
    p
}

// Puts the holder of position p, of m.
fn hold_name<'a>(
    order: ByteOrder,
    compiled: &'a [u8],
    assembled: &'a [u8],
    statics: &[u8],
    sources: Sources,
    rows: &[u8],
    list: &[u8],
    index: &[u8],
    m: usize,
    p: usize,
    holders: &mut [u8],
)
    requires { PositionReady order compiled.now assembled.now statics.now sources rows.now list.now index.now m p × (2 * p + 2 ≤ length holders.old) }
    ensures { holders.new ≡ spliced holders.old (2 * p) (encoded Big 2
        (holder_of (symbols_in order compiled.now assembled.now statics.now sources rows.now) p)) }
{
    let holder = holder_at(
        order, compiled, assembled, statics, sources, rows, list, index, m, p,
    );
    base_fields::write16(ByteOrder::Big, holders, 2 * p, holder as u32);
}

// Puts the holders of the m positions of the list.
pub fn hold_names<'a>(
    order: ByteOrder,
    compiled: &'a [u8],
    assembled: &'a [u8],
    statics: &[u8],
    sources: Sources,
    rows: &[u8],
    list: &[u8],
    index: &[u8],
    m: usize,
    holders: &mut [u8],
)
    requires { HoldersReady order compiled.now assembled.now statics.now sources rows.now list.now m
        × ListIndexed (id_name order compiled.now assembled.now statics.now sources) list.now index.now m × (2 * m ≤ length holders.old) }
    ensures { NamesHeld (symbols_in order compiled.now assembled.now statics.now sources rows.now) m
        holders.old holders.new }
{
    for p in 0..m {
        hold_name(
            order, compiled, assembled, statics, sources, rows, list, index, m, p, holders,
        );
    }
}
