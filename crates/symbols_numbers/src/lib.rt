// The order of the result's symbols and the number of each id (document 01, "Symbols": "Entry 0, locals (by binding), the rest; `_gp_disp` last in its group"), from the
// tables of rows, of positions and of holders. Definitions over the tables: specs/Numbers.antt; what they are of the merge of symbols: proofs/Result.antt.
#![tactic(auto)]

ghost use Rattle.std.specs.Prelude.{◌≡◌, true, cond, ◌+◌, ◌*◌, ◌^◌, ◌≤◌, ◌<◌, length};
ghost use Rattle.base_scope.specs.Limits.{ID_LIMIT};
ghost use Rattle.symbols_merge.specs.Merged.{RESULT_GROUPS, LOCAL_GROUPS};
ghost use Rattle.symbols_rows.specs.Rows.{half_in, halves_in, result_group_in};
ghost use Rattle.symbols_rows.specs.Steps.{Position};
ghost use Rattle.symbols_numbers.specs.Numbers.{binding_group, holds_in, Tables, HoldersFirst, IdRoom, count_behind, OrderedAt, number_on, NumberRoom, NumberedAt, order_in, group_counts, group_starts, IdsNumbered, new_symbol, new_in};

use base_fields::ByteOrder;
use base_packed::{AssembledSymbol, CompiledSymbol, MergedSymbol};

// The groups of the result: locals, a local `_gp_disp`, the rest, another `_gp_disp`.
const GROUPS: usize = 4;

// The first two of them are local.
const LOCAL_GROUPS: usize = 2;

// One start for each group, and the end of the last.
pub const STARTS: usize = 5;

// The first group of a binding: locals come first.
fn binding_group(binding: u32) -> usize
    ensures { (result ≡ binding_group binding) × (result ≤ LOCAL_GROUPS) }
{
    if binding == base_scope::STB_LOCAL as u32 {
        return 0;
    }
    LOCAL_GROUPS
}

// How many groups `_gp_disp` comes behind the others of its binding.
fn gp_step(gp: bool) -> usize
    ensures { (result ≡ cond gp 1 0) × (result ≤ 1) }
{
    if gp { 1 } else { 0 }
}

// The group of position p in the result.
fn result_group(rows: &[u8], list: &[u8], p: usize) -> usize
    requires { Position rows.now list.now p }
    ensures { (result ≡ result_group_in rows.now list.now p) × (result < RESULT_GROUPS) }
{
    let row = symbols_rows::row_at(rows, list, p);
    binding_group(row.binding) + gp_step(row.gp_disp)
}

// Whether position p holds its name.
fn is_holder(holders: &[u8], p: usize) -> bool
    requires { 2 * p + 2 ≤ length holders.now }
    ensures { result ≡ holds_in holders.now p }
{
    symbols_rows::half_at(holders, p) == p
}

// How many of a group there are behind position p, if `held` come before it.
fn count_behind(holders: &[u8], p: usize, held: usize) -> usize
    requires { (2 * p + 2 ≤ length holders.now) × (held ≤ ID_LIMIT) }
    ensures { result ≡ count_behind holders.now p held }
{
    if is_holder(holders, p) {
        return held + 1;
    }
    held
}

// How many symbols each group has.
fn count_groups(rows: &[u8], list: &[u8], holders: &[u8], m: usize) -> [usize; GROUPS]
    requires { Tables rows.now list.now holders.now m }
    ensures { result ≡ group_counts rows.now list.now holders.now m }
{
    let mut counts = [0usize; GROUPS];
    for p in 0..m {
        let g = result_group(rows, list, p);
        counts[g] = count_behind(holders, p, counts[g]);
    }
    counts
}

// Where each group starts in the order of the result, and where the last one ends.
pub fn group_starts(rows: &[u8], list: &[u8], holders: &[u8], m: usize) -> [usize; STARTS]
    requires { Tables rows.now list.now holders.now m }
    ensures { result ≡ group_starts rows.now list.now holders.now m }
{
    let counts = count_groups(rows, list, holders, m);
    let a = counts[0];
    let b = a + counts[1];
    let c = b + counts[2];
    let d = c + counts[3];
    [0, a, b, c, d]
}

// Puts position p at `place` of the order, where it holds its name. Answers where the next of its group goes.
fn order_position(holders: &[u8], p: usize, place: usize, order: &mut [u8]) -> usize
    requires { (2 * p + 2 ≤ length holders.now) × (p < ID_LIMIT) × (holds_in holders.now p ≡ true → 2 * place + 2 ≤ length order.old) × (place ≤ ID_LIMIT) }
    ensures { OrderedAt holders.now p place result order.old order.new }
{
    if is_holder(holders, p) {
        base_fields::write16(ByteOrder::Big, order, 2 * place, p as u32);
        return place + 1;
    }
    place
}

// Leaves the positions of the result in its order: entry k of the result, from 1 on, is position `order[k - 1]`.
pub fn order_positions(
    rows: &[u8],
    list: &[u8],
    holders: &[u8],
    m: usize,
    starts: [usize; STARTS],
    order: &mut [u8],
)
    requires { Tables rows.now list.now holders.now m × (starts ≡ group_starts rows.now list.now holders.now m) × (2 * m ≤ length order.old) }
    ensures { halves_in order.new (length (order_in rows.now list.now holders.now m RESULT_GROUPS))
        ≡ order_in rows.now list.now holders.now m RESULT_GROUPS }
{
    let mut next = starts;
    for p in 0..m {
        let g = result_group(rows, list, p);
        next[g] = order_position(holders, p, next[g], order);
    }
}

// The number of a place in the order: entry 0 stands before all.
fn entry_of(place: usize) -> u32
    requires { place ≤ ID_LIMIT }
    ensures { result ≡ place + 1 }
{
    place as u32 + 1
}

// The number of position p: that of its place where it holds its name, else that of its holder's id, which stands in the table.
fn number_at(list: &[u8], holders: &[u8], p: usize, place: usize, numbers: &[u8]) -> u32
    requires { (2 * p + 2 ≤ length holders.now) × (place ≤ ID_LIMIT) × (2 * half_in holders.now p + 2 ≤ length list.now)
        × (2 * half_in list.now (half_in holders.now p) + 2 ≤ length numbers.now) }
    ensures { (result ≡ number_on list.now holders.now p place numbers.now) × (result < 2 ^ 16) }
{
    let holder = symbols_rows::half_at(holders, p);
    if holder == p {
        return entry_of(place);
    }
    symbols_rows::half_at(numbers, symbols_rows::half_at(list, holder)) as u32
}

// Numbers the id at position p. Answers where the next of its group goes.
fn number_position(list: &[u8], holders: &[u8], p: usize, place: usize, numbers: &mut [u8]) -> usize
    requires { NumberRoom list.now holders.now p numbers.old × (place ≤ ID_LIMIT) }
    ensures { NumberedAt list.now holders.now p place result numbers.old numbers.new }
{
    let number = number_at(list, holders, p, place, numbers);
    base_fields::write16(
        ByteOrder::Big,
        numbers,
        2 * symbols_rows::half_at(list, p),
        number,
    );
    count_behind(holders, p, place)
}

// Zeroes the table and leaves the number of every id: 0 where it is not in the list.
pub fn number_ids(
    rows: &[u8],
    list: &[u8],
    holders: &[u8],
    m: usize,
    starts: [usize; STARTS],
    numbers: &mut [u8],
)
    requires { Tables rows.now list.now holders.now m × HoldersFirst list.now holders.now m × (starts ≡ group_starts rows.now list.now holders.now m)
        × IdRoom list.now m numbers.old }
    ensures { IdsNumbered rows.now list.now holders.now m m numbers.new }
{
    base_buffers::zero(numbers);
    let mut next = starts;
    for p in 0..m {
        let g = result_group(rows, list, p);
        next[g] = number_position(list, holders, p, next[g], numbers);
    }
}

// The entry of the result that has a number; 0 is none.
fn new_symbol(number: usize) -> Option<MergedSymbol>
    requires { number < 2 ^ 32 }
    ensures { result ≡ new_symbol number }
{
    if number == 0 {
        return None;
    }
    Some(MergedSymbol(number as u32))
}

// The entry of the result that C's symbol k becomes, if any: C has `count` symbols, and their ids are their indices.
pub fn new_of_c(numbers: &[u8], count: usize, k: CompiledSymbol) -> Option<MergedSymbol>
    requires { 2 * count ≤ length numbers.now }
    ensures { result ≡ new_in numbers.now 0 count k.0 }
{
    let i = k.0 as usize;
    if i < count {
        return new_symbol(symbols_rows::half_at(numbers, i));
    }
    None
}

// The entry of the result that A's symbol k becomes, if any: A has `count` symbols, and their ids run from `first` on.
pub fn new_of_a(
    numbers: &[u8],
    first: usize,
    count: usize,
    k: AssembledSymbol,
) -> Option<MergedSymbol>
    requires { 2 * (first + count) ≤ length numbers.now }
    ensures { result ≡ new_in numbers.now first count k.0 }
{
    let i = k.0 as usize;
    if i < count {
        return new_symbol(symbols_rows::half_at(numbers, first + i));
    }
    None
}
