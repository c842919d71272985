// The tables of the symbol merge: rows of ids, read and written; the list of ids, defined ones first; and refusals 18 and 19 over it. Each function equals its definition in
// specs/, over the tables it reads; proofs/Tables.antt says what that is of the merge of candidates (`symbols_merge`).
#![tactic(auto)]

ghost use Rattle.std.specs.Prelude.{◌≡◌, Bool, true, cond, [], ◌∷◌, ◌+◌, ◌*◌, ◌^◌, ◌≤◌, ◌<◌, length};
ghost use Rattle.base_lists.specs.Ranges.{first, pick_list};
ghost use Rattle.base_lists.specs.Windows.{spliced};
ghost use Rattle.base_scope.specs.Refusals.{found_below};
ghost use Rattle.base_scope.specs.Limits.{ID_LIMIT, ID_ROW};
ghost use Rattle.symbols_rows.specs.Rows.{kind_word, Fits, id_row, id_row_bytes, half_in, loose_in, elsewhere_in};
ghost use Rattle.symbols_rows.specs.Steps.{section_group, in_list, ids_of, ids_listed, Listing, Position, Held, Positions, Holders, verdict_in};

use base_answers::Refusal;
use base_fields::ByteOrder;

// What the merge asks of an id: whether it is taken, has no name, or the name `_gp_disp`; its binding; its section and value in the result.
#[derive(Clone, Copy)]
pub struct IdRow {
    pub taken: bool,
    pub unnamed: bool,
    pub gp_disp: bool,
    pub binding: u32,
    pub section: u32,
    pub value: u32,
}

// A bit of the kind word.
fn flag(set: bool, bit: u32) -> u32
    ensures { (result ≡ cond set bit 0) × (result ≤ bit) }
{
    if set { bit } else { 0 }
}

// What an id is, as one word.
fn kind_word(row: IdRow) -> u32
    requires { Fits row.binding row.section }
    ensures { result ≡ kind_word row.taken row.unnamed row.gp_disp row.binding row.section }
{
    let kind = flag(row.taken, 1) + flag(row.unnamed, 2) + flag(row.gp_disp, 4);
    kind + 8 * row.binding + 128 * row.section
}

// Writes row i.
pub fn write_id(rows: &mut [u8], i: usize, row: IdRow)
    requires { (ID_ROW * i + ID_ROW ≤ length rows.old) × Fits row.binding row.section }
    ensures { rows.new ≡ spliced rows.old (ID_ROW * i) (id_row_bytes row) }
{
    let words = [kind_word(row), row.value];
    base_fields::write_words(ByteOrder::Big, rows, base_scope::ID_ROW * i, &words);
}

// Row i.
pub fn id_at(rows: &[u8], i: usize) -> IdRow
    requires { ID_ROW * i + ID_ROW ≤ length rows.now }
    ensures { result ≡ id_row rows.now i }
{
    let kind = base_fields::read32(ByteOrder::Big, rows, base_scope::ID_ROW * i);
    IdRow {
        taken: kind % 2 == 1,
        unnamed: kind / 2 % 2 == 1,
        gp_disp: kind / 4 % 2 == 1,
        binding: kind / 8 % 16,
        section: kind / 128,
        value: base_fields::read32(ByteOrder::Big, rows, base_scope::ID_ROW * i + 4),
    }
}

// The group in the list of an id of this section: 0 where it is defined, 1 where not.
fn section_group(section: u32) -> u32
    ensures { result ≡ section_group section }
{
    if section == base_scope::SHN_UNDEF {
        return 1;
    }
    0
}

// Whether id i is taken and of a group.
fn is_in_list(rows: &[u8], group: u32, i: usize) -> bool
    requires { ID_ROW * i + ID_ROW ≤ length rows.now }
    ensures { result ≡ in_list rows.now group i }
{
    let row = id_at(rows, i);
    base_scope::both(row.taken, section_group(row.section) == group)
}

// Id i's turn in listing a group: it goes behind the m ids before it, where it is taken and of the group. Answers how many ids there are then.
fn append_id(rows: &[u8], group: u32, i: usize, m: usize, list: &mut [u8]) -> usize
    requires { (ID_ROW * i + ID_ROW ≤ length rows.now) × (i < ID_LIMIT) × (in_list rows.now group i ≡ true → 2 * m + 2 ≤ length list.old) }
    ensures { Listing (pick_list (in_list rows.now group i) (i ∷ []) []) m result list.old list.new }
{
    if is_in_list(rows, group, i) {
        base_fields::write16(ByteOrder::Big, list, 2 * m, i as u32);
        return m + 1;
    }
    m
}

// Writes the ids of a group behind the m ids before them, and answers how many there are then.
fn append_group(rows: &[u8], n: usize, group: u32, m: usize, list: &mut [u8]) -> usize
    requires { (n ≤ ID_LIMIT) × (ID_ROW * n ≤ length rows.now) × (2 * (m + length (ids_of rows.now n group)) ≤ length list.old) }
    ensures { Listing (ids_of rows.now n group) m result list.old list.new }
{
    let mut r = m;
    for i in 0..n {
        r = append_id(rows, group, i, r, list);
    }
    r
}

// Writes the list of the ids of n rows, and answers how many it has.
pub fn list_ids(rows: &[u8], n: usize, list: &mut [u8]) -> usize
    requires { (n ≤ ID_LIMIT) × (ID_ROW * n ≤ length rows.now) × (2 * n ≤ length list.old) }
    ensures { Listing (ids_listed rows.now n) 0 result list.old list.new }
{
    let defined = append_group(rows, n, 0, 0, list);
    append_group(rows, n, 1, defined, list)
}

// Number p of a table of two bytes for each.
pub fn half_at(halves: &[u8], p: usize) -> usize
    requires { 2 * p + 2 ≤ length halves.now }
    ensures { (result ≡ half_in halves.now p) × (result < 2 ^ 16) }
{
    base_fields::read16(ByteOrder::Big, halves, 2 * p) as usize
}

// The row of the id at position p.
pub fn row_at(rows: &[u8], list: &[u8], p: usize) -> IdRow
    requires { Position rows.now list.now p }
    ensures { result ≡ id_row rows.now (half_in list.now p) }
{
    id_at(rows, half_at(list, p))
}

// Whether position p is local and undefined, or unnamed and not local.
fn is_loose(rows: &[u8], list: &[u8], p: usize) -> bool
    requires { Position rows.now list.now p }
    ensures { result ≡ loose_in rows.now list.now p }
{
    let row = row_at(rows, list, p);
    if row.binding == base_scope::STB_LOCAL as u32 {
        return row.section == base_scope::SHN_UNDEF;
    }
    row.unnamed
}

// 18, over m positions.
pub fn loose_fault(rows: &[u8], list: &[u8], m: usize) -> Option<usize>
    requires { Positions rows.now list.now m }
    ensures { result ≡ found_below m (first (loose_in rows.now list.now) 0 m) }
{
    for p in 0..m {
        if is_loose(rows, list, p) {
            return Some(p);
        }
    }
    None
}

// Whether position p is defined, and not where its holder is.
fn is_elsewhere(rows: &[u8], list: &[u8], holders: &[u8], p: usize) -> bool
    requires { Held rows.now list.now holders.now p }
    ensures { result ≡ elsewhere_in rows.now list.now holders.now p }
{
    let row = row_at(rows, list, p);
    let held = row_at(rows, list, half_at(holders, p));
    if row.section == base_scope::SHN_UNDEF {
        return false;
    }
    if row.section == held.section {
        return row.value != held.value;
    }
    true
}

// 19, over m positions.
pub fn elsewhere_fault(rows: &[u8], list: &[u8], holders: &[u8], m: usize) -> Option<usize>
    requires { Holders rows.now list.now holders.now m }
    ensures { result ≡ found_below m (first (elsewhere_in rows.now list.now holders.now) 0 m) }
{
    for p in 0..m {
        if is_elsewhere(rows, list, holders, p) {
            return Some(p);
        }
    }
    None
}

// 18, then 19.
pub fn symbols_verdict(rows: &[u8], list: &[u8], holders: &[u8], m: usize) -> Result<(), Refusal>
    requires { Holders rows.now list.now holders.now m }
    ensures { result ≡ verdict_in rows.now list.now holders.now m }
{
    let loose = loose_fault(rows, list, m);
    base_answers::finding_verdict(base_scope::LOOSE_SYMBOL, base_answers::NONE, loose)?;
    let twice = elsewhere_fault(rows, list, holders, m);
    base_answers::finding_verdict(base_scope::NAME_TWICE, base_answers::NONE, twice)
}
