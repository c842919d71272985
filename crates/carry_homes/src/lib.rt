// The relocation tables of A that are carried, in their order, and the section of the result that each joins (specs/Homes.antt), as rows of a table (specs/Code.antt); the
// names of the sections that are new.
#![tactic(auto)]

ghost use Rattle.std.specs.Prelude.{◌≡◌, ◌+◌, ◌*◌, ◌^◌, ◌≤◌, ◌<◌, length};
ghost use Rattle.base_lists.specs.Written.{Written};
ghost use Rattle.base_groups.specs.Holders.{holder};
ghost use Rattle.base_scope.specs.Codes.{LINES, code_name};
ghost use Rattle.elf_readers.specs.Readers.{section_count};
ghost use Rattle.elf_readers.specs.Bounds.{Named};
ghost use Rattle.elf_check.specs.View.{Viewed};
ghost use Rattle.carry_clash.specs.Clash.{joined_name, carried_code};
ghost use Rattle.carry_homes.specs.Homes.{carried_rank, CARRIED_RANKS, carried_count, same_home, home_of};
ghost use Rattle.carry_homes.specs.Code.{HOME_ROW, HOME_TABLE, listed_table, home_in, opened_in, TablesListed};
ghost use Rattle.carry_homes.specs.Code.{in_rank, RanksListed, home_key, kind_name, same_key, HomesTo, HomesFound};

use base_fields::ByteOrder;
use carry_clash::symbols_taken;
use elf_check::View;

// The bytes of a row: two words.
pub const HOME_ROW: usize = 8;

// How many ranks there are: one for each of A's five sections.
const RANKS: usize = 5;

// What the name of a table is made of: whether it has addends, and the code of the section that it relocates.
#[derive(Clone, Copy)]
pub struct TableName {
    pub rela: bool,
    pub code: u32,
}

// How many tables are carried, and how many new sections they open.
#[derive(Clone, Copy)]
pub struct Homes {
    pub tables: usize,
    pub opened: usize,
}

// The place of a code in the order of A's sections.
fn carried_rank(code: u32) -> usize
    requires { 1 ≤ code }
    ensures { result ≡ carried_rank code }
{
    if code == base_scope::DATA {
        return 0;
    }
    if code == base_scope::TEXT {
        return 1;
    }
    code as usize - 1
}

// The code of the section that A's table t relocates.
fn carried_code(order: ByteOrder, assembled: &[u8], source: View, t: usize) -> u32
    requires { Viewed order assembled.now source × (t < section_count order assembled.now) }
    ensures { (result ≡ carried_code order assembled.now t) × (1 ≤ result) }
{
    let h = elf_readers::section_at(order, assembled, t);
    symbols_taken::code_of(source, h.sh_info as usize)
}

// Whether A's table t is carried, and of a rank.
fn is_in_rank(order: ByteOrder, assembled: &[u8], source: View, rank: usize, t: usize) -> bool
    requires { Viewed order assembled.now source × (t < section_count order assembled.now) }
    ensures { result ≡ in_rank order assembled.now rank t }
{
    if elf_relocations::is_table(order, assembled, t) {
        if carry_clash::is_carried(order, assembled, source, t) {
            return carried_rank(carried_code(order, assembled, source, t)) == rank;
        }
        return false;
    }
    false
}

// Section t's turn in listing a rank: it goes behind the m tables before it, where it is carried and of the rank. Answers how many tables there are then.
fn append_table(
    order: ByteOrder,
    assembled: &[u8],
    source: View,
    rank: usize,
    t: usize,
    m: usize,
    rows: &mut [u8],
) -> usize
    requires { Viewed order assembled.now source × (rank < CARRIED_RANKS) × (t < section_count order assembled.now) × (HOME_TABLE ≤ length rows.old)
        × RanksListed order assembled.now rank t m rows.old }
    ensures { RanksListed order assembled.now rank (t + 1) result rows.new }
{
    if is_in_rank(order, assembled, source, rank, t) {
        base_fields::write32(ByteOrder::Big, rows, HOME_ROW * m, t as u32);
        return m + 1;
    }
    m
}

// Lists the tables of a rank behind the m tables of the ranks before it. Answers how many tables there are then.
fn list_rank(
    order: ByteOrder,
    assembled: &[u8],
    source: View,
    rank: usize,
    m: usize,
    rows: &mut [u8],
) -> usize
    requires { Viewed order assembled.now source × (rank < CARRIED_RANKS) × (HOME_TABLE ≤ length rows.old) × RanksListed order assembled.now rank 0 m rows.old }
    ensures { RanksListed order assembled.now (rank + 1) 0 result rows.new }
{
    let n = source.sections;
    let mut r = m;
    for t in 0..n {
        r = append_table(order, assembled, source, rank, t, r, rows);
    }
    r
}

// Lists the carried tables, and answers how many there are.
pub fn list_tables(order: ByteOrder, assembled: &[u8], source: View, rows: &mut [u8]) -> usize
    requires { Viewed order assembled.now source × (HOME_TABLE ≤ length rows.old) }
    ensures { (result ≡ carried_count order assembled.now)
        × TablesListed order assembled.now (carried_count order assembled.now) rows.new }
{
    let mut m: usize = 0;
    for rank in 0..RANKS {
        m = list_rank(order, assembled, source, rank, m, rows);
    }
    m
}

// The table of row j.
pub fn table_at(rows: &[u8], j: usize) -> usize
    requires { HOME_ROW * j + HOME_ROW ≤ length rows.now }
    ensures { (result ≡ listed_table rows.now j) × (result < 2 ^ 32) }
{
    base_fields::read32(ByteOrder::Big, rows, HOME_ROW * j) as usize
}

// The home of row j.
pub fn home_at(rows: &[u8], j: usize) -> usize
    requires { HOME_ROW * j + HOME_ROW ≤ length rows.now }
    ensures { (result ≡ home_in rows.now j) × (result < 2 ^ 32) }
{
    base_fields::read32(ByteOrder::Big, rows, HOME_ROW * j + 4) as usize
}

// The name of the section that the j-th carried table joins.
pub fn home_name(
    order: ByteOrder,
    assembled: &[u8],
    source: View,
    rows: &[u8],
    j: usize,
) -> TableName
    requires { Viewed order assembled.now source × TablesListed order assembled.now (carried_count order assembled.now) rows.now
        × (j < carried_count order assembled.now) }
    ensures { (result ≡ home_key order assembled.now j) × (1 ≤ result.code) × (result.code ≤ LINES) }
{
    let t = table_at(rows, j);
    let code = base_scope::target_code(carried_code(order, assembled, source, t));
    let rela = elf_relocations::is_rela(order, assembled, t);
    TableName { rela, code }
}

// Whether two names are the same.
fn same_name(a: TableName, b: TableName) -> bool
    ensures { result ≡ same_key a b }
{
    if a.code == b.code {
        if a.rela {
            return b.rela;
        }
        return !b.rela;
    }
    false
}

// Whether the j-th and the i-th carried table join sections of one name.
fn same_home(
    order: ByteOrder,
    assembled: &[u8],
    source: View,
    rows: &[u8],
    j: usize,
    i: usize,
) -> bool
    requires { Viewed order assembled.now source × TablesListed order assembled.now (carried_count order assembled.now) rows.now
        × (j < carried_count order assembled.now) × (i < carried_count order assembled.now) }
    ensures { result ≡ same_home order assembled.now j i }
{
    let own = home_name(order, assembled, source, rows, j);
    let other = home_name(order, assembled, source, rows, i);
    same_name(own, other)
}

// The first carried table that joins a section of the name that the j-th joins.
fn first_home(order: ByteOrder, assembled: &[u8], source: View, rows: &[u8], j: usize) -> usize
    requires { Viewed order assembled.now source × TablesListed order assembled.now (carried_count order assembled.now) rows.now
        × (j < carried_count order assembled.now) }
    ensures { result ≡ holder (same_home order assembled.now) (carried_count order assembled.now) j }
{
    for i in 0..j {
        if same_home(order, assembled, source, rows, j, i) {
            return i;
        }
    }
    j
}

// The home of the j-th carried table, where the earlier ones have theirs: C's section of its name where that stays, else that of the first table of the name, else the next
// new section.
fn home_of(
    order: ByteOrder,
    compiled: &[u8],
    assembled: &[u8],
    source: View,
    stay: usize,
    j: usize,
    opened: usize,
    rows: &[u8],
) -> usize
    requires { Named order compiled.now × Viewed order assembled.now source × (stay ≤ section_count order compiled.now) × (j < carried_count order assembled.now)
        × HomesTo order compiled.now assembled.now stay j opened rows.now }
    ensures { (result ≡ home_of order compiled.now assembled.now stay j) × (result ≤ stay + opened) }
{
    let name = home_name(order, assembled, source, rows, j);
    let joined = carry_clash::joined_section(order, compiled, name.rela, name.code);
    if joined < stay {
        return joined;
    }
    let first = first_home(order, assembled, source, rows, j);
    if first < j {
        return home_at(rows, first);
    }
    stay + opened
}

// Writes the home of the j-th carried table. Answers how many new sections are open then.
fn settle_home(
    order: ByteOrder,
    compiled: &[u8],
    assembled: &[u8],
    source: View,
    stay: usize,
    j: usize,
    opened: usize,
    rows: &mut [u8],
) -> usize
    requires { Named order compiled.now × Viewed order assembled.now source × (stay ≤ section_count order compiled.now) × (j < carried_count order assembled.now)
        × HomesTo order compiled.now assembled.now stay j opened rows.old }
    ensures { HomesTo order compiled.now assembled.now stay (j + 1) result rows.new }
{
    let home = home_of(order, compiled, assembled, source, stay, j, opened, rows);
    base_fields::write32(ByteOrder::Big, rows, HOME_ROW * j + 4, home as u32);
    if home == stay + opened {
        return opened + 1;
    }
    opened
}

// Lists the carried tables with their homes. Answers how many there are, and how many new sections they open.
pub fn list_homes(
    order: ByteOrder,
    compiled: &[u8],
    assembled: &[u8],
    source: View,
    stay: usize,
    rows: &mut [u8],
) -> Homes
    requires { Named order compiled.now × Viewed order assembled.now source × (stay ≤ section_count order compiled.now) × (HOME_TABLE ≤ length rows.old) }
    ensures { HomesFound order compiled.now assembled.now stay result rows.new }
{
    let tables = list_tables(order, assembled, source, rows);
    let mut opened: usize = 0;
    for j in 0..tables {
        opened = settle_home(order, compiled, assembled, source, stay, j, opened, rows);
    }
    Homes { tables, opened }
}

// The first of n rows whose home is the i-th behind those that stay: `opened_by`, of all rows (proofs/Joins.antt, `opened_is`).
pub fn opened_by(rows: &[u8], n: usize, stay: usize, i: usize) -> usize
    requires { (HOME_ROW * n ≤ length rows.now) × (stay + i < 2 ^ 32) }
    ensures { result ≡ opened_in rows.now n stay i }
{
    for j in 0..n {
        if home_at(rows, j) == stay + i {
            return j;
        }
    }
    n
}

// Appends what a table's name begins with.
fn append_kind(out: &mut [u8], at: u64, rela: bool) -> u64
    requires { at + 5 < 18446744073709551616 }
    ensures { Written out.old at (kind_name rela) result out.new × (result ≤ at + 5) }
{
    if rela {
        return base_text::append(out, at, b".rela");
    }
    base_text::append(out, at, b".rel")
}

// Appends the name of a code.
fn append_code(out: &mut [u8], at: u64, code: u32) -> u64
    requires { (at + 7 < 18446744073709551616) × (1 ≤ code) × (code ≤ LINES) }
    ensures { Written out.old at (code_name code) result out.new }
{
    if code == base_scope::TEXT {
        return base_text::append(out, at, b".text");
    }
    if code == base_scope::DATA {
        return base_text::append(out, at, b".data");
    }
    if code == base_scope::RODATA {
        return base_text::append(out, at, b".rodata");
    }
    base_text::append(out, at, b".bss")
}

// Appends the name of a table.
pub fn append_name(out: &mut [u8], at: u64, rela: bool, code: u32) -> u64
    requires { (at + 12 < 18446744073709551616) × (1 ≤ code) × (code ≤ LINES) }
    ensures { Written out.old at (joined_name rela code) result out.new }
{
    let end = append_kind(out, at, rela);
    append_code(out, end, code)
}
