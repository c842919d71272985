// The table of statics: its rows, the count that a name gains, and the length of a written name. Each function equals its definition in specs/.
#![tactic(auto)]

ghost use Rattle.std.specs.Prelude.{◌≡◌, ◌+◌, ◌*◌, ◌≤◌, ◌<◌, length};
ghost use Rattle.base_lists.specs.Ranges.{past_last};
ghost use Rattle.base_lists.specs.Windows.{spliced};
ghost use Rattle.base_scope.specs.Limits.{STATIC_LIMIT, STATIC_NAME_LIMIT, HEAD_LIMIT, WRITTEN_LIMIT, STATIC_ROW};
ghost use Rattle.statics_table.specs.Statics.{count_tail, written_length, is_namesake, namesakes};
ghost use Rattle.statics_table.specs.Table.{RowFits, static_row, static_in, CountedRows};

use base_fields::ByteOrder;

// The statics modes of document 01 that are told apart: No, Local, GlobalWithFilename.
pub const MODE_NO: u32 = 0;

pub const MODE_LOCAL: u32 = 1;

pub const MODE_FILENAME: u32 = 3;

// A static: its value, its section's code, where its stored name starts in the compiled object and how long it is, its count (0: none), and where
// its written name starts among those of all statics.
#[derive(Clone, Copy)]
pub struct Static {
    pub value: u32,
    pub code: u32,
    pub start: u32,
    pub length: u32,
    pub number: u32,
    pub offset: u32,
}

impl Static {
    // Writes row n.
    pub fn write(self, table: &mut [u8], n: usize)
        requires { (STATIC_ROW * n + STATIC_ROW ≤ length table.old) × (n < STATIC_LIMIT) × RowFits self }
        ensures { table.new ≡ spliced table.old (STATIC_ROW * n) (static_row self) }
    {
        let at = base_scope::STATIC_ROW * n;
        let code = self.code as u8;
        base_fields::write32(ByteOrder::Big, table, at, self.value);
        base_fields::write8(table, at + 4, code);
        base_fields::write24(ByteOrder::Big, table, at + 5, self.start);
        base_fields::write16(ByteOrder::Big, table, at + 8, self.length);
        base_fields::write16(ByteOrder::Big, table, at + 10, self.number);
        base_fields::write24(ByteOrder::Big, table, at + 12, self.offset);
    }

    // Row k.
    pub fn read(table: &[u8], k: usize) -> Self
        requires { (STATIC_ROW * k + STATIC_ROW ≤ length table.now) × (k < STATIC_LIMIT) }
        ensures { result ≡ static_in table.now k }
    {
        let at = base_scope::STATIC_ROW * k;
        Static {
            value: base_fields::read32(ByteOrder::Big, table, at),
            code: base_fields::wide(base_fields::read8(table, at + 4)),
            start: base_fields::read24(ByteOrder::Big, table, at + 5),
            length: base_fields::read16(ByteOrder::Big, table, at + 8),
            number: base_fields::read16(ByteOrder::Big, table, at + 10),
            offset: base_fields::read24(ByteOrder::Big, table, at + 12),
        }
    }
}

// How far a table of statics is filled: its rows, and the bytes of their written names.
#[derive(Clone, Copy)]
pub struct Tally {
    pub count: usize,
    pub size: u32,
}

// The bytes of `:` and a count; none for 0.
pub fn tail_length(number: u32) -> u32
    requires { number ≤ STATIC_LIMIT }
    ensures { (result ≡ length (count_tail number)) × (result ≤ 5) }
{
    if number == 0 {
        return 0;
    }
    if number < 10 {
        return 2;
    }
    if number < 100 {
        return 3;
    }
    if number < 1000 {
        return 4;
    }
    5
}

// The bytes of a written name and its zero byte, behind a head of so many bytes.
pub fn written_length(head: u32, s: Static) -> u32
    requires { (head ≤ HEAD_LIMIT) × (s.length ≤ STATIC_NAME_LIMIT) × (s.number ≤ STATIC_LIMIT) }
    ensures { (result ≡ written_length head s) × (result ≤ WRITTEN_LIMIT) }
{
    let tail = tail_length(s.number);
    head + s.length + tail + 1
}

// Whether the static in row k is counted under this name.
fn is_namesake(file: &[u8], table: &[u8], k: usize, name: &[u8]) -> bool
    requires { (STATIC_ROW * k + STATIC_ROW ≤ length table.now) × (k < STATIC_LIMIT) }
    ensures { result ≡ is_namesake file.now name.now (static_in table.now k) }
{
    let s = Static::read(table, k);
    if s.number == 0 {
        return false;
    }
    base_names::name_is(file, s.start as usize, name)
}

// One past the last of the first n rows that is counted under this name; 0 where none is.
fn past_namesake(file: &[u8], table: &[u8], n: usize, name: &[u8]) -> usize
    requires { (STATIC_ROW * n ≤ length table.now) × (n ≤ STATIC_LIMIT) }
    ensures { (result ≡ past_last (λ k. is_namesake file.now name.now (static_in table.now k)) n) × (result ≤ n) }
{
    for k in (0..n).rev() {
        if is_namesake(file, table, k, name) {
            return k + 1;
        }
    }
    0
}

// The count that a name gains behind the first n rows: the last namesake has one less.
pub fn next_number(file: &[u8], table: &[u8], n: usize, name: &[u8]) -> u32
    requires { CountedRows file.now table.now n }
    ensures { (result ≡ namesakes file.now name.now (static_in table.now) n + 1) × (result ≤ n + 1) }
{
    let past = past_namesake(file, table, n, name);
    if past == 0 {
        return 1;
    }
    let s = Static::read(table, past - 1);
    s.number + 1
}
