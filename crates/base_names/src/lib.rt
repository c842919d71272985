// Byte strings and the names of string tables: where a byte stands first, where a name ends, the name as a part of its table, and comparisons. Each equals its
// definition, here in specs/ or in the crate base_lists, specs/Strings.antt: comparisons are equations of lists, so a zero byte in a compared string is a byte like
// any other.
#![tactic(auto)]

ghost use Rattle.std.specs.Prelude.{◌≡◌, not, ◌&&◌, ◌++◌, ◌+◌, ◌/◌, ◌≤◌, length, take, drop, eqb, ltb};
ghost use Rattle.std.specs.Int.Count.{count_trailing_zeros};
ghost use Rattle.base_lists.specs.Ranges.{past_last};
ghost use Rattle.base_lists.specs.Strings.{same, prefixed, zero_at, name_end, name_at, ascii};
ghost use Rattle.base_names.specs.Ends.{ends_apart};
ghost use Rattle.base_names.specs.Tables.{table_of};
ghost use Rattle.base_names.specs.Words.{first_byte, word_at, byte_marks};

use base_fields::ByteOrder;

// The object that a name comes from.
#[derive(Clone, Copy)]
pub enum Owner {
    Compiled,
    Assembled,
}

// Whether one of the n bytes at `at` is zero, so that the name at `at` ends among them. All n are looked at, so that the compiler compares them at once.
fn has_zero(t: &[u8], at: usize, n: usize) -> bool
    requires { at + n ≤ length t.now }
    ensures { result ≡ ltb (name_end t.now at) (at + n) }
{
    let mut hit = false;
    for i in 0..n {
        if t[at + i] == 0 {
            hit = true;
        }
    }
    hit
}

// The eight bytes at `at` as a number; the compiler makes one read of it.
pub fn word_at(t: &[u8], at: usize) -> u64
    requires { at + 8 ≤ length t.now }
    ensures { result ≡ word_at t.now at 8 }
{
    let low = base_fields::read32(ByteOrder::Little, t, at);
    let high = base_fields::read32(ByteOrder::Little, t, at + 4);
    high as u64 * 4294967296 + low as u64
}

// A mark in each byte of a word that is the byte looked for.
pub fn byte_marks(word: u64, byte: u8) -> u64
    ensures { result ≡ byte_marks byte 8 word }
{
    let x = word ^ (byte as u64 * 0x0101010101010101);
    let sum = (x & 0x7f7f7f7f7f7f7f7f) + 0x7f7f7f7f7f7f7f7f;
    ((sum | x) ^ 0xffffffffffffffff) & 0x8080808080808080
}

// Which byte of a word has the lowest mark; the word has one.
pub fn first_mark(marks: u64) -> usize
    ensures { result ≡ count_trailing_zeros 64 marks / 8 }
{
    (u64::trailing_zeros(marks) / 8) as usize
}

// Where a byte stands first from `at` on, byte by byte.
fn first_by_bytes(t: &[u8], at: usize, byte: u8) -> usize
    ensures { result ≡ first_byte t.now byte at }
{
    let mut i = at;
    while i < t.len() {
        if t[i] == byte {
            return i;
        }
        i += 1;
    }
    i
}

// Where a byte stands first from `at` on, or the end: eight bytes at a time, so that one branch decides for all of them.
pub fn first_byte(t: &[u8], at: usize, byte: u8) -> usize
    ensures { result ≡ first_byte t.now byte at }
{
    let mut i = at;
    while i < t.len() {
        if t.len() - i < 8 {
            return first_by_bytes(t, i, byte);
        }
        let marks = byte_marks(word_at(t, i), byte);
        if marks != 0 {
            return i + first_mark(marks);
        }
        i += 8;
    }
    i
}

// Where the name at `at` ends: its zero byte, or the end of the table.
pub fn end_of(t: &[u8], at: usize) -> usize
    ensures { result ≡ name_end t.now at }
{
    first_byte(t, at, 0)
}

// Where the name at `at` ends, of one that may be long: 64 bytes at a time as long as it goes on.
fn far_end(t: &[u8], at: usize) -> usize
    ensures { result ≡ name_end t.now at }
{
    let mut i = at;
    while i < t.len() {
        if t.len() - i < 64 {
            return end_of(t, i);
        }
        if has_zero(t, i, 64) {
            return end_of(t, i);
        }
        i += 64;
    }
    i
}

// The name at `at`, of one that may be long.
pub fn far_name<'a>(t: &'a [u8], at: usize) -> &'a [u8]
    ensures { result.now ≡ name_at t.now at }
{
    if at > t.len() {
        return &t[0..0];
    }
    let e = far_end(t, at);
    &t[at..e]
}

// The name at `at`, as a part of its table; empty where `at` lies past the end.
pub fn name_at<'a>(t: &'a [u8], at: usize) -> &'a [u8]
    ensures { result.now ≡ name_at t.now at }
{
    if at > t.len() {
        return &t[0..0];
    }
    let e = end_of(t, at);
    &t[at..e]
}

// The name at `at` of the compiled or the assembled object's string table, as a part of that table.
pub fn name_of<'a>(compiled: &'a [u8], assembled: &'a [u8], owner: Owner, at: usize) -> &'a [u8]
    ensures { result.now ≡ name_at (table_of owner compiled.now assembled.now) at }
{
    match owner {
        Owner::Compiled => name_at(compiled, at),
        Owner::Assembled => name_at(assembled, at),
    }
}

// One past the last zero byte of a table, 0 where there is none. A name has a zero end exactly where it starts below this
// (the crate base_lists, proofs/Strings.antt, `has_end_past`), so one pass over a table answers for all its names.
pub fn past_last_zero(t: &[u8]) -> usize
    ensures { result ≡ past_last (zero_at t.now) (length t.now) }
{
    for i in (0..t.len()).rev() {
        if t[i] == 0 {
            return i + 1;
        }
    }
    0
}

// Whether two byte strings have the same n bytes at `at`. All n are looked at, so that the compiler compares them at once.
fn is_same_part(a: &[u8], b: &[u8], at: usize, n: usize) -> bool
    requires { (at + n ≤ length a.now) × (at + n ≤ length b.now) }
    ensures { result ≡ same (take n (drop at a.now)) (take n (drop at b.now)) }
{
    let mut alike = true;
    for i in 0..n {
        if a[at + i] != b[at + i] {
            alike = false;
        }
    }
    alike
}

// Whether two byte strings of one length are equal, n bytes at a time. The last n are compared by themselves, some of them perhaps for a second time, so that no
// rest is left.
fn is_same_by(a: &[u8], b: &[u8], n: usize) -> bool
    requires { (length a.now ≡ length b.now) × (1 ≤ n) × (n ≤ length a.now) }
    ensures { result ≡ same a.now b.now }
{
    let last = a.len() - n;
    let mut i: usize = 0;
    while i < last {
        if is_same_part(a, b, i, n) {
            i += n;
        } else {
            return false;
        }
    }
    is_same_part(a, b, last, n)
}

// Whether two byte strings are equal: 8 bytes at a time where they have as many, else 4, else byte by byte.
pub fn same_bytes(a: &[u8], b: &[u8]) -> bool
    ensures { result ≡ same a.now b.now }
{
    let n = a.len();
    if n != b.len() {
        return false;
    }
    if 8 <= n {
        return is_same_by(a, b, 8);
    }
    if 4 <= n {
        return is_same_by(a, b, 4);
    }
    if 1 <= n {
        return is_same_by(a, b, 1);
    }
    true
}

// Whether a byte string begins with a prefix. Prefixes are short, so it goes byte by byte; the compiler compares with one that it knows at once.
pub fn has_prefix(s: &[u8], p: &[u8]) -> bool
    ensures { result ≡ prefixed p.now s.now }
{
    if s.len() < p.len() {
        return false;
    }
    for i in 0..p.len() {
        if s[i] != p[i] {
            return false;
        }
    }
    true
}

// Whether a part of a table is a front and a back.
fn is_joined(part: &[u8], front: &[u8], back: &[u8]) -> bool
    requires { length part.now ≡ length front.now + length back.now }
    ensures { result ≡ same part.now (front.now ++ back.now) }
{
    let n = front.len();
    if same_bytes(&part[0..n], front) {
        return same_bytes(&part[n..part.len()], back);
    }
    false
}

// Whether a byte string holds no zero byte, n bytes at a time; the last n are looked at by themselves, so that no rest is left.
fn is_zero_free_by(s: &[u8], n: usize) -> bool
    requires { (1 ≤ n) × (n ≤ length s.now) }
    ensures { result ≡ eqb (name_end s.now 0) (length s.now) }
{
    let last = s.len() - n;
    let mut i: usize = 0;
    while i < last {
        if has_zero(s, i, n) {
            return false;
        }
        i += n;
    }
    if has_zero(s, last, n) {
        return false;
    }
    true
}

// Whether a byte string holds no zero byte, as many at a time as `same_bytes` compares.
fn is_zero_free(s: &[u8]) -> bool
    ensures { result ≡ eqb (name_end s.now 0) (length s.now) }
{
    let n = s.len();
    if 8 <= n {
        return is_zero_free_by(s, 8);
    }
    if 4 <= n {
        return is_zero_free_by(s, 4);
    }
    if 1 <= n {
        return is_zero_free_by(s, 1);
    }
    true
}

// Whether a part of a table is a front and a back and holds no zero byte.
fn is_whole(part: &[u8], front: &[u8], back: &[u8]) -> bool
    requires { length part.now ≡ length front.now + length back.now }
    ensures { result ≡ (same part.now (front.now ++ back.now) && eqb (name_end part.now 0) (length part.now)) }
{
    if is_joined(part, front, back) {
        return is_zero_free(part);
    }
    false
}

// Whether a byte other than zero stands at `at`.
fn goes_on(t: &[u8], at: usize) -> bool
    ensures { result ≡ not (zero_at t.now at) }
{
    if at >= t.len() {
        return false;
    }
    t[at] != 0
}

// Whether the name at `at` is a front and a back: the table has them there, without a zero byte and with one behind them. It reads no more than their bytes, so a
// long name costs nothing where a short one is asked for.
pub fn name_joined(t: &[u8], at: usize, front: &[u8], back: &[u8]) -> bool
    ensures { result ≡ same (name_at t.now at) (front.now ++ back.now) }
{
    let n = front.len() + back.len();
    if at > t.len() {
        return n == 0;
    }
    if t.len() - at < n {
        return false;
    }
    let end = at + n;
    if goes_on(t, end) {
        return false;
    }
    is_whole(&t[at..end], front, back)
}

// Whether a table has another byte where the last one of a string would stand, were the string at `at`. The labels of an object begin alike and end apart, so this
// is asked before they are compared.
fn ends_apart(t: &[u8], at: usize, s: &[u8]) -> bool
    ensures { result ≡ ends_apart t.now at s.now }
{
    let n = s.len();
    if n == 0 {
        return false;
    }
    if at >= t.len() {
        return false;
    }
    if t.len() - at < n {
        return false;
    }
    t[at + (n - 1)] != s[n - 1]
}

// Whether the name at `at` is a given byte string.
pub fn name_is(t: &[u8], at: usize, s: &[u8]) -> bool
    ensures { result ≡ same (name_at t.now at) s.now }
{
    if ends_apart(t, at, s) {
        return false;
    }
    name_joined(t, at, s, b"")
}

// Whether no byte is over 127.
pub fn is_ascii(s: &[u8]) -> bool
    ensures { result ≡ ascii s.now }
{
    s.iter().all(|b| *b <= 127)
}
