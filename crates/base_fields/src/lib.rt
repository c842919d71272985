// Fields of 8, 16, 24 and 32 bits in a byte slice: read and written, in a byte order that is a parameter. Each equals `number` or `encoded` of
// specs/Numbers.antt; a write leaves every byte outside its field as it was.
#![tactic(auto)]

ghost use Rattle.std.specs.Prelude.{◌≡◌, [], ◌∷◌, ℕ, ◌+◌, ◌*◌, ◌≤◌, ◌<◌, length, get_or};
ghost use Rattle.base_lists.specs.Windows.{spliced};
ghost use Rattle.base_lists.specs.Records.{flat};
ghost use Rattle.base_fields.specs.Numbers.{number, encoded};

// EI_DATA of an object: ELFDATA2MSB (2) or ELFDATA2LSB (1). Document 01 accepts only the first.
#[derive(Clone, Copy)]
pub enum ByteOrder {
    Big,
    Little,
}

// A byte, at u32: callers need no fact about the cast.
pub fn wide(b: u8) -> u32
    ensures { (result ≡ b) × (result < 256) }
{
    b as u32
}

// Two bytes, the most significant first.
fn join2(a: u8, b: u8) -> u32
    ensures { (result ≡ a * 256 + b) × (result < 65536) }
{
    wide(a) * 256 + wide(b)
}

// Three bytes, the most significant first.
fn join3(a: u8, b: u8, c: u8) -> u32
    ensures { (result ≡ a * 65536 + b * 256 + c) × (result < 16777216) }
{
    wide(a) * 65536 + wide(b) * 256 + wide(c)
}

// Four bytes, the most significant first.
fn join4(a: u8, b: u8, c: u8, d: u8) -> u32
    ensures { result ≡ a * 16777216 + b * 65536 + c * 256 + d }
{
    wide(a) * 16777216 + wide(b) * 65536 + wide(c) * 256 + wide(d)
}

// The byte at `at`: it is `number order 1` in every order (proofs/Numbers.antt, `number_byte`).
pub fn read8(s: &[u8], at: usize) -> u8
    requires { at + 1 ≤ length s.now }
    ensures { result ≡ get_or s.now at 0 }
{
    s[at]
}

// The number in the two bytes at `at`.
pub fn read16(order: ByteOrder, s: &[u8], at: usize) -> u32
    requires { at + 2 ≤ length s.now }
    ensures { (result ≡ number order 2 s.now at) × (result < 65536) }
{
    match order {
        ByteOrder::Big => join2(s[at], s[at + 1]),
        ByteOrder::Little => join2(s[at + 1], s[at]),
    }
}

// The number in the three bytes at `at`.
pub fn read24(order: ByteOrder, s: &[u8], at: usize) -> u32
    requires { at + 3 ≤ length s.now }
    ensures { (result ≡ number order 3 s.now at) × (result < 16777216) }
{
    match order {
        ByteOrder::Big => join3(s[at], s[at + 1], s[at + 2]),
        ByteOrder::Little => join3(s[at + 2], s[at + 1], s[at]),
    }
}

// The number in the four bytes at `at`.
pub fn read32(order: ByteOrder, s: &[u8], at: usize) -> u32
    requires { at + 4 ≤ length s.now }
    ensures { result ≡ number order 4 s.now at }
{
    match order {
        ByteOrder::Big => join4(s[at], s[at + 1], s[at + 2], s[at + 3]),
        ByteOrder::Little => join4(s[at + 3], s[at + 2], s[at + 1], s[at]),
    }
}

// Stores a byte: it is `encoded order 1` in every order (proofs/Numbers.antt, `encoded_byte`).
pub fn write8(s: &mut [u8], at: usize, x: u8)
    requires { at + 1 ≤ length s.old }
    ensures { s.new ≡ spliced s.old at (x ∷ []) }
{
    s[at] = x;
}

// Stores two bytes in order.
fn store2(s: &mut [u8], at: usize, a: u8, b: u8)
    requires { at + 2 ≤ length s.old }
    ensures { s.new ≡ spliced s.old at (a ∷ b ∷ []) }
{
    s[at] = a;
    s[at + 1] = b;
}

// Stores three bytes in order.
fn store3(s: &mut [u8], at: usize, a: u8, b: u8, c: u8)
    requires { at + 3 ≤ length s.old }
    ensures { s.new ≡ spliced s.old at (a ∷ b ∷ c ∷ []) }
{
    s[at] = a;
    s[at + 1] = b;
    s[at + 2] = c;
}

// Stores four bytes in order.
fn store4(s: &mut [u8], at: usize, a: u8, b: u8, c: u8, d: u8)
    requires { at + 4 ≤ length s.old }
    ensures { s.new ≡ spliced s.old at (a ∷ b ∷ c ∷ d ∷ []) }
{
    s[at] = a;
    s[at + 1] = b;
    s[at + 2] = c;
    s[at + 3] = d;
}

// Writes a number below 2 ^ 16 into the two bytes at `at`.
pub fn write16(order: ByteOrder, s: &mut [u8], at: usize, x: u32)
    requires { (at + 2 ≤ length s.old) × (x < 65536) }
    ensures { s.new ≡ spliced s.old at (encoded order 2 x) }
{
    let high = (x / 256) as u8;
    let low = (x % 256) as u8;
    match order {
        ByteOrder::Big => store2(s, at, high, low),
        ByteOrder::Little => store2(s, at, low, high),
    }
}

// Writes a number below 2 ^ 24 into the three bytes at `at`.
pub fn write24(order: ByteOrder, s: &mut [u8], at: usize, x: u32)
    requires { (at + 3 ≤ length s.old) × (x < 16777216) }
    ensures { s.new ≡ spliced s.old at (encoded order 3 x) }
{
    let high = (x / 65536) as u8;
    let middle = (x / 256 % 256) as u8;
    let low = (x % 256) as u8;
    match order {
        ByteOrder::Big => store3(s, at, high, middle, low),
        ByteOrder::Little => store3(s, at, low, middle, high),
    }
}

// Writes a number into the four bytes at `at`.
pub fn write32(order: ByteOrder, s: &mut [u8], at: usize, x: u32)
    requires { at + 4 ≤ length s.old }
    ensures { s.new ≡ spliced s.old at (encoded order 4 x) }
{
    let a = (x / 16777216) as u8;
    let b = (x / 65536 % 256) as u8;
    let c = (x / 256 % 256) as u8;
    let d = (x % 256) as u8;
    match order {
        ByteOrder::Big => store4(s, at, a, b, c, d),
        ByteOrder::Little => store4(s, at, d, c, b, a),
    }
}

// Copies bytes into a slice.
pub fn write_bytes(s: &mut [u8], at: usize, bytes: &[u8])
    requires { at + length bytes.now ≤ length s.old }
    ensures { s.new ≡ spliced s.old at bytes.now }
{
    for i in 0..bytes.len() {
        s[at + i] = bytes[i];
    }
}

// Writes numbers, four bytes each, one behind the other.
pub fn write_words(order: ByteOrder, s: &mut [u8], at: usize, words: &[u32])
    requires { at + 4 * length words.now ≤ length s.old }
    ensures { s.new ≡ spliced s.old at (flat (encoded order 4) words.now) }
{
    for i in 0..words.len() {
        write32(order, s, at + 4 * i, words[i]);
    }
}

// Writes numbers below 2 ^ 16, two bytes each, one behind the other.
pub fn write_halves(order: ByteOrder, s: &mut [u8], at: usize, halves: &[u32])
    requires { (at + 2 * length halves.now ≤ length s.old) × ((i : ℕ) → i < length halves.now → get_or halves.now i 0 < 65536) }
    ensures { s.new ≡ spliced s.old at (flat (encoded order 2) halves.now) }
{
    for i in 0..halves.len() {
        write16(order, s, at + 2 * i, halves[i]);
    }
}
