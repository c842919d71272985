// An index of items by a hash each, in a lent table: the first item that passes a test which implies a hash is found among the few of the hash's bucket. A caller puts
// a hash for each item, builds, and walks from `head_of` on by `next_of`; proofs/Index.antt has the laws of that walk. Definitions and layout: specs/Index.antt.
#![tactic(auto)]

ghost use Rattle.std.specs.Prelude.{◌≡◌, ◌+◌, ◌-◌, ◌*◌, ◌/◌, ◌%◌, ◌^◌, ◌<◌, ◌≤◌, min, ◌++◌, length, take};
ghost use Rattle.base_lists.specs.Strings.{name_at};
ghost use Rattle.base_lists.specs.Windows.{spliced};
ghost use Rattle.base_fields.specs.declared.ByteOrder.TheVariants.{Big};
ghost use Rattle.base_fields.specs.Numbers.{encoded};
ghost use Rattle.base_names.specs.Words.{word_at};
ghost use Rattle.base_index.specs.Index.{BUCKETS, ITEM_LIMIT, HASH_BYTES, ROUND, mixed, spread, hash_of, buckets_of, bucket_of, hash_place, next_place, head_place, Room, hash_in, next_in, head_in, Built, Emptied, linked};

use base_fields::ByteOrder;

pub const BUCKETS: usize = 4096;

// How many bytes of a string take part in its hash.
pub const HASH_BYTES: usize = 2048;

// What words are summed up by.
const ROUND: u64 = 18446744073709551615;

// A sum of two words: what does not fit into a word comes back as 1.
fn plus(a: u64, b: u64) -> u64
    ensures { result % ROUND ≡ (a + b) % ROUND }
{
    let sum = std::num::wrapping_add_u64(a, b);
    if sum < a {
        return sum + 1;
    }
    sum
}

// A sum n bytes further up: what does not fit into a word comes back below.
fn turn(h: u64, n: usize) -> u64
    requires { n < 8 }
    ensures { result % ROUND ≡ (256 ^ n * h) % ROUND }
{
    (h << (8 * n)) + (h >> (56 - 8 * n) >> 8)
}

// Fewer than eight bytes, as the number that they make, before a sum.
fn mix_part(part: u64, n: usize, h: u64) -> u64
    requires { n < 8 }
    ensures { result % ROUND ≡ (part + 256 ^ n * h) % ROUND }
{
    plus(part, turn(h, n))
}

// A byte before a sum.
pub fn mix(b: u8, h: u64) -> u64
    ensures { result % ROUND ≡ (b + 256 * h) % ROUND }
{
    mix_part(b as u64, 1, h)
}

// The number of a string of fewer than four bytes, byte by byte.
fn part_by_bytes(s: &[u8]) -> u64
    requires { length s.now < 4 }
    ensures { result ≡ word_at s.now 0 (length s.now) }
{
    let mut part: u64 = 0;
    for i in (0..s.len()).rev() {
        part = part * 256 + s[i] as u64;
    }
    part
}

// The number of a string of four bytes or more, fewer than eight: its first four, and above them the others, the last ones of its last four.
fn part_by_fours(s: &[u8]) -> u64
    requires { (4 ≤ length s.now) × (length s.now < 8) }
    ensures { result ≡ word_at s.now 0 (length s.now) }
{
    let n = s.len();
    let first = base_fields::read32(ByteOrder::Little, s, 0) as u64;
    let last = base_fields::read32(ByteOrder::Little, s, n - 4) as u64;
    first + (last >> (8 * (8 - n))) * 4294967296
}

// The number of the bytes that words of eight leave of a string: the last ones of its last eight, where it has as many.
fn last_part(s: &[u8]) -> u64
    ensures { result ≡ word_at s.now (length s.now / 8 * 8) (length s.now % 8) }
{
    let n = s.len();
    if n < 4 {
        return part_by_bytes(s);
    }
    if n < 8 {
        return part_by_fours(s);
    }
    base_names::word_at(s, n - 8) >> (56 - 8 * (n % 8)) >> 8
}

// A string before a sum, from its last bytes to its first: a word more does not turn it.
fn mix_string(s: &[u8], h: u64) -> u64
    ensures { result % ROUND ≡ mixed s.now h }
{
    let n = s.len();
    let mut g = mix_part(last_part(s), n % 8, h);
    for i in (0..n / 8).rev() {
        g = plus(base_names::word_at(s, i * 8), g);
    }
    g
}

// The lesser of two lengths.
fn shorter(a: usize, b: usize) -> usize
    ensures { result ≡ min a b }
{
    if a < b {
        return a;
    }
    b
}

// The first `room` bytes of a string before a sum: a string in parts is hashed from its last part to its first (proofs/Hashes.antt, `hash_parts`).
pub fn hash_before(s: &[u8], room: usize, h: u64) -> u64
    ensures { result % ROUND ≡ mixed (take room s.now) h }
{
    let end = shorter(room, s.len());
    mix_string(&s[0..end], h)
}

// A sum as sixteen bits.
fn spread(x: u64) -> u64
    ensures { result ≡ spread x }
{
    (x % 4294967296 * 666958599 + x / 4294967296 * 1988613485) / 16777216 % 65536
}

// The hash of a string of n bytes, of which the first ones are summed up.
pub fn hash_end(h: u64, n: usize) -> u32
    ensures { result ≡ (spread (h % ROUND) + n) % 2 ^ 16 }
{
    ((spread(h % ROUND) % 65536 + n as u64 % 65536) % 65536) as u32
}

// The hash of a string.
pub fn hash_of(s: &[u8]) -> u32
    ensures { result ≡ hash_of s.now }
{
    hash_end(hash_before(s, HASH_BYTES, 0), s.len())
}

// How many bytes of a string are hashed behind its first n.
pub fn room_behind(n: usize) -> usize
    ensures { result ≡ HASH_BYTES - n }
{
    if n < HASH_BYTES {
        return HASH_BYTES - n;
    }
    0
}

// The hash of a string in two parts.
pub fn hash_joined(front: &[u8], back: &[u8]) -> u32
    ensures { result ≡ hash_of (front.now ++ back.now) }
{
    let h = hash_before(back, room_behind(front.len()), 0);
    hash_end(hash_before(front, HASH_BYTES, h), front.len() + back.len())
}

// The first n bytes of a word.
fn low_part(word: u64, n: usize) -> u64
    requires { n < 8 }
    ensures { result ≡ word % 256 ^ n }
{
    let one: u64 = 1;
    word & ((one << (8 * n)) - 1)
}

// The hash of the name at `at` of a table, whose end is looked for first; it may be far.
fn late_hash(t: &[u8], at: usize) -> u32
    ensures { result ≡ hash_of (name_at t.now at) }
{
    hash_of(base_names::far_name(t, at))
}

// The hash of the name at `at` of a table, whose end is looked for in the words that are hashed; a long name, or one near the end of the table, is looked for first.
pub fn name_hash(t: &[u8], at: usize) -> u32
    ensures { result ≡ hash_of (name_at t.now at) }
{
    if at > t.len() {
        return late_hash(t, at);
    }
    let room = shorter(HASH_BYTES, t.len() - at);
    let mut sum: u64 = 0;
    for k in 0..room / 8 {
        let i = k * 8;
        let word = base_names::word_at(t, at + i);
        let marks = base_names::byte_marks(word, 0);
        if marks != 0 {
            let n = base_names::first_mark(marks);
            return hash_end(plus(sum, low_part(word, n)), i + n);
        }
        sum = plus(sum, word);
    }
    late_hash(t, at)
}

// How many buckets n items have.
fn buckets_of(n: usize) -> usize
    ensures { (result ≡ buckets_of n) × (1 ≤ result) × (result ≤ BUCKETS) }
{
    if n < 64 {
        return 64;
    }
    if n < 1024 {
        return 1024;
    }
    BUCKETS
}

// The bucket of a hash, among those of n items.
fn bucket_of(n: usize, h: u32) -> usize
    ensures { (result ≡ bucket_of n h) × (result < BUCKETS) }
{
    if n < 64 {
        return h as usize % 64;
    }
    if n < 1024 {
        return h as usize % 1024;
    }
    h as usize % BUCKETS
}

// Where the next of item k stands.
fn next_place(cap: usize, k: usize) -> usize
    requires { (cap ≤ ITEM_LIMIT) × (k < cap) }
    ensures { result ≡ next_place cap k }
{
    2 * cap + 2 * k
}

// Where the head of bucket b stands.
fn head_place(cap: usize, b: usize) -> usize
    requires { (cap ≤ ITEM_LIMIT) × (b < BUCKETS) }
    ensures { result ≡ head_place cap b }
{
    4 * cap + 2 * b
}

// Puts the hash of item k.
pub fn put_hash(table: &mut [u8], k: usize, h: u32)
    requires { (hash_place k + 2 ≤ length table.old) × (h < 2 ^ 16) }
    ensures { table.new ≡ spliced table.old (hash_place k) (encoded Big 2 h) }
{
    base_fields::write16(ByteOrder::Big, table, 2 * k, h);
}

// The hash of item k.
pub fn hash_at(table: &[u8], k: usize) -> u32
    requires { hash_place k + 2 ≤ length table.now }
    ensures { result ≡ hash_in table.now k }
{
    base_fields::read16(ByteOrder::Big, table, 2 * k)
}

// The first of n items in a hash's bucket.
pub fn head_of(table: &[u8], cap: usize, n: usize, h: u32) -> usize
    requires { Room cap table.now }
    ensures { (result ≡ head_in cap table.now (bucket_of n h)) × (result < 2 ^ 16) }
{
    base_fields::read16(ByteOrder::Big, table, head_place(cap, bucket_of(n, h))) as usize
}

// The next item of item k's bucket.
pub fn next_of(table: &[u8], cap: usize, k: usize) -> usize
    requires { Room cap table.now × (k < cap) }
    ensures { (result ≡ next_in cap table.now k) × (result < 2 ^ 16) }
{
    base_fields::read16(ByteOrder::Big, table, next_place(cap, k)) as usize
}

// Empties every bucket of an index of n items.
fn empty_heads(table: &mut [u8], cap: usize, n: usize)
    requires { Room cap table.old × (n ≤ cap) }
    ensures { Emptied cap n (buckets_of n) table.old table.new }
{
    let most = buckets_of(n);
    for b in 0..most {
        base_fields::write16(ByteOrder::Big, table, head_place(cap, b), n as u32);
    }
}

// Puts item j of n in front of its bucket.
fn link(table: &mut [u8], cap: usize, n: usize, j: usize)
    requires { Room cap table.old × (j < cap) }
    ensures { table.new ≡ linked cap n table.old j }
{
    let h = hash_at(table, j);
    let next = head_of(table, cap, n, h) as u32;
    base_fields::write16(ByteOrder::Big, table, next_place(cap, j), next);
    base_fields::write16(
        ByteOrder::Big,
        table,
        head_place(cap, bucket_of(n, h)),
        j as u32,
    );
}

// Builds the index of the first n items from their hashes: from the last item to the first, so that each bucket comes in order.
pub fn build(table: &mut [u8], cap: usize, n: usize)
    requires { Room cap table.old × (n ≤ cap) }
    ensures { Built cap n table.old table.new }
{
    empty_heads(table, cap, n);
    for j in (0..n).rev() {
        link(table, cap, n, j);
    }
}
