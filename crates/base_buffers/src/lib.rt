// Buffers that are lent to a call: they are zeroed, whole or from a place on, and hold tables one behind the other.
#![tactic(auto)]

ghost use Rattle.std.specs.Prelude.{◌≡◌, false, ℕ, ◌+◌, ◌≤◌, ◌<◌, length, get_or};
ghost use Rattle.base_lists.specs.Windows.{spliced};
ghost use Rattle.base_buffers.specs.Buffers.{zeros, zeroed_from};
ghost use Rattle.base_buffers.specs.Parts.{part_at};

// How many bytes are looked at before they are zeroed.
const STRETCH: usize = 4096;

// And how many of them first.
const FRONT: usize = 128;

// The greater of two bytes.
fn greater(a: u8, b: u8) -> u8
    ensures { (a ≤ result) × (b ≤ result) }
{
    if a < b {
        return b;
    }
    a
}

// The last of the n bytes at `at`; 0 where there is none.
fn last_of(s: &[u8], at: usize, n: usize) -> u8
    requires { at + n ≤ length s.now }
    ensures { (j : ℕ) → j < n → n ≤ j + 1 → get_or s.now (at + j) 0 ≤ result }
{
    if 0 < n {
        return s[at + n - 1];
    }
    0
}

// A byte that none of the n bytes at `at` passes; it is 0 where all of them are. All n are looked at, and both halves in one turn, so that the compiler compares many at once.
fn greatest(s: &[u8], at: usize, n: usize) -> u8
    requires { at + n ≤ length s.now }
    ensures { (j : ℕ) → j < n → get_or s.now (at + j) 0 ≤ result }
{
    let half = n / 2;
    let mut front: u8 = 0;
    let mut back: u8 = 0;
    for i in 0..half {
        front = greater(front, s[at + i]);
        back = greater(back, s[at + half + i]);
    }
    greater(greater(front, back), last_of(s, at, n))
}

// Writes zeros over a buffer.
fn clear(s: &mut [u8])
    ensures { s.new ≡ zeros (length s.old) }
{
    for i in 0..s.len() {
        s[i] = 0;
    }
}

// Whether some of the n bytes at `at` may have to be zeroed: the first few are looked at before all of them, since a part that is used mostly shows it there.
fn is_used(s: &[u8], at: usize, n: usize) -> bool
    requires { at + n ≤ length s.now }
    ensures { result ≡ false → (j : ℕ) → j < n → get_or s.now (at + j) 0 ≤ 0 }
{
    if FRONT < n {
        if greatest(s, at, FRONT) > 0 {
            return true;
        }
    }
    greatest(s, at, n) > 0
}

// Zeroes the n bytes at `at`. Where they are zero nothing is written: most of a buffer is never used, and reading is quicker than writing.
fn zero_part(s: &mut [u8], at: usize, n: usize)
    requires { at + n ≤ length s.old }
    ensures { s.new ≡ spliced s.old at (zeros n) }
{
    if is_used(s, at, n) {
        let end = at + n;
        clear(&mut s[at..end]);
    }
}

// As many bytes as are zeroed at a time, of those that are left.
fn stretch_of(left: usize) -> usize
    requires { 0 < left }
    ensures { (0 < result) × (result ≤ left) }
{
    if left < STRETCH {
        return left;
    }
    STRETCH
}

// Zeroes a buffer.
pub fn zero(s: &mut [u8])
    ensures { s.new ≡ zeros (length s.old) }
{
    let mut i: usize = 0;
    while i < s.len() {
        let n = stretch_of(s.len() - i);
        zero_part(s, i, n);
        i += n;
    }
}

// Zeroes a buffer from `at` on.
pub fn zero_from(s: &mut [u8], at: usize)
    requires { at ≤ length s.old }
    ensures { s.new ≡ zeroed_from s.old at }
{
    zero(&mut s[at..]);
}

// A table of a buffer, to be read.
pub fn part<'a>(buffer: &'a [u8], at: usize, size: usize) -> &'a [u8]
    requires { at + size ≤ length buffer.now }
    ensures { result.now ≡ part_at at size buffer.now }
{
    let end = at + size;
    &buffer[at..end]
}

// Where a table that is to be written starts or ends: a number with a name, since a proof would count a part out that starts at a literal.
pub fn bound(at: usize) -> usize
    ensures { result ≡ at }
{
    at
}
