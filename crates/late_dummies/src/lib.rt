// Dummies in .rodata (document 01, "Late words"): the search for one, at any byte of the part that it is given, and the place of its late word. Each function
// equals its definition in specs/.
#![tactic(auto)]

ghost use Rattle.std.specs.Prelude.{◌≡◌, ◌+◌, ◌≤◌, length};
ghost use Rattle.late_dummies.specs.Dummies.{word_at, found};
ghost use Rattle.late_dummies.specs.Spots.{shift_spot, spot};

use base_fields::ByteOrder;

// Whether the four bytes at `at` are the word.
pub fn is_word_at(order: ByteOrder, part: &[u8], word: u32, at: usize) -> bool
    requires { at + 4 ≤ length part.now }
    ensures { result ≡ word_at order part.now word at }
{
    base_fields::read32(order, part, at) == word
}

// Where the word stands first in a part of .rodata; where it stands nowhere, fewer than four bytes stand behind the answer.
pub fn find_dummy(order: ByteOrder, part: &[u8], word: u32) -> usize
    ensures { (result ≡ found order part.now 0 word) × (result ≤ length part.now) }
{
    let mut i: usize = 0;
    while part.len() - i >= 4 {
        if is_word_at(order, part, word, i) {
            return i;
        }
        i += 1;
    }
    i
}

// The shift test of the first of two or more dummies, which was found at `at`: its place, or none, which is refusal 14.
fn shift_dummy(order: ByteOrder, rodata: &[u8], at: usize) -> Option<usize>
    requires { at ≤ length rodata.now }
    ensures { result ≡ shift_spot order rodata.now at }
{
    if rodata.len() - at < 8 {
        return None;
    }
    if is_word_at(order, rodata, 0, at + 4) {
        return Some(at + 4);
    }
    Some(at)
}

// The place of a dummy's late word, or none, which is refusal 14; `many` says that it is the first of two or more in its block, `last` is the last place before it.
pub fn place_dummy(
    order: ByteOrder,
    rodata: &[u8],
    many: bool,
    last: usize,
    word: u32,
) -> Option<usize>
    requires { last ≤ length rodata.now }
    ensures { result ≡ spot order rodata.now many last word }
{
    let at = last + find_dummy(order, &rodata[last..], word);
    if rodata.len() - at < 4 {
        return None;
    }
    if many {
        return shift_dummy(order, rodata, at);
    }
    Some(at)
}
