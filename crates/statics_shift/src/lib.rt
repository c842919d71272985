// The shift of a debug section that moves: eleven offset words of its symbolic header, and the test that it has one. Each function equals its definition in
// specs/Shift.antt; a word moves by `base_packed::shifted_offset`, a wrapping subtract and a wrapping add.
#![tactic(auto)]

ghost use Rattle.std.specs.Prelude.{◌≡◌, ◌≤◌, ◌<◌, length};
ghost use Rattle.statics_shift.specs.Shift.{HEADER_SIZE, HEADER_WORDS, is_offset, moves, moved_word, moved_words, moved_debug, has_header, shift_fails};

use base_fields::ByteOrder;
use elf_records::Hdrr;

pub const MAGIC: u32 = 0x7009;

// Whether word i of the header is the offset of a pair.
fn is_offset(i: usize) -> bool
    ensures { result ≡ is_offset i }
{
    base_scope::both(2 <= i, i % 2 == 0)
}

// Whether word i is an offset whose count is not zero.
fn is_moved(words: &[u32], i: usize) -> bool
    requires { (length words.now ≡ HEADER_WORDS) × (i < HEADER_WORDS) }
    ensures { result ≡ moves words.now i }
{
    if is_offset(i) {
        return words[i - 1] != 0;
    }
    false
}

// Word i of the header after a move.
fn moved_word(words: &[u32], old: u32, new: u32, i: usize) -> u32
    requires { (length words.now ≡ HEADER_WORDS) × (i < HEADER_WORDS) }
    ensures { result ≡ moved_word words.now old new i }
{
    if is_moved(words, i) {
        return base_packed::shifted_offset(words[i], old, new);
    }
    words[i]
}

// The words of a header after a move.
fn moved_words(h: Hdrr, old: u32, new: u32) -> [u32; 23]
    ensures { result ≡ moved_words h.words old new }
{
    let words = h.words;
    let mut moved = [0u32; 23];
    for i in 0..23 {
        moved[i] = moved_word(&words, old, new, i);
    }
    moved
}

// Whether the bytes of a debug section hold a symbolic header.
pub fn has_header(order: ByteOrder, debug: &[u8]) -> bool
    ensures { result ≡ has_header order debug.now }
{
    if debug.len() < Hdrr::SIZE {
        return false;
    }
    base_fields::read16(order, debug, 0) == MAGIC
}

// Whether a section of this type that moves from `old` to `new` is refused by 17.
pub fn shift_fails(order: ByteOrder, debug: &[u8], kind: u32, old: u32, new: u32) -> bool
    ensures { result ≡ shift_fails order debug.now kind old new }
{
    if kind != base_scope::SHT_MIPS_DEBUG {
        return false;
    }
    if old == new {
        return false;
    }
    !has_header(order, debug)
}

// Moves the header at the start of the bytes of a debug section.
pub fn move_debug(order: ByteOrder, debug: &mut [u8], old: u32, new: u32)
    requires { HEADER_SIZE ≤ length debug.old }
    ensures { debug.new ≡ moved_debug order debug.old old new }
{
    let h = Hdrr::new(order, debug, 0);
    let words = moved_words(h, old, new);
    base_fields::write_words(order, debug, 4, &words);
}
