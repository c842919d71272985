// The lines of a block file: where they end, what their keys are and which value may stand behind each. Every function equals its definition in specs/.
#![tactic(auto)]

ghost use Rattle.std.specs.Prelude.{◌≡◌, true, ◌≤◌, ◌<◌, length};
ghost use Rattle.base_lists.specs.Strings.{prefixed};
ghost use Rattle.blocks_lines.specs.Lines.{line_end, line, line_number};
ghost use Rattle.blocks_lines.specs.Keys.{KEYS, key_name, repeats, value_sound, is_key_line, value_at};
ghost use Rattle.blocks_lines.specs.After.{line_after};

// How many keys there are, and which are those behind the sections' (whose indices are the section codes).
pub const KEYS: u32 = 11;

pub const KEY_GLABEL: u32 = 5;

pub const KEY_DUMMY: u32 = 6;

pub const KEY_JTBL: u32 = 7;

pub const KEY_ASM: u32 = 8;

pub const KEY_LATE: u32 = 9;

// Where the line at `at` ends: its LF, or the end of the file.
pub fn line_end(file: &[u8], at: usize) -> usize
    ensures { result ≡ line_end file.now at }
{
    base_names::first_byte(file, at, 10)
}

// The line at `at` as a part of the file; empty where `at` lies past the end.
pub fn line_at<'a>(file: &'a [u8], at: usize) -> &'a [u8]
    ensures { result.now ≡ line file.now at }
{
    if at > file.len() {
        return &file[0..0];
    }
    let e = line_end(file, at);
    &file[at..e]
}

// The number of the line at `at`, from 1.
pub fn line_number(file: &[u8], at: usize) -> usize
    requires { at ≤ length file.now }
    ensures { result ≡ line_number file.now at }
{
    let mut n: usize = 1;
    for i in 0..at {
        if file[i] == 10 {
            n += 1;
        }
    }
    n
}

// Whether a line, or the file from a line on, begins with key k.
fn has_key(k: u32, line: &[u8]) -> bool
    requires { k < KEYS }
    ensures { result ≡ prefixed (key_name k) line.now }
{
    match k {
        0 => base_names::has_prefix(line, b"desc="),
        1 => base_names::has_prefix(line, b"text="),
        2 => base_names::has_prefix(line, b"data="),
        3 => base_names::has_prefix(line, b"rodata="),
        4 => base_names::has_prefix(line, b"bss="),
        5 => base_names::has_prefix(line, b"glabel="),
        6 => base_names::has_prefix(line, b"dummy="),
        7 => base_names::has_prefix(line, b"jtbl="),
        8 => base_names::has_prefix(line, b"asm="),
        9 => base_names::has_prefix(line, b"late="),
        _ => base_names::has_prefix(line, b"end="),
    }
}

// How many bytes key k has.
pub fn key_length(k: u32) -> usize
    requires { k < KEYS }
    ensures { result ≡ length (key_name k) }
{
    match k {
        0 => 5,
        1 => 5,
        2 => 5,
        3 => 7,
        4 => 4,
        5 => 7,
        6 => 6,
        7 => 5,
        8 => 4,
        9 => 5,
        _ => 4,
    }
}

// Whether key k may stand any number of times.
pub fn is_repeated(k: u32) -> bool
    requires { k < KEYS }
    ensures { result ≡ repeats k }
{
    match k {
        5 | 6 | 8 | 9 => true,
        _ => false,
    }
}

// Whether v may stand behind key k.
fn is_value_sound(k: u32, v: &[u8]) -> bool
    requires { k < KEYS }
    ensures { result ≡ value_sound k v.now }
{
    match k {
        1 | 2 | 3 | 4 => blocks_values::is_line_sound(v),
        5 => blocks_values::is_label_sound(v),
        6 => blocks_values::is_dummy_sound(v),
        7 => blocks_values::is_number_sound(base_scope::NUMBER_LIMIT, v),
        10 => v.len() == 0,
        _ => true,
    }
}

// Where the line behind the one at `at` starts, if a whole line with key k and a sound value stands there; else 0. Most lines are not of the key that is asked for,
// so the key comes first; it has no LF, so the line's end is looked for behind it.
pub fn line_after(file: &[u8], k: u32, at: usize) -> usize
    requires { k < KEYS }
    ensures { result ≡ line_after file.now k at }
{
    if at >= file.len() {
        return 0;
    }
    if has_key(k, &file[at..]) {
        let from = at + key_length(k);
        let e = line_end(file, from);
        if e < file.len() {
            if is_value_sound(k, &file[from..e]) {
                return e + 1;
            }
        }
    }
    0
}

// Whether a whole line with key k and a sound value stands at `at`.
pub fn is_key_line(file: &[u8], k: u32, at: usize) -> bool
    requires { k < KEYS }
    ensures { result ≡ is_key_line file.now k at }
{
    0 < line_after(file, k, at)
}

// What stands behind key k in the line at `at`, as a part of the block file.
pub fn value_at<'a>(file: &'a [u8], k: u32, at: usize) -> &'a [u8]
    requires { (k < KEYS) × (is_key_line file.now k at ≡ true) }
    ensures { result.now ≡ value_at file.now k at }
{
    let line = line_at(file, at);
    let n = key_length(k);
    &line[n..]
}
