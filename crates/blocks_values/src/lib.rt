// The values behind the keys of a block file: numbers in digits, labels, `label size align8`, hex digits. Every function equals its definition in specs/.
#![tactic(auto)]

ghost use Rattle.std.specs.Prelude.{◌≡◌, true, ◌&&◌, ◌+◌, ◌≤◌, ◌<◌, length, drop};
ghost use Rattle.base_scope.specs.Limits.{NUMBER_LIMIT, ALIGN8_LIMIT};
ghost use Rattle.base_text.specs.Decimals.{decimal};
ghost use Rattle.blocks_values.specs.Values.{every, is_digit, is_hex_digit, is_number, number_sound, space_in, label_sound, label_in, after_label, size_in, span_sound, line_sound, dummy_sound};
ghost use Rattle.blocks_values.specs.Parts.{line_parts};

// What `label size align8` says: how many bytes its label has, and its two numbers.
#[derive(Clone, Copy)]
pub struct LineParts {
    pub label: usize,
    pub size: usize,
    pub align8: usize,
}

fn is_digit(x: u8) -> bool
    ensures { result ≡ is_digit x }
{
    base_scope::both(48 <= x, x <= 57)
}

fn is_hex_digit(x: u8) -> bool
    ensures { result ≡ is_hex_digit x }
{
    if is_digit(x) {
        return true;
    }
    base_scope::both(97 <= x, x <= 102)
}

// Whether every byte is a decimal digit.
fn are_digits(v: &[u8]) -> bool
    ensures { result ≡ every is_digit v.now }
{
    v.iter().all(|x| is_digit(*x))
}

// Whether every byte is a hex digit.
fn are_hex_digits(v: &[u8]) -> bool
    ensures { result ≡ every is_hex_digit v.now }
{
    v.iter().all(|x| is_hex_digit(*x))
}

// Whether v writes a number in digits, with no leading zero.
fn is_number(v: &[u8]) -> bool
    ensures { result ≡ is_number v.now }
{
    if v.len() == 0 {
        return false;
    }
    if v.len() == 1 {
        return are_digits(v);
    }
    base_scope::both(are_digits(v), v[0] != 48)
}

// The number of a byte.
fn byte_value(x: u8) -> usize
    ensures { (result ≡ x) × (result < 256) }
{
    x as usize
}

// The number that v writes in at most seven digits.
pub fn decimal_of(v: &[u8]) -> usize
    requires { (length v.now ≤ 7) × (every is_digit v.now ≡ true) }
    ensures { result ≡ decimal v.now }
{
    let mut n: usize = 0;
    for x in v {
        n = n * 10 + (byte_value(*x) - 48);
    }
    n
}

// Whether v writes a number up to a limit. More than seven digits write a number above every limit there is.
pub fn is_number_sound(limit: usize, v: &[u8]) -> bool
    requires { limit ≤ NUMBER_LIMIT }
    ensures { result ≡ number_sound limit v.now }
{
    if is_number(v) {
        if v.len() > 7 {
            return false;
        }
        return decimal_of(v) <= limit;
    }
    false
}

// The first space of v, or its length.
pub fn space_in(v: &[u8]) -> usize
    ensures { result ≡ space_in v.now }
{
    base_names::first_byte(v, 0, 32)
}

// The label of `label size align8`, as a part of it.
pub fn label_in<'a>(v: &'a [u8]) -> &'a [u8]
    ensures { result.now ≡ label_in v.now }
{
    let e = space_in(v);
    &v[0..e]
}

// What stands behind the space at e; nothing where e is the end.
fn behind<'a>(v: &'a [u8], e: usize) -> &'a [u8]
    requires { e ≤ length v.now }
    ensures { result.now ≡ drop (e + 1) v.now }
{
    if e == v.len() {
        return &v[e..];
    }
    &v[e + 1..]
}

// What stands behind the label and its space.
fn after_label<'a>(v: &'a [u8]) -> &'a [u8]
    ensures { result.now ≡ after_label v.now }
{
    behind(v, space_in(v))
}

// The digits of the size in `label size align8`.
pub fn size_in<'a>(v: &'a [u8]) -> &'a [u8]
    ensures { result.now ≡ size_in v.now }
{
    label_in(after_label(v))
}

// The parts of `label size align8`. Each of its spaces is looked for once.
pub fn line_parts(v: &[u8]) -> LineParts
    requires { span_sound v.now ≡ true }
    ensures { (result ≡ line_parts v.now) × (result.label ≤ length v.now) × (result.size ≤ NUMBER_LIMIT) }
{
    let e = space_in(v);
    let rest = behind(v, e);
    let f = space_in(rest);
    let size = decimal_of(&rest[0..f]);
    let align8 = decimal_of(behind(rest, f));
    LineParts {
        label: e,
        size,
        align8,
    }
}

// Whether v is `size align8`.
fn are_numbers_sound(v: &[u8]) -> bool
    ensures { result ≡ (number_sound NUMBER_LIMIT (label_in v.now) && number_sound ALIGN8_LIMIT (after_label v.now)) }
{
    let e = space_in(v);
    let sized = is_number_sound(base_scope::NUMBER_LIMIT, &v[0..e]);
    base_scope::both(
        sized,
        is_number_sound(base_scope::ALIGN8_LIMIT, behind(v, e)),
    )
}

// Whether v is `label size align8`. Each of its spaces is looked for once.
fn is_span_sound(v: &[u8]) -> bool
    ensures { result ≡ span_sound v.now }
{
    let e = space_in(v);
    if e == 0 {
        return false;
    }
    are_numbers_sound(behind(v, e))
}

// Whether v is empty or `label size align8`.
pub fn is_line_sound(v: &[u8]) -> bool
    ensures { result ≡ line_sound v.now }
{
    if v.len() == 0 {
        return true;
    }
    is_span_sound(v)
}

// Whether v is a label: not empty, and with no space.
pub fn is_label_sound(v: &[u8]) -> bool
    ensures { result ≡ label_sound v.now }
{
    base_scope::both(0 < v.len(), space_in(v) == v.len())
}

// Whether v is eight hex digits.
pub fn is_dummy_sound(v: &[u8]) -> bool
    ensures { result ≡ dummy_sound v.now }
{
    base_scope::both(v.len() == 8, are_hex_digits(v))
}
