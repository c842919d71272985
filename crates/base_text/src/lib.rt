// Text, appended to the output at a place that is a 64-bit number: bytes, lines, decimal numbers. A text that no longer fits is counted and not written. Every
// function says `Written` of what it appends (the crate base_lists, specs/Written.antt), and asks only that it ends below 2 ^ 64, so that no sum wraps.
#![tactic(auto)]

ghost use Rattle.std.specs.Prelude.{◌≡◌, ◌+◌, ◌≤◌, ◌<◌, length, drop};
ghost use Rattle.base_lists.specs.Written.{Written};
ghost use Rattle.base_text.specs.Lines.{lined};
ghost use Rattle.base_text.specs.Decimals.{decimal_text};

// Appends bytes.
pub fn append(out: &mut [u8], at: u64, s: &[u8]) -> u64
    requires { at + length s.now < 18446744073709551616 }
    ensures { Written out.old at s.now result out.new }
{
    let end = at + s.len() as u64;
    if end <= out.len() as u64 {
        base_fields::write_bytes(out, at as usize, s);
    }
    end
}

// Appends bytes and an LF.
pub fn append_line(out: &mut [u8], at: u64, s: &[u8]) -> u64
    requires { at + length s.now + 1 < 18446744073709551616 }
    ensures { Written out.old at (lined s.now) result out.new }
{
    let a = append(out, at, s);
    append(out, a, b"\n")
}

// Puts the decimal digits of a number at the end of ten bytes, and answers where they start.
fn put_digits(d: &mut [u8], n: u64) -> usize
    requires { (length d.old ≡ 10) × (n < 10000000000) }
    ensures { (result ≤ 9) × (drop result d.new ≡ decimal_text n) }
{
    let mut m = n;
    let mut i: usize = 9;
    while m >= 10 {
        d[i] = (48 + m % 10) as u8;
        m = m / 10;
        i -= 1;
    }
    d[i] = (48 + m) as u8;
    i
}

// Appends the decimal digits of a number.
pub fn append_decimal(out: &mut [u8], at: u64, n: u64) -> u64
    requires { (at + 10 < 18446744073709551616) × (n < 10000000000) }
    ensures { Written out.old at (decimal_text n) result out.new }
{
    let mut d: [u8; 10] = [48; 10];
    let i = put_digits(&mut d, n);
    append(out, at, &d[i..])
}
