// The strings of the result's symbols, appended from C, A, the path and the table of statics; no name stands in a buffer of its own. Each function says `Written` of a definition
// in specs/Strings.antt: strings that do not fit are counted and not written.
#![tactic(auto)]

ghost use Rattle.std.specs.Prelude.{◌+◌, ◌*◌, ◌^◌, ◌≤◌, ◌<◌, length};
ghost use Rattle.base_lists.specs.Written.{Written};
ghost use Rattle.base_scope.specs.Limits.{FILE_LIMIT, PATH_LIMIT, STATIC_LIMIT, STATIC_ROW};
ghost use Rattle.elf_check.specs.View.{Viewed};
ghost use Rattle.statics_table.specs.Table.{static_in, statics_in};
ghost use Rattle.write_strings.specs.Strings.{static_string, strings_below, result_strings};

use base_fields::ByteOrder;
use elf_check::View;
use statics_table::Static;

// Appends the written name of a static and its zero byte.
fn append_string(out: &mut [u8], at: u64, mode: u32, path: &[u8], compiled: &[u8], s: Static) -> u64
    requires { (at < 2 ^ 62) × (length path.now ≤ PATH_LIMIT) × (length compiled.now ≤ FILE_LIMIT) }
    ensures { Written out.old at (static_string mode path.now compiled.now s) result out.new × (result ≤ at + 2 ^ 21) }
{
    let end = statics_names::append_written(out, at, mode, path, compiled, s);
    base_text::append(out, end, b"\0")
}

// Appends the strings of the first n statics of the table.
fn append_statics(
    out: &mut [u8],
    at: u64,
    mode: u32,
    path: &[u8],
    compiled: &[u8],
    statics: &[u8],
    n: usize,
) -> u64
    requires { (at < 2 ^ 60) × (length path.now ≤ PATH_LIMIT) × (length compiled.now ≤ FILE_LIMIT) × (n ≤ STATIC_LIMIT) × (STATIC_ROW * n ≤ length statics.now) }
    ensures { Written out.old at (strings_below mode path.now compiled.now (static_in statics.now) n) result out.new
        × (result ≤ at + 2 ^ 33) }
{
    let mut next = at;
    for k in 0..n {
        next = append_string(out, next, mode, path, compiled, Static::read(statics, k));
    }
    next
}

// Appends C's symbol strings, A's, and those of the n statics in the table.
pub fn append_strings(
    out: &mut [u8],
    at: u64,
    order: ByteOrder,
    compiled: &[u8],
    assembled: &[u8],
    target: View,
    source: View,
    mode: u32,
    path: &[u8],
    statics: &[u8],
    n: usize,
) -> u64
    requires { Viewed order compiled.now target × Viewed order assembled.now source × (at < 2 ^ 40) × (length path.now ≤ PATH_LIMIT)
        × (length compiled.now ≤ FILE_LIMIT) × (length assembled.now ≤ FILE_LIMIT) × (n ≤ STATIC_LIMIT) × (STATIC_ROW * n ≤ length statics.now) }
    ensures { Written out.old at
        (result_strings order compiled.now assembled.now mode path.now (statics_in statics.now n)) result out.new
        × (result ≤ at + 2 ^ 34) }
{
    let own = elf_symbols::strings_of(compiled, target.symbols);
    let next = base_text::append(out, at, own);
    let other = elf_symbols::strings_of(assembled, source.symbols);
    let end = base_text::append(out, next, other);
    append_statics(out, end, mode, path, compiled, statics, n)
}
