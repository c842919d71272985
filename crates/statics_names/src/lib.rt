// The names of statics as they are written, and the type and binding of their symbols. Each function equals its definition in the crate statics_table,
// specs/Statics.antt; a name is appended from the path, the compiled object and the count, and stands in no buffer of its own. Of the place it is asked only that the
// name ends below 2 ^ 64 (11: a colon and ten digits).
#![tactic(auto)]

ghost use Rattle.std.specs.Prelude.{◌≡◌, ◌+◌, ◌≤◌, ◌<◌, length};
ghost use Rattle.base_lists.specs.Written.{Written};
ghost use Rattle.base_scope.specs.Limits.{PATH_LIMIT, HEAD_LIMIT};
ghost use Rattle.statics_table.specs.Statics.{count_tail, name_head, working_name, written_name, static_type, static_binding};

use statics_table::Static;

// How many bytes a mode puts in front of a name.
pub fn head_length(mode: u32, path: &[u8]) -> u32
    requires { length path.now ≤ PATH_LIMIT }
    ensures { (result ≡ length (name_head mode path.now)) × (result ≤ HEAD_LIMIT) }
{
    if mode == statics_table::MODE_FILENAME {
        return path.len() as u32 + 1;
    }
    0
}

// Appends what a mode puts in front of a name.
fn append_head(out: &mut [u8], at: u64, mode: u32, path: &[u8]) -> u64
    requires { (at + HEAD_LIMIT < 18446744073709551616) × (length path.now ≤ PATH_LIMIT) }
    ensures { Written out.old at (name_head mode path.now) result out.new }
{
    if mode == statics_table::MODE_FILENAME {
        let a = base_text::append(out, at, path);
        return base_text::append(out, a, b":");
    }
    at
}

// Appends `:` and a count; nothing for 0.
fn append_tail(out: &mut [u8], at: u64, number: u32) -> u64
    requires { at + 11 < 18446744073709551616 }
    ensures { Written out.old at (count_tail number) result out.new }
{
    if number == 0 {
        return at;
    }
    let a = base_text::append(out, at, b":");
    base_text::append_decimal(out, a, number as u64)
}

// Appends the working name of a static of the compiled object.
pub fn append_working(out: &mut [u8], at: u64, file: &[u8], s: Static) -> u64
    requires { at + length file.now + 11 < 18446744073709551616 }
    ensures { Written out.old at (working_name file.now s) result out.new }
{
    let name = base_names::name_at(file, s.start as usize);
    let a = base_text::append(out, at, name);
    append_tail(out, a, s.number)
}

// Appends the written name of a static of the compiled object.
pub fn append_written(
    out: &mut [u8],
    at: u64,
    mode: u32,
    path: &[u8],
    file: &[u8],
    s: Static,
) -> u64
    requires { (at + HEAD_LIMIT + length file.now + 11 < 18446744073709551616) × (length path.now ≤ PATH_LIMIT) }
    ensures { Written out.old at (written_name mode path.now file.now s) result out.new }
{
    let a = append_head(out, at, mode, path);
    append_working(out, a, file, s)
}

// The type of a static's symbol.
pub fn static_type(s: Static) -> u8
    ensures { (result ≡ static_type s) × (result < 16) }
{
    if s.code == base_scope::TEXT {
        return base_scope::STT_FUNC;
    }
    base_scope::STT_OBJECT
}

// The binding of the statics' symbols in a mode.
pub fn static_binding(mode: u32) -> u8
    ensures { (result ≡ static_binding mode) × (result < 16) }
{
    if mode == statics_table::MODE_LOCAL {
        return base_scope::STB_LOCAL;
    }
    base_scope::STB_GLOBAL
}
