// The lines of a draft, each appended to the output at a place that is a 64-bit number: a text that no longer fits is counted and not written.
// Every function says `Written` of the text in specs/Lines.antt that it appends. Each asks only that its text ends below 2 ^ 64, so that no sum wraps.
#![tactic(auto)]

ghost use Rattle.std.specs.Prelude.{◌≡◌, ◌+◌, ◌*◌, ◌≤◌, ◌<◌, length};
ghost use Rattle.base_scope.specs.Text.{text};
ghost use Rattle.base_scope.specs.Codes.{LINES};
ghost use Rattle.base_text.specs.Lines.{lined};
ghost use Rattle.blocks_lines.specs.Keys.{KEYS};
ghost use Rattle.blocks_file.specs.Blocks.{skip};
ghost use Rattle.draft_lines.specs.Lines.{section_line, nop_lines, space_line, label_line, group_lines};
ghost use Rattle.base_lists.specs.Written.{Written};

// Appends a line `nop`.
fn append_nop(out: &mut [u8], at: u64) -> u64
    requires { at + 4 < 18446744073709551616 }
    ensures { Written out.old at (lined (text "nop")) result out.new }
{
    base_text::append(out, at, b"nop\n")
}

// Appends n lines `nop`; their length is computed, so that a great many cost nothing where they do not fit.
pub fn append_nops(out: &mut [u8], at: u64, n: u64) -> u64
    requires { at + 4 * n < 18446744073709551616 }
    ensures { Written out.old at (nop_lines n) result out.new }
{
    let end = at + 4 * n;
    if end > out.len() as u64 {
        return end;
    }
    let mut here = at;
    for _ in 0..n {
        here = append_nop(out, here);
    }
    here
}

// Appends `.space n`.
pub fn append_space(out: &mut [u8], at: u64, n: u64) -> u64
    requires { (at + 18 < 18446744073709551616) × (n < 10000000000) }
    ensures { Written out.old at (space_line n) result out.new }
{
    let a = base_text::append(out, at, b".space ");
    let b = base_text::append_decimal(out, a, n);
    base_text::append(out, b, b"\n")
}

// Appends `.section NAME` for a section code.
pub fn append_section(out: &mut [u8], at: u64, code: u32) -> u64
    requires { (at + 17 < 18446744073709551616) × (1 ≤ code) × (code ≤ LINES) }
    ensures { Written out.old at (section_line code) result out.new }
{
    match code {
        base_scope::TEXT => base_text::append(out, at, b".section .text\n"),
        base_scope::DATA => base_text::append(out, at, b".section .data\n"),
        base_scope::RODATA => base_text::append(out, at, b".section .rodata\n"),
        _ => base_text::append(out, at, b".section .bss\n"),
    }
}

// Appends `glabel LABEL` with a suffix.
pub fn append_label(out: &mut [u8], at: u64, label: &[u8], suffix: &[u8]) -> u64
    requires { at + length label.now + length suffix.now + 8 < 18446744073709551616 }
    ensures { Written out.old at (label_line label.now suffix.now) result out.new }
{
    let a = base_text::append(out, at, b"glabel ");
    let b = base_text::append(out, a, label);
    base_text::append_line(out, b, suffix)
}

// Appends the values of the lines of key k that stand at `from` of a block file up to `to`, each as a line. None is tested again.
pub fn append_group(out: &mut [u8], at: u64, file: &[u8], k: u32, from: usize, to: usize) -> u64
    requires { (at + length file.now < 18446744073709551616) × (k < KEYS) × (from ≤ length file.now) × (to ≡ skip file.now k from) }
    ensures { Written out.old at (group_lines file.now k from) result out.new }
{
    let n = blocks_lines::key_length(k);
    let mut end = at;
    let mut i = from;
    while i < to {
        let next = blocks_lines::line_end(file, i) + 1;
        end = base_text::append(out, end, &file[i + n..next]);
        i = next;
    }
    end
}
