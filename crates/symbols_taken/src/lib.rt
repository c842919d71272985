// Which symbols a merge takes over from C and A, and refusals 15 and 16 (specs/Used.antt, specs/Taken.antt). Each function equals its definition; where the code is given a
// view or a table in place of C and the block file, that of specs/Code.antt, and a law says what it is of them (proofs/InHand.antt, `taken_is`).
#![tactic(auto)]

ghost use Rattle.std.specs.Prelude.{◌≡◌, true, not, ◌&&◌, ◌+◌, ◌≤◌, ◌<◌, eqb, ltb, length, get_or};
ghost use Rattle.base_lists.specs.Strings.{prefixed, name_at};
ghost use Rattle.base_lists.specs.Windows.{Within, spliced};
ghost use Rattle.base_packed.specs.Packed.{symbol_of};
ghost use Rattle.base_buffers.specs.Buffers.{zeros};
ghost use Rattle.base_scope.specs.Codes.{LATE_RODATA, CODES};
ghost use Rattle.base_scope.specs.Limits.{SYMBOL_LIMIT};
ghost use Rattle.base_scope.specs.Refusals.{found_below};
ghost use Rattle.base_scope.specs.Text.{text};
ghost use Rattle.elf_readers.specs.Readers.{section_count};
ghost use Rattle.elf_readers.specs.Bounds.{Headed};
ghost use Rattle.elf_symbols.specs.Symbols.{symbol_count, Entries};
ghost use Rattle.merge_inputs.specs.of_elf_check.View.{Viewed};
ghost use Rattle.symbols_taken.specs.Used.{is_source_table, is_used};
ghost use Rattle.symbols_taken.specs.Taken.{is_helper, is_taken_c, is_taken_a};
ghost use Rattle.symbols_taken.specs.Code.{is_section_in, code_in, is_source_in, marked, used_in, used_bytes, AtSymbol, has_target_in, lacks_target_in, is_homeless_in, homeless_in, LateIn, is_moved_in, is_unmoved_value, is_unmoved_in, unmoved_in, taken_in};

use base_answers::Refusal;
use base_fields::ByteOrder;
pub use late_lookups;
use late_lookups::late_length::LateStep;
pub use merge_inputs;
use merge_inputs::Inputs;
pub use merge_inputs::elf_check;
use merge_inputs::elf_check::View;

// Whether section s is the one of a code.
fn is_section_in(view: View, s: usize, code: u32) -> bool
    requires { (1 ≤ code) × (code ≤ CODES) }
    ensures { result ≡ is_section_in view s code }
{
    base_scope::both(elf_check::has_coded(view, code), view.section(code) == s)
}

// The code of section s among the five whose symbols and relocations are taken over, or one past them: `code_of` where the view is A's (proofs/Sections.antt, `code_is`).
pub fn code_of(view: View, s: usize) -> u32
    ensures { (result ≡ code_in view s) × (1 ≤ result) × (result ≤ LATE_RODATA + 1) }
{
    let past = base_scope::LATE_RODATA + 1;
    for code in base_scope::TEXT..past {
        if is_section_in(view, s, code) {
            return code;
        }
    }
    past
}

// Whether section s is one of the five.
pub fn is_source(view: View, s: usize) -> bool
    ensures { result ≡ is_source_in view s }
{
    code_of(view, s) <= base_scope::LATE_RODATA
}

// Whether section t is a relocation table for one of the five.
pub fn is_source_table(order: ByteOrder, assembled: &[u8], view: View, t: usize) -> bool
    requires { Viewed order assembled.now view × (t < section_count order assembled.now) }
    ensures { result ≡ is_source_table order assembled.now t }
{
    if elf_relocations::is_table(order, assembled, t) {
        let h = elf_readers::section_at(order, assembled, t);
        return is_source(view, h.sh_info as usize);
    }
    false
}

// Marks the symbol of an r_info. An index past the symbols has no mark.
fn mark_symbol(info: u32, used: &mut [u8])
    ensures { used.new ≡ marked (λ k. eqb (symbol_of info) k) used.old }
{
    let symbol = base_packed::assembled_symbol(info);
    let k = symbol.0 as usize;
    if k < used.len() {
        used[k] = 1;
    }
}

// Marks the symbols of the entries of table t, which relocates one of the five. Of an entry only its r_info is read.
fn mark_entries(order: ByteOrder, assembled: &[u8], t: usize, used: &mut [u8])
    requires { Headed order assembled.now × (t < section_count order assembled.now) × (is_source_table order assembled.now t ≡ true) }
    ensures { used.new ≡ marked (used_in order assembled.now t) used.old }
{
    let h = elf_readers::section_at(order, assembled, t);
    let at = h.sh_offset as usize;
    let size = elf_relocations::entry_size(order, assembled, t);
    let n = elf_relocations::relocation_count(order, assembled, t);
    for j in 0..n {
        let info = base_fields::read32(order, assembled, at + size * j + 4);
        mark_symbol(info, used);
    }
}

// Marks the symbols that section t uses: none where it is no table for one of the five.
fn mark_table(order: ByteOrder, assembled: &[u8], view: View, t: usize, used: &mut [u8])
    requires { Viewed order assembled.now view × (t < section_count order assembled.now) }
    ensures { used.new ≡ marked (used_in order assembled.now t) used.old }
{
    if is_source_table(order, assembled, view, t) {
        mark_entries(order, assembled, t, used);
    }
}

// Marks the symbols that any section uses, and no others.
fn mark_tables(order: ByteOrder, assembled: &[u8], view: View, used: &mut [u8])
    requires { Viewed order assembled.now view }
    ensures { used.new ≡ marked (is_used order assembled.now) (zeros (length used.old)) }
{
    base_buffers::zero(used);
    let n = view.sections;
    for t in 0..n {
        mark_table(order, assembled, view, t, used);
    }
}

// The marks: a byte for each of A's symbols, 1 where a relocation of the five sections uses it. `used` needs no particular contents.
pub fn mark_used(order: ByteOrder, assembled: &[u8], view: View, used: &mut [u8])
    requires { Viewed order assembled.now view × (SYMBOL_LIMIT ≤ length used.old) }
    ensures { used.new ≡ spliced used.old 0 (used_bytes order assembled.now) }
{
    let symbols = view.symbols;
    let n = symbols.count;
    mark_tables(order, assembled, view, &mut used[0..n]);
}

// Whether the name at `at` begins `_asmpp_`. That has no zero byte, so the table is compared with it as it stands: a long name costs nothing.
fn begins_helper(t: &[u8], at: usize) -> bool
    ensures { result ≡ prefixed (text "_asmpp_") (name_at t.now at) }
{
    if at > t.len() {
        return false;
    }
    base_names::has_prefix(&t[at..], b"_asmpp_")
}

// Whether the name of symbol k begins `_asmpp_`.
pub fn is_helper(order: ByteOrder, file: &[u8], at: usize, strings: &[u8], k: usize) -> bool
    requires { Entries order file.now at strings.now × (k < symbol_count order file.now) }
    ensures { result ≡ is_helper order file.now k }
{
    let entry = elf_symbols::symbol_at(order, file, at, k);
    begins_helper(strings, entry.st_name as usize)
}

// Whether C's symbol k is taken.
pub fn is_taken_c(order: ByteOrder, compiled: &[u8], at: usize, strings: &[u8], k: usize) -> bool
    requires { Entries order compiled.now at strings.now × (k < symbol_count order compiled.now) }
    ensures { result ≡ is_taken_c order compiled.now k }
{
    if k == 0 {
        return false;
    }
    !is_helper(order, compiled, at, strings, k)
}

// Whether symbol k is a local, one of the first `locals`, without a mark.
fn is_unused_local(locals: usize, used: &[u8], k: usize) -> bool
    requires { k < length used.now }
    ensures { result ≡ (ltb k locals && not (eqb (get_or used.now k 0) 1)) }
{
    base_scope::both(k < locals, used[k] != 1)
}

// Whether A's symbol k is taken; `used` has the marks.
pub fn is_taken_a(
    order: ByteOrder,
    assembled: &[u8],
    view: View,
    strings: &[u8],
    used: &[u8],
    k: usize,
) -> bool
    requires { AtSymbol order assembled.now view strings.now used.now k }
    ensures { result ≡ is_taken_a order assembled.now k }
{
    let locals = view.locals;
    if is_unused_local(locals, used, k) {
        return false;
    }
    let symbols = view.symbols;
    let at = symbols.at;
    !is_helper(order, assembled, at, strings, k)
}

// Whether A's section s is one of the five and the compiled object has its target.
fn has_target(compiled: View, assembled: View, s: usize) -> bool
    ensures { result ≡ has_target_in compiled assembled s }
{
    let code = code_of(assembled, s);
    if code <= base_scope::LATE_RODATA {
        return elf_check::has_coded(compiled, base_scope::target_code(code));
    }
    false
}

// Whether a section index of A is neither undefined nor absolute, and has no target.
fn lacks_target(compiled: View, assembled: View, s: u32) -> bool
    ensures { result ≡ lacks_target_in compiled assembled s }
{
    if s == base_scope::SHN_UNDEF {
        return false;
    }
    if s == base_scope::SHN_ABS {
        return false;
    }
    !has_target(compiled, assembled, s as usize)
}

// Whether symbol k is at fault by 15: taken, and its section lacks a target; or used, and its name a helper's.
fn is_homeless(
    order: ByteOrder,
    assembled: &[u8],
    compiled: View,
    view: View,
    strings: &[u8],
    used: &[u8],
    k: usize,
) -> bool
    requires { AtSymbol order assembled.now view strings.now used.now k }
    ensures { result ≡ is_homeless_in compiled view order assembled.now k }
{
    let symbols = view.symbols;
    let at = symbols.at;
    if is_taken_a(order, assembled, view, strings, used, k) {
        let entry = elf_symbols::symbol_at(order, assembled, at, k);
        return lacks_target(compiled, view, entry.st_shndx);
    }
    if used[k] == 1 {
        return is_helper(order, assembled, at, strings, k);
    }
    false
}

// Refusal 15.
pub fn homeless_fault(
    order: ByteOrder,
    assembled: &[u8],
    compiled: View,
    view: View,
    used: &[u8],
) -> Option<usize>
    requires { Viewed order assembled.now view × Within (used_bytes order assembled.now) 0 used.now }
    ensures { result ≡ found_below (symbol_count order assembled.now) (homeless_in compiled view order assembled.now) }
{
    let symbols = view.symbols;
    let strings = elf_symbols::strings_of(assembled, symbols);
    let n = symbols.count;
    for k in 0..n {
        if is_homeless(order, assembled, compiled, view, strings, used, k) {
            return Some(k);
        }
    }
    None
}

// Whether a late offset is moved, by the table of `blocks` blocks: none is where the late step does not run, and the table is not read.
pub fn is_moved(runs: bool, late: &[u8], blocks: usize, x: u32) -> bool
    requires { LateIn runs late.now blocks }
    ensures { result ≡ is_moved_in runs late.now blocks x }
{
    if runs {
        return match late_lookups::offset_at(late, blocks, x) {
            Some(_) => true,
            None => false,
        };
    }
    false
}

// Whether a late value is 0 or not moved.
fn is_unmoved_value(runs: bool, late: &[u8], blocks: usize, x: u32) -> bool
    requires { LateIn runs late.now blocks }
    ensures { result ≡ is_unmoved_value runs late.now blocks x }
{
    if x == 0 {
        return true;
    }
    !is_moved(runs, late, blocks, x)
}

// Whether section s is .late_rodata. Few are, so its index is asked before the codes.
fn is_late(view: View, s: usize) -> bool
    ensures { result ≡ eqb (code_in view s) LATE_RODATA }
{
    if view.section(base_scope::LATE_RODATA) != s {
        return false;
    }
    code_of(view, s) == base_scope::LATE_RODATA
}

// Whether symbol k is at fault by 16: taken, of .late_rodata, and its value 0 or not moved.
fn is_unmoved(
    order: ByteOrder,
    assembled: &[u8],
    view: View,
    strings: &[u8],
    used: &[u8],
    runs: bool,
    late: &[u8],
    blocks: usize,
    k: usize,
) -> bool
    requires { AtSymbol order assembled.now view strings.now used.now k × LateIn runs late.now blocks }
    ensures { result ≡ is_unmoved_in order assembled.now runs late.now blocks k }
{
    let symbols = view.symbols;
    let at = symbols.at;
    let entry = elf_symbols::symbol_at(order, assembled, at, k);
    if is_late(view, entry.st_shndx as usize) {
        if is_taken_a(order, assembled, view, strings, used, k) {
            return is_unmoved_value(runs, late, blocks, entry.st_value);
        }
        return false;
    }
    false
}

// Refusal 16.
pub fn unmoved_fault(
    order: ByteOrder,
    assembled: &[u8],
    view: View,
    used: &[u8],
    runs: bool,
    late: &[u8],
    blocks: usize,
) -> Option<usize>
    requires { Viewed order assembled.now view × Within (used_bytes order assembled.now) 0 used.now × LateIn runs late.now blocks }
    ensures { result ≡ found_below (symbol_count order assembled.now) (unmoved_in order assembled.now runs late.now blocks) }
{
    let symbols = view.symbols;
    let strings = elf_symbols::strings_of(assembled, symbols);
    let n = symbols.count;
    for k in 0..n {
        if is_unmoved(order, assembled, view, strings, used, runs, late, blocks, k) {
            return Some(k);
        }
    }
    None
}

// Refusals 15 and 16. `used` has the marks, `late` the table of the late step where it runs.
pub fn taken_verdict(
    assembled: &[u8],
    inputs: Inputs,
    step: LateStep,
    late: &[u8],
    used: &[u8],
) -> Result<(), Refusal>
    requires { Viewed inputs.order assembled.now inputs.assembled × Within (used_bytes inputs.order assembled.now) 0 used.now
        × LateIn step.runs late.now inputs.blocks }
    ensures { result ≡ taken_in inputs.compiled inputs.assembled inputs.order assembled.now step.runs late.now inputs.blocks }
{
    let order = inputs.order;
    let target = inputs.compiled;
    let source = inputs.assembled;
    let homeless = homeless_fault(order, assembled, target, source, used);
    base_answers::finding_verdict(
        base_scope::SYMBOL_SECTION,
        base_answers::ASSEMBLED,
        homeless,
    )?;
    let runs = step.runs;
    let blocks = inputs.blocks;
    let unmoved = unmoved_fault(order, assembled, source, used, runs, late, blocks);
    base_answers::finding_verdict(base_scope::LATE_SYMBOL, base_answers::ASSEMBLED, unmoved)
}
