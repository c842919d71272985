// Refusal 10: the lowest section of C whose relocations or symbols cannot be carried (specs/Clash.antt). Each function equals its definition; sections of codes are read by the
// views.
#![tactic(auto)]

ghost use Rattle.std.specs.Prelude.{◌≡◌, ◌≤◌, ◌<◌, min};
ghost use Rattle.base_lists.specs.Ranges.{first, least};
ghost use Rattle.base_scope.specs.Codes.{LINES, CODES};
ghost use Rattle.elf_readers.specs.Readers.{section_count, section_named};
ghost use Rattle.elf_readers.specs.Bounds.{Named};
ghost use Rattle.symbols_taken.specs.of_elf_check.View.{Viewed};
ghost use Rattle.carry_clash.specs.Clash.{is_stale, leads_out, holds_symbol, is_missed, is_cut, joined_name, name_among, is_carried, is_other_table, joined_section, is_misjoined, clash_of, clash_finding};

use base_fields::ByteOrder;
pub use symbols_taken;
use symbols_taken::elf_check;
use symbols_taken::elf_check::View;
pub use symbols_taken::late_lookups;

// Its number.
pub const CLASH: u32 = 10;

// Whether section i is a table with entries for another section than those of the four codes.
fn is_stale(order: ByteOrder, compiled: &[u8], view: View, i: usize) -> bool
    requires { Viewed order compiled.now view × (i < section_count order compiled.now) }
    ensures { result ≡ is_stale order compiled.now i }
{
    if elf_relocations::is_table(order, compiled, i) {
        let h = elf_readers::section_at(order, compiled, i);
        if h.sh_size > 0 {
            let code = symbols_taken::code_of(view, h.sh_info as usize);
            return code as usize > base_scope::LINES;
        }
    }
    false
}

// Whether section i is a table for a section from `stay` on.
fn leads_out(order: ByteOrder, compiled: &[u8], stay: usize, i: usize) -> bool
    requires { Named order compiled.now × (i < section_count order compiled.now) }
    ensures { result ≡ leads_out order compiled.now stay i }
{
    if elf_relocations::is_table(order, compiled, i) {
        let h = elf_readers::section_at(order, compiled, i);
        let s = h.sh_info as usize;
        return !(s < stay);
    }
    false
}

// Whether some symbol is in section i.
fn holds_symbol(order: ByteOrder, compiled: &[u8], view: View, i: usize) -> bool
    requires { Viewed order compiled.now view }
    ensures { result ≡ holds_symbol order compiled.now i }
{
    let symbols = view.symbols;
    let at = symbols.at;
    let n = symbols.count;
    for k in 0..n {
        let e = elf_symbols::symbol_at(order, compiled, at, k);
        if e.st_shndx as usize == i {
            return true;
        }
    }
    false
}

// Whether section i does not stay, and some symbol is in it.
fn is_missed(order: ByteOrder, compiled: &[u8], view: View, stay: usize, i: usize) -> bool
    requires { Viewed order compiled.now view }
    ensures { result ≡ is_missed order compiled.now stay i }
{
    if i < stay {
        return false;
    }
    holds_symbol(order, compiled, view, i)
}

// Whether section i is at fault by itself.
fn is_cut(order: ByteOrder, compiled: &[u8], view: View, stay: usize, i: usize) -> bool
    requires { Viewed order compiled.now view × (i < section_count order compiled.now) }
    ensures { result ≡ is_cut order compiled.now stay i }
{
    if is_stale(order, compiled, view, i) {
        return true;
    }
    if leads_out(order, compiled, stay, i) {
        return true;
    }
    is_missed(order, compiled, view, stay, i)
}

// The first section of C at fault by itself; the section count where none is.
fn first_cut(order: ByteOrder, compiled: &[u8], view: View, stay: usize) -> usize
    requires { Viewed order compiled.now view }
    ensures { result ≡ first (is_cut order compiled.now stay) 0 (section_count order compiled.now) }
{
    let n = view.sections;
    for i in 0..n {
        if is_cut(order, compiled, view, stay, i) {
            return i;
        }
    }
    n
}

// C's first section of one of four names, by the code.
fn section_among(
    order: ByteOrder,
    compiled: &[u8],
    code: u32,
    text: &[u8],
    data: &[u8],
    rodata: &[u8],
    bss: &[u8],
) -> usize
    requires { Named order compiled.now }
    ensures { result ≡ section_named order compiled.now (name_among code text.now «data».now rodata.now bss.now) }
{
    if code == base_scope::TEXT {
        return elf_readers::section_named(order, compiled, text);
    }
    if code == base_scope::DATA {
        return elf_readers::section_named(order, compiled, data);
    }
    if code == base_scope::RODATA {
        return elf_readers::section_named(order, compiled, rodata);
    }
    elf_readers::section_named(order, compiled, bss)
}

// C's first section of the name that entries for a code join.
pub fn joined_section(order: ByteOrder, compiled: &[u8], rela: bool, code: u32) -> usize
    requires { Named order compiled.now × (1 ≤ code) × (code ≤ LINES) }
    ensures { result ≡ section_named order compiled.now (joined_name rela code) }
{
    if rela {
        return section_among(
            order,
            compiled,
            code,
            b".rela.text",
            b".rela.data",
            b".rela.rodata",
            b".rela.bss",
        );
    }
    section_among(
        order,
        compiled,
        code,
        b".rel.text",
        b".rel.data",
        b".rel.rodata",
        b".rel.bss",
    )
}

// Whether A's table t is carried: it relocates one of the five sections, and that one holds bytes.
pub fn is_carried(order: ByteOrder, assembled: &[u8], view: View, t: usize) -> bool
    requires { Viewed order assembled.now view × (t < section_count order assembled.now) }
    ensures { result ≡ is_carried order assembled.now t }
{
    if symbols_taken::is_source_table(order, assembled, view, t) {
        let h = elf_readers::section_at(order, assembled, t);
        let code = symbols_taken::code_of(view, h.sh_info as usize);
        let bytes = elf_check::coded_contents(order, assembled, view, code);
        return bytes.len() > 0;
    }
    false
}

// Whether C's section j has another type, or another section of its own than C's of the code.
fn differs(order: ByteOrder, compiled: &[u8], view: View, kind: u32, code: u32, j: usize) -> bool
    requires { Viewed order compiled.now view × (1 ≤ code) × (code ≤ CODES) × (j < section_count order compiled.now) }
    ensures { result ≡ is_other_table order compiled.now kind code j }
{
    let h = elf_readers::section_at(order, compiled, j);
    if h.sh_type == kind {
        return h.sh_info as usize != view.section(code);
    }
    true
}

// The section of C that A's table t joins, where that differs in type or target; else C's section count.
fn clash_of(
    order: ByteOrder,
    compiled: &[u8],
    assembled: &[u8],
    target: View,
    source: View,
    stay: usize,
    t: usize,
) -> usize
    requires { Viewed order compiled.now target × Viewed order assembled.now source × (stay ≤ section_count order compiled.now) × (t < section_count order assembled.now) }
    ensures { result ≡ clash_of order compiled.now assembled.now stay t }
{
    let none = target.sections;
    if is_carried(order, assembled, source, t) {
        let h = elf_readers::section_at(order, assembled, t);
        if h.sh_size > 0 {
            let code = base_scope::target_code(symbols_taken::code_of(source, h.sh_info as usize));
            let rela = elf_relocations::is_rela(order, assembled, t);
            let j = joined_section(order, compiled, rela, code);
            if j < stay {
                if differs(order, compiled, target, h.sh_type, code, j) {
                    return j;
                }
            }
        }
    }
    none
}

// The lower of two numbers.
fn lower(a: usize, b: usize) -> usize
    ensures { result ≡ min a b }
{
    if a < b {
        return a;
    }
    b
}

// The lowest section that a table of A joins wrongly; C's section count where none does.
fn first_clash(
    order: ByteOrder,
    compiled: &[u8],
    assembled: &[u8],
    target: View,
    source: View,
    stay: usize,
) -> usize
    requires { Viewed order compiled.now target × Viewed order assembled.now source × (stay ≤ section_count order compiled.now) }
    ensures { result ≡ least (joined_section order compiled.now assembled.now) (is_misjoined order compiled.now assembled.now stay)
        (section_count order compiled.now) (section_count order assembled.now) }
{
    let n = source.sections;
    let mut best = target.sections;
    for t in 0..n {
        let at = clash_of(order, compiled, assembled, target, source, stay, t);
        best = lower(at, best);
    }
    best
}

// Refusal 10: C's lowest section at fault, by itself or by a table of A that joins it.
pub fn clash_fault(
    order: ByteOrder,
    compiled: &[u8],
    assembled: &[u8],
    target: View,
    source: View,
    flag: u32,
) -> Option<usize>
    requires { Viewed order compiled.now target × Viewed order assembled.now source }
    ensures { result ≡ clash_finding order compiled.now assembled.now flag }
{
    let stay = merge_kept::kept_count(order, compiled, flag);
    let cut = first_cut(order, compiled, target, stay);
    let clash = first_clash(order, compiled, assembled, target, source, stay);
    base_scope::found_below(target.sections, lower(cut, clash))
}
