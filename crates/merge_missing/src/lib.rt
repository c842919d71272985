// Refusal 11: what the compiled or the assembled object lacks for the merge. Each function equals its definition in specs/.
#![tactic(auto)]

ghost use Rattle.std.specs.Prelude.{◌≡◌, ◌&&◌, ◌≤◌, ◌<◌, eqb, ltb, length};
ghost use Rattle.base_scope.specs.Codes.{CODES};
ghost use Rattle.elf_readers.specs.Readers.{coded_contents};
ghost use Rattle.elf_check.specs.View.{has_in, Viewed};
ghost use Rattle.blocks_file.specs.Blocks.{block_count};
ghost use Rattle.blocks_places.specs.Lines.{line_count};
ghost use Rattle.blocks_places.specs.Table.{places_in, Laid};
ghost use Rattle.blocks_spans.specs.Table.{span_ends};
ghost use Rattle.late_length.specs.Late.{has_late_step};
ghost use Rattle.merge_inputs.specs.Taken.{InputsRead};
ghost use Rattle.merge_missing.specs.Missing.{goes_to, is_target, is_uneven, has_uneven, missing_c, lowest_code, missing_verdict};
ghost use Rattle.merge_missing.specs.Ends.{lacking_by, asked_c, asked_a, AtCode, missing_by};

use base_answers::Refusal;
use base_fields::ByteOrder;
use elf_check::View;
pub use late_length;
pub use merge_inputs;
use merge_inputs::Inputs;

// Whether the assembled object's section of a code holds bytes that go to the compiled object's section of another.
fn goes_to(order: ByteOrder, assembled: &[u8], view: View, target: u32, code: u32) -> bool
    requires { Viewed order assembled.now view × (1 ≤ code) × (code ≤ CODES) }
    ensures { result ≡ goes_to order assembled.now target code }
{
    let bytes = elf_check::coded_contents(order, assembled, view, code);
    base_scope::both(0 < bytes.len(), base_scope::target_code(code) == target)
}

// Whether some section of the assembled object goes to the compiled object's section of a code.
fn is_target(order: ByteOrder, assembled: &[u8], view: View, target: u32) -> bool
    requires { Viewed order assembled.now view }
    ensures { result ≡ is_target order assembled.now target }
{
    for code in base_scope::TEXT..=base_scope::LATE_RODATA {
        if goes_to(order, assembled, view, target, code) {
            return true;
        }
    }
    false
}

// Whether the compiled object must have a section of a code; `end` is where the last span of the code ends, `late` says whether there is a late step.
fn is_asked_c(
    order: ByteOrder,
    assembled: &[u8],
    view: View,
    end: usize,
    late: bool,
    code: u32,
) -> bool
    requires { Viewed order assembled.now view }
    ensures { result ≡ asked_c order assembled.now end late code }
{
    if base_scope::both(base_scope::holds_bytes(code), 0 < end) {
        return true;
    }
    if base_scope::both(base_scope::is_late_target(code), late) {
        return true;
    }
    is_target(order, assembled, view, code)
}

// Whether the assembled object must have it; `view` is the compiled object's.
fn is_asked_a(view: View, end: usize, late: bool, code: u32) -> bool
    ensures { result ≡ asked_a view end late code }
{
    if 0 < end {
        return true;
    }
    if code == base_scope::LATE_RODATA {
        return late;
    }
    if code == base_scope::REGINFO {
        return elf_check::has_coded(view, code);
    }
    false
}

// Whether an object's section of a code ends before the last span of the code does, or is asked for and not there.
fn is_lacking(
    order: ByteOrder,
    object: &[u8],
    view: View,
    end: usize,
    asked: bool,
    code: u32,
) -> bool
    requires { Viewed order object.now view × (1 ≤ code) × (code ≤ CODES) }
    ensures { result ≡ lacking_by order object.now end asked code }
{
    let bytes = elf_check::coded_contents(order, object, view, code);
    if base_scope::both(base_scope::holds_bytes(code), bytes.len() < end) {
        return true;
    }
    if elf_check::has_coded(view, code) {
        return false;
    }
    asked
}

// Whether line j has a span of a code whose place or size is no multiple of 4.
fn is_uneven(file: &[u8], table: &[u8], places: &[u8], code: u32, j: usize) -> bool
    requires { Laid (places_in places.now (line_count file.now)) file.now table.now places.now × (j < line_count file.now) }
    ensures { result ≡ is_uneven (places_in places.now (line_count file.now)) file.now code j }
{
    if base_scope::line_code(j) != code {
        return false;
    }
    if blocks_places::is_taken(places, j) {
        let size = blocks_places::size_of(places, j);
        let even = base_scope::both(blocks_places::place_of(places, j) % 4 == 0, size % 4 == 0);
        return !even;
    }
    false
}

// Whether a code's relocations at replaced words are left out, and some line has such a span.
fn has_uneven(file: &[u8], table: &[u8], places: &[u8], blocks: usize, code: u32) -> bool
    requires { Laid (places_in places.now (line_count file.now)) file.now table.now places.now × (blocks ≡ block_count file.now) }
    ensures { result ≡ has_uneven (places_in places.now (line_count file.now)) file.now code }
{
    if base_scope::leaves_out(code) {
        for j in 0..base_scope::LINES * blocks {
            if is_uneven(file, table, places, code, j) {
                return true;
            }
        }
    }
    false
}

// Whether a code is at fault in the compiled object.
fn is_missing_c(
    compiled: &[u8],
    assembled: &[u8],
    file: &[u8],
    table: &[u8],
    places: &[u8],
    inputs: Inputs,
    end: usize,
    late: bool,
    code: u32,
) -> bool
    requires { InputsRead compiled.now assembled.now file.now inputs table.now places.now
        × AtCode (places_in places.now (line_count file.now)) file.now end late code }
    ensures { result ≡ missing_c inputs.order compiled.now assembled.now (places_in places.now (line_count file.now)) file.now code }
{
    let order = inputs.order;
    let source = inputs.assembled;
    let asked = is_asked_c(order, assembled, source, end, late, code);
    let target = inputs.compiled;
    if is_lacking(order, compiled, target, end, asked, code) {
        return true;
    }
    let blocks = inputs.blocks;
    has_uneven(file, table, places, blocks, code)
}

// The lowest code at fault in the compiled object. `ends` are the ends of the last spans by code.
fn missing_in_c(
    compiled: &[u8],
    assembled: &[u8],
    file: &[u8],
    table: &[u8],
    places: &[u8],
    inputs: Inputs,
    ends: [usize; base_scope::CODE_INDICES],
    late: bool,
) -> Option<usize>
    requires { InputsRead compiled.now assembled.now file.now inputs table.now places.now
        × (ends ≡ span_ends (places_in places.now (line_count file.now)) file.now) × (late ≡ has_late_step (places_in places.now (line_count file.now)) file.now) }
    ensures { result ≡ lowest_code (missing_c inputs.order compiled.now assembled.now (places_in places.now (line_count file.now)) file.now) }
{
    for code in base_scope::TEXT..=base_scope::CODES {
        let end = ends[code as usize];
        if is_missing_c(
            compiled, assembled, file, table, places, inputs, end, late, code,
        ) {
            return Some(code as usize);
        }
    }
    None
}

// The lowest code at fault in the assembled object.
fn missing_in_a(
    assembled: &[u8],
    inputs: Inputs,
    ends: [usize; base_scope::CODE_INDICES],
    late: bool,
) -> Option<usize>
    requires { Viewed inputs.order assembled.now inputs.assembled }
    ensures { result ≡ lowest_code (missing_by inputs.order assembled.now inputs.compiled ends late) }
{
    let order = inputs.order;
    let target = inputs.compiled;
    let source = inputs.assembled;
    for code in base_scope::TEXT..=base_scope::CODES {
        let end = ends[code as usize];
        let asked = is_asked_a(target, end, late, code);
        if is_lacking(order, assembled, source, end, asked, code) {
            return Some(code as usize);
        }
    }
    None
}

// Refusal 11: the compiled object's lowest code at fault, else the assembled object's.
pub fn missing_verdict(
    compiled: &[u8],
    assembled: &[u8],
    file: &[u8],
    table: &[u8],
    places: &[u8],
    inputs: Inputs,
    ends: [usize; base_scope::CODE_INDICES],
    late: bool,
) -> Result<(), Refusal>
    requires { InputsRead compiled.now assembled.now file.now inputs table.now places.now
        × (ends ≡ span_ends (places_in places.now (line_count file.now)) file.now) × (late ≡ has_late_step (places_in places.now (line_count file.now)) file.now) }
    ensures { result ≡ missing_verdict inputs.order compiled.now assembled.now (places_in places.now (line_count file.now)) file.now }
{
    let c = missing_in_c(compiled, assembled, file, table, places, inputs, ends, late);
    base_answers::finding_verdict(base_scope::MISSING_SECTION, base_answers::COMPILED, c)?;
    let a = missing_in_a(assembled, inputs, ends, late);
    base_answers::finding_verdict(base_scope::MISSING_SECTION, base_answers::ASSEMBLED, a)
}
