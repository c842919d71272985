// What the merge writes over C's sections, each by itself, once 11 to 13 have passed: the search for late words with refusal 14, a section after block copying, the late
// target with its late moves, .reginfo. Each function equals its definition in specs/Sections.antt; a section that is not the late target is stated by `copied`, which is its
// `result_section` (proofs/Sections.antt, `section_plain`).
#![tactic(auto)]

ghost use Rattle.std.specs.Prelude.{◌≡◌, true, ◌+◌, ◌≤◌, length};
ghost use Rattle.base_lists.specs.Windows.{spliced};
ghost use Rattle.base_scope.specs.Codes.{LATE_TARGET, REGINFO, holds_bytes};
ghost use Rattle.base_scope.specs.Limits.{LATE_TABLE};
ghost use Rattle.elf_readers.specs.Readers.{coded_contents};
ghost use Rattle.elf_check.specs.View.{Viewed};
ghost use Rattle.blocks_places.specs.Lines.{line_count};
ghost use Rattle.blocks_places.specs.Table.{places_in};
ghost use Rattle.blocks_spans.specs.Spans.{spans_of};
ghost use Rattle.blocks_spans.specs.Copied.{copied};
ghost use Rattle.merge_line_up.specs.of_merge_inputs.Taken.{InputsRead};
ghost use Rattle.merge_line_up.specs.of_merge_missing.Complete.{Complete};
ghost use Rattle.merge_sections.specs.Sections.{result_section, register_bytes};
ghost use Rattle.merge_sections.specs.Stages.{StageRead, Searchable, Searched, Movable};

use late_finals::late_length::LateStep;
use late_laws::late_walk;
pub use merge_line_up::merge_inputs;
use merge_line_up::merge_inputs::Inputs;

// What is in hand once 11 to 13 have passed: the inputs, and the late step.
#[derive(Clone, Copy)]
pub struct Stage {
    pub inputs: Inputs,
    pub step: LateStep,
}

// Refusal 14, where there is a late step, and the table of its moves. It searches C's own bytes: block copying changes nothing from the last place on.
pub fn late_fault(
    compiled: &[u8],
    file: &[u8],
    table: &[u8],
    places: &[u8],
    stage: Stage,
    late: &mut [u8],
) -> Option<usize>
    requires { Searchable compiled.now file.now stage table.now places.now × (LATE_TABLE ≤ length late.old) }
    ensures { Searched compiled.now file.now stage (places_in places.now (line_count file.now)) result late.new }
{
    let step = stage.step;
    if step.runs {
        let inputs = stage.inputs;
        let order = inputs.order;
        let view = inputs.compiled;
        let target = elf_check::coded_contents(order, compiled, view, base_scope::LATE_TARGET);
        let blocks = inputs.blocks;
        return late_walk::place_late(order, file, table, places, blocks, target, step, late);
    }
    None
}

// Writes C's section of a code after block copying at `at`, and answers where it ends.
pub fn write_section(
    out: &mut [u8],
    at: usize,
    compiled: &[u8],
    assembled: &[u8],
    file: &[u8],
    table: &[u8],
    places: &[u8],
    inputs: Inputs,
    code: u32,
) -> usize
    requires { InputsRead compiled.now assembled.now file.now inputs table.now places.now
        × Complete inputs.order compiled.now assembled.now (places_in places.now (line_count file.now)) file.now × (holds_bytes code ≡ true)
        × (at + length (coded_contents inputs.order compiled.now code) ≤ length out.old) }
    ensures { (result ≡ at + length (coded_contents inputs.order compiled.now code))
        × (out.new ≡ spliced out.old at (copied (spans_of (places_in places.now (line_count file.now)) file.now code) (coded_contents inputs.order compiled.now code) (coded_contents inputs.order assembled.now code))) }
{
    let order = inputs.order;
    let own = inputs.compiled;
    let target = elf_check::coded_contents(order, compiled, own, code);
    let other = inputs.assembled;
    let source = elf_check::coded_contents(order, assembled, other, code);
    let blocks = inputs.blocks;
    copy_spans::write_copied(out, at, file, table, places, blocks, code, target, source);
    at + target.len()
}

// Writes C's late target after block copying and, where there is a late step, after its moves, at `at`, and answers where it ends. `late` has the moves.
pub fn write_late_target(
    out: &mut [u8],
    at: usize,
    compiled: &[u8],
    assembled: &[u8],
    file: &[u8],
    table: &[u8],
    places: &[u8],
    stage: Stage,
    late: &[u8],
) -> usize
    requires { StageRead compiled.now assembled.now file.now stage table.now places.now × Movable compiled.now file.now stage (places_in places.now (line_count file.now)) late.now
        × (at + length (coded_contents stage.inputs.order compiled.now LATE_TARGET) ≤ length out.old) }
    ensures { (result ≡ at + length (coded_contents stage.inputs.order compiled.now LATE_TARGET))
        × (out.new ≡ spliced out.old at (result_section stage.inputs.order compiled.now assembled.now (places_in places.now (line_count file.now)) file.now LATE_TARGET)) }
{
    let inputs = stage.inputs;
    let step = stage.step;
    if step.runs {
        let order = inputs.order;
        let own = inputs.compiled;
        let target = elf_check::coded_contents(order, compiled, own, base_scope::LATE_TARGET);
        let other = inputs.assembled;
        let source = elf_check::coded_contents(order, assembled, other, base_scope::LATE_TARGET);
        let words = elf_check::coded_contents(order, assembled, other, base_scope::LATE_RODATA);
        let blocks = inputs.blocks;
        let last = step.last;
        let front = &target[..last];
        let code = base_scope::LATE_TARGET;
        copy_spans::write_copied(out, at, file, table, places, blocks, code, front, source);
        late_rodata::write_rest(
            out, at, order, file, table, blocks, target, words, last, late,
        );
        return at + target.len();
    }
    write_section(
        out,
        at,
        compiled,
        assembled,
        file,
        table,
        places,
        inputs,
        base_scope::LATE_TARGET,
    )
}

// Writes C's .reginfo, with A's ORed into it, at `at`.
pub fn write_registers(out: &mut [u8], at: usize, compiled: &[u8], assembled: &[u8], inputs: Inputs)
    requires { Viewed inputs.order compiled.now inputs.compiled × Viewed inputs.order assembled.now inputs.assembled
        × (at + length (coded_contents inputs.order compiled.now REGINFO) ≤ length out.old) }
    ensures { out.new ≡ spliced out.old at (register_bytes inputs.order compiled.now assembled.now) }
{
    let order = inputs.order;
    let own = inputs.compiled;
    let target = elf_check::coded_contents(order, compiled, own, base_scope::REGINFO);
    let other = inputs.assembled;
    let source = elf_check::coded_contents(order, assembled, other, base_scope::REGINFO);
    copy_registers::write_reginfo(out, at, target, source);
}
