// The final .rodata from the end of the last .rodata block copied on, written in ascending order into a slice: C's bytes, A's late bytes and zeros, run by run. What is
// written is read in the table of the late step; that it is `late_rodata` of the crate late_moves (document 01, "Late words") is a law (proofs/Writing.antt,
// `rest_read_lem`). In front of it stands what block copying makes of .rodata.
#![tactic(auto)]

ghost use Rattle.std.specs.Prelude.{◌≡◌, ◌+◌, ◌≤◌, length};
ghost use Rattle.base_lists.specs.Windows.{spliced};
ghost use Rattle.base_buffers.specs.Buffers.{zeros};
ghost use Rattle.blocks_file.specs.Blocks.{block_count};
ghost use Rattle.late_runs.specs.Runs.{run_length};
ghost use Rattle.late_rodata.specs.Writing.{run_source, run_end, run_bytes, rest_read, RestInHand, AtOffset, WroteRun};

use base_fields::ByteOrder;
use late_runs::Run;

// Writes zeros at `at`.
fn write_zeros(out: &mut [u8], at: usize, size: usize)
    requires { at + size ≤ length out.old }
    ensures { out.new ≡ spliced out.old at (zeros size) }
{
    base_buffers::zero(&mut out[at..at + size]);
}

// Writes the bytes of a run that begins at offset k of .rodata at `at`, and answers how many they are; `rodata` is C's, `words` are the bytes of A's .late_rodata.
fn write_run_bytes(
    out: &mut [u8],
    at: usize,
    rodata: &[u8],
    words: &[u8],
    k: usize,
    run: Run,
) -> usize
    requires { (run_end k run ≤ length (run_source rodata.now words.now run)) × (at + run_length run ≤ length out.old) }
    ensures { (result ≡ run_length run) × (out.new ≡ spliced out.old at (run_bytes rodata.now words.now k run)) }
{
    match run {
        Run::Kept(size) => {
            base_fields::write_bytes(out, at, &rodata[k..k + size]);
            size
        }
        Run::Late(from, size) => {
            base_fields::write_bytes(out, at, &words[from..from + size]);
            size
        }
        Run::Zeros(size) => {
            write_zeros(out, at, size);
            size
        }
    }
}

// Writes the run at offset k of the final .rodata behind `at`, and answers where the next one begins.
fn write_run(
    out: &mut [u8],
    at: usize,
    order: ByteOrder,
    file: &[u8],
    table: &[u8],
    blocks: usize,
    rodata: &[u8],
    words: &[u8],
    late: &[u8],
    k: usize,
) -> usize
    requires { AtOffset order file.now rodata.now words.now table.now late.now k × (blocks ≡ block_count file.now) × (at + length rodata.now ≤ length out.old) }
    ensures { WroteRun order file.now rodata.now words.now late.now blocks at k result out.old out.new }
{
    let run = late_runs::run_at(order, file, table, rodata, blocks, late, k);
    k + write_run_bytes(out, at + k, rodata, words, k, run)
}

// Writes the final .rodata from `last`, the end of the last .rodata block copied, on; `at` is where .rodata begins in the output, `rodata` are C's bytes of it and `words`
// those of A's .late_rodata. `blocks` is how many blocks the file has.
pub fn write_rest(
    out: &mut [u8],
    at: usize,
    order: ByteOrder,
    file: &[u8],
    table: &[u8],
    blocks: usize,
    rodata: &[u8],
    words: &[u8],
    last: usize,
    late: &[u8],
)
    requires { RestInHand order file.now rodata.now words.now table.now late.now last × (blocks ≡ block_count file.now) × (at + length rodata.now ≤ length out.old) }
    ensures { out.new ≡ spliced out.old (at + last) (rest_read order file.now rodata.now words.now late.now blocks last) }
{
    let mut k = last;
    while k < rodata.len() {
        k = write_run(out, at, order, file, table, blocks, rodata, words, late, k);
    }
}
