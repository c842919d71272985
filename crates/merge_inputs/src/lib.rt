// The inputs of a merge, taken in: what it begins with, as the draft does (2 to 9), then the assembled object by 2 to 6. Each function equals its definition in specs/;
// where all pass, the two tables hold the blocks and the places of their lines, and both objects are read by their views.
#![tactic(auto)]

ghost use Rattle.std.specs.Prelude.{◌≡◌, ◌≤◌, length};
ghost use Rattle.base_buffers.specs.Parts.{part_at};
ghost use Rattle.base_scope.specs.Limits.{FILE_LIMIT, BLOCK_TABLE, PLACE_TABLE, OPEN_TABLE};
ghost use Rattle.elf_readers.specs.Readers.{order_of};
ghost use Rattle.elf_check.specs.Sound.{Sound};
ghost use Rattle.merge_inputs.specs.Taken.{inputs_of, Took};

use base_answers::Refusal;
use base_fields::ByteOrder;
pub use elf_check;
use elf_check::View;

// What is in hand of accepted inputs: the byte order, the views of the compiled and of the assembled object, and the number of blocks.
#[derive(Clone, Copy)]
pub struct Inputs {
    pub order: ByteOrder,
    pub compiled: View,
    pub assembled: View,
    pub blocks: usize,
}

// The inputs by their views; `blocks` is how many blocks the file has.
pub fn inputs_of(compiled: &[u8], assembled: &[u8], blocks: usize) -> Inputs
    requires { Sound (order_of compiled.now) compiled.now × Sound (order_of compiled.now) assembled.now }
    ensures { result ≡ inputs_of compiled.now assembled.now blocks }
{
    let order = elf_readers::order_of(compiled);
    let target = elf_check::view_of(order, compiled);
    let source = elf_check::view_of(order, assembled);
    Inputs {
        order,
        compiled: target,
        assembled: source,
        blocks,
    }
}

// Takes in all of them: the number of blocks, or the refusal. The table of blocks stands at the front of its buffer. The tables need no particular contents before; after a refusal theirs are of no account.
pub fn take_inputs(
    compiled: &[u8],
    assembled: &[u8],
    file: &[u8],
    table: &mut [u8],
    places: &mut [u8],
) -> Result<usize, Refusal>
    requires { (length file.now ≤ FILE_LIMIT) × (OPEN_TABLE ≤ length table.old) × (PLACE_TABLE ≤ length places.old) }
    ensures { Took compiled.now assembled.now file.now result (part_at 0 BLOCK_TABLE table.new) places.new }
{
    let blocks = open_inputs::open(compiled, file, table, places)?;
    open_inputs::check_verdict(base_answers::ASSEMBLED, assembled)?;
    Ok(blocks)
}
