// The holders of the list's positions, found through its index. What the pieces of the symbol merge leave one behind the other is in specs/Chain.antt, and what that is of the
// candidates of the merge (crate symbols_ids) in proofs/Result.antt. Document 01, "Symbols".
#![tactic(auto)]

ghost use Rattle.std.specs.Prelude.{◌*◌, ◌≤◌, length};
ghost use Rattle.base_scope.specs.Limits.{ID_LIMIT};
ghost use Rattle.base_index.specs.Index.{Room};
ghost use Rattle.symbols_rows.specs.Rows.{HoldersOf};
ghost use Rattle.symbols_fill.specs.of_symbols_holders.Ready.{KnownHashes, symbols_in, HoldersReady};

use base_fields::ByteOrder;
pub use merge_sections;
pub use merge_sections::merge_inputs;
pub use symbols_fill;
use symbols_fill::symbols_names::Sources;
use symbols_fill::{Filling, symbols_holders};

// What is in hand of the result's symbols: what they were filled by, how many of its entries are local and how many it has, entry 0 counted in both.
#[derive(Clone, Copy)]
pub struct Numbering {
    pub filling: Filling,
    pub locals: usize,
    pub count: usize,
}

// Indexes the m positions of the list, and leaves their holders. The index has the hashes of A's names from `known` on, and `holders` needs no particular contents.
pub fn hold_symbols<'a>(
    order: ByteOrder,
    compiled: &'a [u8],
    assembled: &'a [u8],
    statics: &[u8],
    sources: Sources,
    rows: &[u8],
    list: &[u8],
    known: usize,
    m: usize,
    index: &mut [u8],
    holders: &mut [u8],
)
    requires { HoldersReady order compiled.now assembled.now statics.now sources rows.now list.now m × Room ID_LIMIT index.old × (2 * m ≤ length holders.old)
        × KnownHashes order assembled.now known index.old }
    ensures { HoldersOf (symbols_in order compiled.now assembled.now statics.now sources rows.now) holders.new m }
{
    symbols_holders::index_list(
        order, compiled, assembled, statics, sources, list, known, m, index,
    );
    symbols_holders::hold_names(
        order, compiled, assembled, statics, sources, rows, list, index, m, holders,
    );
}
