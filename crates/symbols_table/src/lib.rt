// The symbol table of a merge's result, entry by entry, from the tables of the symbol merge: the order, the list and the rows of the ids, and the entry of an id
// (`symbols_entries`). Each function equals its definition in specs/Table.antt; proofs/Table.antt says that what is written is `result_symbols` of the crate symbols_ids.
// Document 01, "Symbols".
#![tactic(auto)]

ghost use Rattle.std.specs.Prelude.{◌≡◌, ◌+◌, ◌*◌, ◌≤◌, ◌<◌, length};
ghost use Rattle.base_lists.specs.Windows.{spliced};
ghost use Rattle.symbols_entries.specs.of_symbols_ids.Table.{null_entry};
ghost use Rattle.symbols_table.specs.Table.{id_at, entry_in, symbols_table_in, InOrder, SymbolsReady};

use elf_records::SymbolEntry;
pub use symbols_chain;
use symbols_chain::Numbering;
pub use symbols_chain::{merge_inputs, merge_sections, symbols_fill};
pub use symbols_entries::{symbols_names, symbols_taken};

// Entry 0: zeros.
fn null_entry() -> SymbolEntry
    ensures { result ≡ null_entry }
{
    SymbolEntry {
        st_name: 0,
        st_value: 0,
        st_size: 0,
        st_info: 0,
        st_other: 0,
        st_shndx: 0,
    }
}

// The id at place k of the order.
fn id_in_order(list: &[u8], order: &[u8], k: usize) -> usize
    requires { InOrder list.now order.now k }
    ensures { result ≡ id_at list.now order.now k }
{
    symbols_rows::half_at(list, symbols_rows::half_at(order, k))
}

// Entry k of the result: behind entry 0 stands that of the id at place k - 1 of the order.
pub fn entry_at<'a>(
    compiled: &'a [u8],
    assembled: &'a [u8],
    statics: &[u8],
    marks: &[u8],
    rows: &[u8],
    list: &[u8],
    order: &[u8],
    n: Numbering,
    k: usize,
) -> SymbolEntry
    requires { SymbolsReady compiled.now assembled.now statics.now marks.now rows.now list.now order.now n × (k < n.count) }
    ensures { (result ≡ entry_in compiled.now assembled.now statics.now marks.now rows.now list.now order.now n k)
        × (result.st_shndx < 65536) }
{
    if k == 0 {
        return null_entry();
    }
    let id = id_in_order(list, order, k - 1);
    let row = symbols_rows::id_at(rows, id);
    let filling = n.filling;
    let inputs = filling.inputs;
    let endian = inputs.order;
    let sources = filling.sources;
    symbols_entries::entry_of_id(
        endian,
        compiled,
        assembled,
        statics,
        marks,
        sources,
        filling.mode,
        row.section,
        row.value,
        id,
    )
}

// Writes the entries one behind the other from `at` on, and answers where they end.
pub fn write_symbols<'a>(
    out: &mut [u8],
    at: usize,
    compiled: &'a [u8],
    assembled: &'a [u8],
    statics: &[u8],
    marks: &[u8],
    rows: &[u8],
    list: &[u8],
    order: &[u8],
    n: Numbering,
) -> usize
    requires { SymbolsReady compiled.now assembled.now statics.now marks.now rows.now list.now order.now n × (at + 16 * n.count ≤ length out.old) }
    ensures { (out.new ≡ spliced out.old at
        (symbols_table_in compiled.now assembled.now statics.now marks.now rows.now list.now order.now n))
        × (result ≡ at + 16 * n.count) }
{
    let filling = n.filling;
    let inputs = filling.inputs;
    let endian = inputs.order;
    for k in 0..n.count {
        let e = entry_at(compiled, assembled, statics, marks, rows, list, order, n, k);
        e.write(endian, out, at + SymbolEntry::SIZE * k);
    }
    at + SymbolEntry::SIZE * n.count
}
