// The compiled object and the block file, taken in: refusals 2 to 9, which the draft and the merge begin with. Each function equals its definition in specs/; where
// all pass, the two tables hold the blocks and the places of their lines; behind the table of blocks the index of C's names was, by which the labels were found.
#![tactic(auto)]

ghost use Rattle.std.specs.Prelude.{◌≡◌, ◌≤◌, length};
ghost use Rattle.base_buffers.specs.Parts.{part_at, KeptBefore};
ghost use Rattle.base_scope.specs.Limits.{FILE_LIMIT, BLOCK_TABLE, PLACE_TABLE, SYMBOL_INDEX, OPEN_TABLE};
ghost use Rattle.elf_symbols.specs.Symbols.{Table};
ghost use Rattle.elf_index.specs.Index.{SymbolIndex};
ghost use Rattle.elf_check.specs.Object.{check_of};
ghost use Rattle.blocks_file.specs.Blocks.{block_count};
ghost use Rattle.blocks_file.specs.Table.{Parsed, Reading};
ghost use Rattle.blocks_places.specs.Table.{Placement};
ghost use Rattle.open_inputs.specs.Open.{check_verdict, placing_verdict};
ghost use Rattle.open_inputs.specs.Opened.{Opening};

use base_answers::Refusal;
use base_fields::ByteOrder;
use blocks_file::BlockFile;
use blocks_places::PlaceFault;
use elf_symbols::SymbolTable;

// Refusals 2 to 6 of an object.
pub fn check_verdict(object: u32, file: &[u8]) -> Result<(), Refusal>
    ensures { result ≡ check_verdict object (check_of file.now) }
{
    match elf_check::check(file) {
        Ok(()) => Ok(()),
        Err(fault) => Err(Refusal {
            number: fault.number,
            object,
            place: fault.place as u64,
        }),
    }
}

// Refusals 8 and 9 of a block.
fn place_refusal(fault: PlaceFault) -> Refusal
    ensures { placing_verdict (Err fault) ≡ Err result }
{
    match fault {
        PlaceFault::Misplaced(block) => Refusal {
            number: base_scope::BLOCK_PLACE,
            object: base_answers::COMPILED,
            place: block as u64,
        },
        PlaceFault::Misaligned(block) => Refusal {
            number: base_scope::BLOCK_ALIGNMENT,
            object: base_answers::COMPILED,
            place: block as u64,
        },
    }
}

// Refusals 8 and 9.
fn placing_verdict(placing: Result<(), PlaceFault>) -> Result<(), Refusal>
    ensures { result ≡ placing_verdict placing }
{
    match placing {
        Ok(placed) => Ok(placed),
        Err(fault) => Err(place_refusal(fault)),
    }
}

// Reads the block file into the table of blocks.
fn read_rows(file: &[u8], table: &mut [u8]) -> BlockFile
    requires { (length file.now ≤ FILE_LIMIT) × (OPEN_TABLE ≤ length table.old) }
    ensures { Reading file.now result (part_at 0 BLOCK_TABLE table.old) (part_at 0 BLOCK_TABLE table.new) }
{
    let from = base_buffers::bound(0);
    let to = base_buffers::bound(base_scope::BLOCK_TABLE);
    blocks_file::read_blocks(file, &mut table[from..to])
}

// Indexes the names of the compiled object's symbols, behind the table of blocks.
fn index_names(order: ByteOrder, compiled: &[u8], symbols: SymbolTable, table: &mut [u8])
    requires { Table order compiled.now symbols × (OPEN_TABLE ≤ length table.old) }
    ensures { SymbolIndex order compiled.now (part_at BLOCK_TABLE SYMBOL_INDEX table.new) × KeptBefore BLOCK_TABLE table.old table.new }
{
    let from = base_buffers::bound(base_scope::BLOCK_TABLE);
    let to = base_buffers::bound(base_scope::OPEN_TABLE);
    elf_index::index_symbols(order, compiled, symbols, &mut table[from..to]);
}

// The places of the lines, which labels name by the index.
fn place_lines(
    order: ByteOrder,
    compiled: &[u8],
    symbols: SymbolTable,
    file: &[u8],
    blocks: usize,
    table: &mut [u8],
    places: &mut [u8],
) -> Result<(), PlaceFault>
    requires { Table order compiled.now symbols × Parsed file.now (part_at 0 BLOCK_TABLE table.old) × (blocks ≡ block_count file.now) × (PLACE_TABLE ≤ length places.old)
        × (OPEN_TABLE ≤ length table.old) }
    ensures { Placement order compiled.now file.now result places.old places.new × KeptBefore BLOCK_TABLE table.old table.new }
{
    index_names(order, compiled, symbols, table);
    let own = base_buffers::part(table, 0, base_scope::BLOCK_TABLE);
    let index = base_buffers::part(table, base_scope::BLOCK_TABLE, base_scope::SYMBOL_INDEX);
    blocks_places::place_spans(order, compiled, symbols, index, file, own, blocks, places)
}

// Takes in a compiled object and a block file: the number of blocks, or the refusal. The table of blocks stands at the front of its buffer. The tables need no particular contents before; after a refusal theirs are of no account.
pub fn open(
    compiled: &[u8],
    file: &[u8],
    table: &mut [u8],
    places: &mut [u8],
) -> Result<usize, Refusal>
    requires { (length file.now ≤ FILE_LIMIT) × (OPEN_TABLE ≤ length table.old) × (PLACE_TABLE ≤ length places.old) }
    ensures { Opening compiled.now file.now result (part_at 0 BLOCK_TABLE table.new) places.new }
{
    check_verdict(base_answers::COMPILED, compiled)?;
    let blocks = read_rows(file, table);
    let fault = blocks.fault;
    base_answers::finding_verdict(base_scope::BLOCK_FILE, base_answers::NONE, fault)?;
    let order = elf_readers::order_of(compiled);
    let symbols = elf_symbols::symbol_table(order, compiled);
    let count = blocks.count;
    let placing = place_lines(order, compiled, symbols, file, count, table, places);
    placing_verdict(placing)?;
    Ok(count)
}
