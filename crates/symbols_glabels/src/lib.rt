// What the glabels of a block file make of the assembled object's symbols (document 01, "Symbols": "A's glabels become type 2, with size if first in a .text block (last
// block wins)"): a word for each symbol, which equals `glabel_word` of its name (specs/Words.antt); proofs/Words.antt reads the answers back from it. `mark_glabels`
// makes the words over an index of the symbols by their names (the crate elf_index): each glabel walks its bucket only, and no further than to a symbol of the name whose word
// stays.
#![tactic(auto)]

ghost use Rattle.std.specs.Prelude.{◌≡◌, true, ℕ, ◌+◌, ◌*◌, ◌≤◌, ◌<◌, length};
ghost use Rattle.base_lists.specs.Rows.{has_index};
ghost use Rattle.base_scope.specs.Codes.{TEXT, line_of};
ghost use Rattle.base_scope.specs.Limits.{NUMBER_LIMIT, SYMBOL_LIMIT};
ghost use Rattle.base_index.specs.Index.{hash_of};
ghost use Rattle.elf_symbols.specs.Symbols.{symbol_count, symbol_name, is_symbol_named, Table, Entries};
ghost use Rattle.elf_index.specs.Index.{SymbolIndex};
ghost use Rattle.blocks_lines.specs.Keys.{KEY_GLABEL, is_key_line, value_at};
ghost use Rattle.blocks_file.specs.Blocks.{group_at, block_at, block_count};
ghost use Rattle.blocks_file.specs.Table.{Parsed};
ghost use Rattle.blocks_places.specs.Lines.{line_count, labelled, span_size};
ghost use Rattle.blocks_places.specs.Table.{places_in};
ghost use Rattle.blocks_glabels.specs.Glabels.{glabel_count, glabel, is_glabel_at, is_glabel, gives_size};
ghost use Rattle.symbols_glabels.specs.Words.{glabel_word, mark_in, new_word, Marked, Holds, Visited, Uniform, is_in_group, size_below, GlabelsReady};

use base_fields::ByteOrder;
use elf_symbols::SymbolTable;

// Whether symbol k has a name, of which the hash is in hand: names are read only where the hashes agree.
fn is_named(
    order: ByteOrder,
    assembled: &[u8],
    at: usize,
    strings: &[u8],
    index: &[u8],
    name: &[u8],
    hash: u32,
    k: usize,
) -> bool
    requires { Entries order assembled.now at strings.now × (k < symbol_count order assembled.now) × SymbolIndex order assembled.now index.now × (hash ≡ hash_of name.now) }
    ensures { result ≡ is_symbol_named order assembled.now name.now k }
{
    if base_index::hash_at(index, k) == hash {
        let s = elf_symbols::symbol_at(order, assembled, at, k);
        return base_names::name_is(strings, s.st_name as usize, name);
    }
    false
}

// A word with bit 0 set, or, where `put` is not 0, with `put` behind bit 0.
fn new_word(put: u32, word: u32) -> u32
    requires { put ≤ NUMBER_LIMIT + 1 }
    ensures { result ≡ new_word put word }
{
    if put == 0 {
        return word / 2 * 2 + 1;
    }
    word % 2 + 2 * put
}

// Makes word k new. Whether that changes it.
fn renew(put: u32, k: usize, marks: &mut [u8]) -> bool
    requires { (put ≤ NUMBER_LIMIT + 1) × (k < SYMBOL_LIMIT) × (4 * SYMBOL_LIMIT ≤ length marks.old) }
    ensures { Visited (λ j. true) put k SYMBOL_LIMIT result marks.old marks.new }
{
    let word = base_fields::read32(ByteOrder::Big, marks, 4 * k);
    let new = new_word(put, word);
    if new != word {
        base_fields::write32(ByteOrder::Big, marks, 4 * k, new);
        return true;
    }
    false
}

// Makes the word of symbol k new, where it has the name. False where it had that word, and with it every symbol of the name.
fn mark_symbol(
    order: ByteOrder,
    assembled: &[u8],
    at: usize,
    strings: &[u8],
    index: &[u8],
    name: &[u8],
    hash: u32,
    put: u32,
    k: usize,
    marks: &mut [u8],
) -> bool
    requires { Entries order assembled.now at strings.now × (k < symbol_count order assembled.now) × (put ≤ NUMBER_LIMIT + 1) × (4 * SYMBOL_LIMIT ≤ length marks.old)
        × SymbolIndex order assembled.now index.now × (hash ≡ hash_of name.now) }
    ensures { Visited (is_symbol_named order assembled.now name.now) put k (symbol_count order assembled.now) result marks.old marks.new }
{
    if is_named(order, assembled, at, strings, index, name, hash, k) {
        return renew(put, k, marks);
    }
    true
}

// Makes the words of all symbols of a name new: bit 0 where `put` is 0, else their sizes. Only the name's bucket is walked,
// and no further than to a symbol of the name whose word stays, since all of a name have one word.
fn mark_named(
    order: ByteOrder,
    assembled: &[u8],
    symbols: SymbolTable,
    index: &[u8],
    name: &[u8],
    put: u32,
    marks: &mut [u8],
)
    requires { Table order assembled.now symbols × SymbolIndex order assembled.now index.now × (put ≤ NUMBER_LIMIT + 1) × Uniform order assembled.now marks.old }
    ensures { Marked (is_symbol_named order assembled.now name.now) put (symbol_count order assembled.now) marks.old marks.new }
{
    let strings = elf_symbols::strings_of(assembled, symbols);
    let at = symbols.at;
    let n = symbols.count;
    let hash = base_index::hash_of(name);
    let mut k = base_index::head_of(index, base_scope::SYMBOL_LIMIT, n, hash);
    while k < n {
        if !mark_symbol(
            order, assembled, at, strings, index, name, hash, put, k, marks,
        ) {
            return;
        }
        k = base_index::next_of(index, base_scope::SYMBOL_LIMIT, k);
    }
}

// The first glabel of block i, which has one, as a part of the block file.
fn first_glabel<'a>(file: &'a [u8], table: &[u8], i: usize) -> &'a [u8]
    requires { Parsed file.now table.now × (i < block_count file.now) × (is_key_line file.now KEY_GLABEL (group_at file.now (block_at file.now i) KEY_GLABEL) ≡ true) }
    ensures { result.now ≡ glabel file.now i 0 }
{
    let at = blocks_file::group_start(table, i, blocks_lines::KEY_GLABEL as usize);
    blocks_lines::value_at(file, blocks_lines::KEY_GLABEL, at)
}

// One more than the size of block i's span in .text.
fn size_put(file: &[u8], table: &[u8], i: usize) -> u32
    requires { Parsed file.now table.now × (i < block_count file.now) × (labelled file.now (line_of i TEXT) ≡ true) }
    ensures { (result ≡ span_size file.now (line_of i TEXT) + 1) × (result ≤ NUMBER_LIMIT + 1) }
{
    let size = blocks_places::span_size(file, table, base_scope::line_of(i, base_scope::TEXT));
    size as u32 + 1
}

// Puts the size that block i gives its first glabel, if it gives one.
fn mark_size(
    order: ByteOrder,
    assembled: &[u8],
    symbols: SymbolTable,
    file: &[u8],
    table: &[u8],
    places: &[u8],
    index: &[u8],
    i: usize,
    marks: &mut [u8],
)
    requires { GlabelsReady order assembled.now symbols file.now table.now places.now index.now × (i < block_count file.now) × Uniform order assembled.now marks.old }
    ensures { Marked (λ k. gives_size (places_in places.now (line_count file.now)) file.now (symbol_name order assembled.now k) i)
        (span_size file.now (line_of i TEXT) + 1) (symbol_count order assembled.now) marks.old marks.new }
{
    if blocks_items::is_sized(file, table, places, i) {
        let name = first_glabel(file, table, i);
        let put = size_put(file, table, i);
        mark_named(order, assembled, symbols, index, name, put, marks);
    }
}

// Puts the sizes that the blocks give, in order, so that the last one stays.
fn mark_sizes(
    order: ByteOrder,
    assembled: &[u8],
    symbols: SymbolTable,
    file: &[u8],
    table: &[u8],
    places: &[u8],
    blocks: usize,
    index: &[u8],
    marks: &mut [u8],
)
    requires { GlabelsReady order assembled.now symbols file.now table.now places.now index.now × (blocks ≡ block_count file.now) × (4 * SYMBOL_LIMIT ≤ length marks.old)
        × ((k : ℕ) → k < symbol_count order assembled.now → mark_in marks.old k ≡ 0) }
    ensures { Holds (λ k. size_below (places_in places.now (line_count file.now)) file.now (symbol_name order assembled.now k) (block_count file.now))
        (symbol_count order assembled.now) marks.old marks.new }
{
    for i in 0..blocks {
        mark_size(
            order, assembled, symbols, file, table, places, index, i, marks,
        );
    }
}

// Sets bit 0 of the symbols that the line at `at` names.
fn mark_line(
    order: ByteOrder,
    assembled: &[u8],
    symbols: SymbolTable,
    file: &[u8],
    index: &[u8],
    at: usize,
    marks: &mut [u8],
)
    requires { Table order assembled.now symbols × SymbolIndex order assembled.now index.now × (is_key_line file.now KEY_GLABEL at ≡ true) × Uniform order assembled.now marks.old }
    ensures { Marked (is_symbol_named order assembled.now (value_at file.now KEY_GLABEL at)) 0 (symbol_count order assembled.now) marks.old marks.new }
{
    let name = blocks_lines::value_at(file, blocks_lines::KEY_GLABEL, at);
    mark_named(order, assembled, symbols, index, name, 0, marks);
}

// Sets bit 0 of the symbols that the lines `glabel=` at `from` name.
fn mark_group(
    order: ByteOrder,
    assembled: &[u8],
    symbols: SymbolTable,
    file: &[u8],
    index: &[u8],
    from: usize,
    marks: &mut [u8],
)
    requires { Table order assembled.now symbols × SymbolIndex order assembled.now index.now × (from ≤ length file.now) × Uniform order assembled.now marks.old }
    ensures { Marked (λ k. is_in_group file.now from (symbol_name order assembled.now k)) 0 (symbol_count order assembled.now) marks.old marks.new }
{
    let mut at = from;
    while blocks_lines::is_key_line(file, blocks_lines::KEY_GLABEL, at) {
        mark_line(order, assembled, symbols, file, index, at, marks);
        at = blocks_lines::line_end(file, at) + 1;
    }
}

// Sets bit 0 of the symbols that block i's glabels name, if it stays on.
fn mark_block(
    order: ByteOrder,
    assembled: &[u8],
    symbols: SymbolTable,
    file: &[u8],
    table: &[u8],
    places: &[u8],
    index: &[u8],
    i: usize,
    marks: &mut [u8],
)
    requires { GlabelsReady order assembled.now symbols file.now table.now places.now index.now × (i < block_count file.now) × Uniform order assembled.now marks.old }
    ensures { Marked (λ k. has_index (is_glabel_at (places_in places.now (line_count file.now)) file.now (symbol_name order assembled.now k)) (glabel_count file.now) i)
        0 (symbol_count order assembled.now) marks.old marks.new }
{
    if blocks_places::is_live(file, table, places, i) {
        let from = blocks_file::group_start(table, i, blocks_lines::KEY_GLABEL as usize);
        mark_group(order, assembled, symbols, file, index, from, marks);
    }
}

// Sets bit 0 of the symbols that the glabels of the blocks that stay on name.
fn mark_live(
    order: ByteOrder,
    assembled: &[u8],
    symbols: SymbolTable,
    file: &[u8],
    table: &[u8],
    places: &[u8],
    blocks: usize,
    index: &[u8],
    marks: &mut [u8],
)
    requires { GlabelsReady order assembled.now symbols file.now table.now places.now index.now × (blocks ≡ block_count file.now) × Uniform order assembled.now marks.old }
    ensures { Marked (λ k. is_glabel (places_in places.now (line_count file.now)) file.now (symbol_name order assembled.now k))
        0 (symbol_count order assembled.now) marks.old marks.new }
{
    for block in 0..blocks {
        mark_block(
            order, assembled, symbols, file, table, places, index, block, marks,
        );
    }
}

// Zeroes the first n words.
fn clear_marks(n: usize, marks: &mut [u8])
    requires { (n ≤ SYMBOL_LIMIT) × (4 * SYMBOL_LIMIT ≤ length marks.old) }
    ensures { Holds (λ k. 0) n marks.old marks.new }
{
    let end = 4 * n;
    base_buffers::zero(&mut marks[0..end]);
}

// The words of all symbols. `index` is what `elf_index::index_symbols` made of them, `blocks` is how many blocks the file has; `marks` needs no particular contents.
pub fn mark_glabels(
    order: ByteOrder,
    assembled: &[u8],
    symbols: SymbolTable,
    file: &[u8],
    table: &[u8],
    places: &[u8],
    blocks: usize,
    index: &[u8],
    marks: &mut [u8],
)
    requires { GlabelsReady order assembled.now symbols file.now table.now places.now index.now × (blocks ≡ block_count file.now) × (4 * SYMBOL_LIMIT ≤ length marks.old) }
    ensures { Holds (λ k. glabel_word (places_in places.now (line_count file.now)) file.now (symbol_name order assembled.now k))
        (symbol_count order assembled.now) marks.old marks.new }
{
    clear_marks(symbols.count, marks);
    mark_sizes(
        order, assembled, symbols, file, table, places, blocks, index, marks,
    );
    mark_live(
        order, assembled, symbols, file, table, places, blocks, index, marks,
    );
}
