// Where the lines of a block file lie in the compiled object: refusals 8 and 9, and the table of places that the draft and the merge go by. Each function equals its
// definition in specs/.
#![tactic(auto)]

ghost use Rattle.std.specs.Prelude.{◌≡◌, true, [], ◌∷◌, ◌+◌, ◌*◌, ◌^◌, ◌≤◌, ◌<◌, length};
ghost use Rattle.base_lists.specs.Windows.{spliced};
ghost use Rattle.base_lists.specs.Records.{flat};
ghost use Rattle.base_fields.specs.declared.ByteOrder.TheVariants.{Big};
ghost use Rattle.base_fields.specs.Numbers.{encoded};
ghost use Rattle.base_scope.specs.Codes.{LINES, line_code};
ghost use Rattle.base_scope.specs.Limits.{NUMBER_LIMIT, BLOCK_LIMIT, PLACE_ROW, PLACE_TABLE};
ghost use Rattle.elf_symbols.specs.Symbols.{Table};
ghost use Rattle.elf_index.specs.Index.{SymbolIndex};
ghost use Rattle.blocks_file.specs.Blocks.{block_count};
ghost use Rattle.blocks_file.specs.Table.{Parsed};
ghost use Rattle.blocks_places.specs.Lines.{line_count, span_value, labelled, span_label, span_size};
ghost use Rattle.blocks_places.specs.Places.{reached, places_of, live, end_at};
ghost use Rattle.blocks_places.specs.Faults.{odd_place};
ghost use Rattle.blocks_places.specs.Table.{place_in, places_in, held_size, Placement, off_step, low_place, on_step, on_after, step_of, AtLine};

use base_fields::ByteOrder;
use elf_symbols::SymbolTable;

// What the walk over all blocks may find: the block at fault by 8, or by 9.
#[derive(Clone, Copy)]
pub enum PlaceFault {
    Misplaced(usize),
    Misaligned(usize),
}

// What stands behind the key in line j, as a part of the block file. It ends in front of an LF, behind which the next group starts: nothing is searched.
pub fn span_value<'a>(file: &'a [u8], table: &[u8], j: usize) -> &'a [u8]
    requires { Parsed file.now table.now × (j < line_count file.now) }
    ensures { result.now ≡ span_value file.now j }
{
    let k = base_scope::line_code(j);
    let i = base_scope::line_block(j);
    let at = blocks_file::group_start(table, i, k as usize);
    let next = blocks_file::group_start(table, i, k as usize + 1);
    let from = at + blocks_lines::key_length(k);
    let to = next - 1;
    &file[from..to]
}

// The label of line j, as a part of the block file.
pub fn span_label<'a>(file: &'a [u8], table: &[u8], j: usize) -> &'a [u8]
    requires { Parsed file.now table.now × (j < line_count file.now) }
    ensures { result.now ≡ span_label file.now j }
{
    blocks_values::label_in(span_value(file, table, j))
}

// The size of line j, which has a label.
pub fn span_size(file: &[u8], table: &[u8], j: usize) -> usize
    requires { Parsed file.now table.now × (j < line_count file.now) × (labelled file.now j ≡ true) }
    ensures { (result ≡ span_size file.now j) × (result ≤ NUMBER_LIMIT) }
{
    blocks_values::decimal_of(blocks_values::size_in(span_value(file, table, j)))
}

// Whether line j has a label.
pub fn is_labelled(file: &[u8], table: &[u8], j: usize) -> bool
    requires { Parsed file.now table.now × (j < line_count file.now) }
    ensures { result ≡ labelled file.now j }
{
    let v = span_value(file, table, j);
    0 < v.len()
}

// What one line comes to in the walk: refused by 8, refused by 9; its row of the table of places; the end of its section behind it, and whether
// the line behind it is reached.
#[derive(Clone, Copy)]
struct LineStep {
    misplaced: bool,
    misaligned: bool,
    size: u32,
    place: u32,
    end: usize,
    on: bool,
}

// Whether the line behind line j is reached; `on` says whether line j leaves its block on.
fn on_after(j: usize, on: bool) -> bool
    ensures { result ≡ on_after j on }
{
    if base_scope::line_code(j) as usize == base_scope::LINES {
        return true;
    }
    on
}

// Refusal 8 of a place: size 0, or below the end of the block before.
fn is_low(place: usize, size: usize, end: usize) -> bool
    ensures { result ≡ low_place place size end }
{
    if size == 0 {
        return true;
    }
    place < end
}

// Refusal 9 of a place.
fn is_odd(place: usize, align8: usize) -> bool
    ensures { result ≡ odd_place place align8 }
{
    if align8 == 0 {
        return false;
    }
    align8 != 8 - place % 8
}

// The step of a line that is not taken.
fn off_step(misplaced: bool, end: usize, on: bool) -> LineStep
    ensures { result ≡ off_step misplaced end on }
{
    LineStep {
        misplaced,
        misaligned: false,
        size: 0,
        place: 0,
        end,
        on,
    }
}

// The step of a line that is taken.
fn on_step(place: u32, size: usize, align8: usize, end: usize, on: bool) -> LineStep
    requires { size ≤ NUMBER_LIMIT }
    ensures { result ≡ on_step place size align8 end on }
{
    let p = place as usize;
    let misplaced = is_low(p, size, end);
    let misaligned = is_odd(p, align8);
    LineStep {
        misplaced,
        misaligned,
        size: size as u32,
        place,
        end: p + size,
        on,
    }
}

// The step of line j, which has a label and is reached; `end` is the end of the block before in its section. The line is taken apart once.
fn label_step(
    order: ByteOrder,
    compiled: &[u8],
    symbols: SymbolTable,
    index: &[u8],
    file: &[u8],
    table: &[u8],
    j: usize,
    end: usize,
) -> LineStep
    requires { AtLine order compiled.now file.now symbols index.now table.now j × (end ≡ end_at (places_of order compiled.now file.now) file.now j (line_code j))
        × (labelled file.now j ≡ true) × (reached order compiled.now file.now j ≡ true) }
    ensures { result ≡ step_of order compiled.now file.now j }
{
    let v = span_value(file, table, j);
    let parts = blocks_values::line_parts(v);
    let e = parts.label;
    let k = elf_index::symbol_indexed(order, compiled, symbols, index, &v[0..e]);
    if k < symbols.count {
        let s = elf_symbols::symbol_at(order, compiled, symbols.at, k);
        return on_step(s.st_value, parts.size, parts.align8, end, on_after(j, true));
    }
    off_step(parts.size == 0, end, on_after(j, false))
}

// The step of line j; `on` says whether it is reached.
fn step_of(
    order: ByteOrder,
    compiled: &[u8],
    symbols: SymbolTable,
    index: &[u8],
    file: &[u8],
    table: &[u8],
    j: usize,
    end: usize,
    on: bool,
) -> LineStep
    requires { AtLine order compiled.now file.now symbols index.now table.now j × (end ≡ end_at (places_of order compiled.now file.now) file.now j (line_code j))
        × (on ≡ reached order compiled.now file.now j) }
    ensures { result ≡ step_of order compiled.now file.now j }
{
    if base_scope::both(is_labelled(file, table, j), on) {
        return label_step(order, compiled, symbols, index, file, table, j, end);
    }
    off_step(false, end, on_after(j, on))
}

// Writes row j of the table of places.
fn store_place(places: &mut [u8], j: usize, size: u32, place: u32)
    requires { (PLACE_ROW * j + PLACE_ROW ≤ length places.old) × (j < LINES * BLOCK_LIMIT) }
    ensures { places.new ≡ spliced places.old (PLACE_ROW * j) (flat (encoded Big 4) (size ∷ place ∷ [])) }
{
    let row = [size, place];
    base_fields::write_words(ByteOrder::Big, places, base_scope::PLACE_ROW * j, &row);
}

// The walk: every line in order, by 8 and then by 9; the rows of the lines before the fault, or of all, go into the table of places. `symbols` is the compiled
// object's symbol table in hand, `index` that of its names, `blocks` is how many blocks the file has.
pub fn place_spans(
    order: ByteOrder,
    compiled: &[u8],
    symbols: SymbolTable,
    index: &[u8],
    file: &[u8],
    table: &[u8],
    blocks: usize,
    places: &mut [u8],
) -> Result<(), PlaceFault>
    requires { Table order compiled.now symbols × Parsed file.now table.now × (blocks ≡ block_count file.now) × (PLACE_TABLE ≤ length places.old) × SymbolIndex order compiled.now index.now }
    ensures { Placement order compiled.now file.now result places.old places.new }
{
    let mut ends = [0usize; base_scope::LINE_INDICES];
    let mut on = true;
    for j in 0..base_scope::LINES * blocks {
        let c = base_scope::line_code(j) as usize;
        let s = step_of(order, compiled, symbols, index, file, table, j, ends[c], on);
        if s.misplaced {
            return Err(PlaceFault::Misplaced(base_scope::line_block(j)));
        }
        if s.misaligned {
            return Err(PlaceFault::Misaligned(base_scope::line_block(j)));
        }
        store_place(places, j, s.size, s.place);
        ends[c] = s.end;
        on = s.on;
    }
    Ok(())
}

// Whether the line of row j is taken.
pub fn is_taken(places: &[u8], j: usize) -> bool
    requires { (PLACE_ROW * j + PLACE_ROW ≤ length places.now) × (j < LINES * BLOCK_LIMIT) }
    ensures { result ≡ (place_in places.now j).taken }
{
    base_fields::read32(ByteOrder::Big, places, base_scope::PLACE_ROW * j) > 0
}

// The size of the line of row j, 0 where it is not taken. Of a table in hand it is the size that the line has (proofs/Walk.antt, `laid_size`).
pub fn size_of(places: &[u8], j: usize) -> usize
    requires { (PLACE_ROW * j + PLACE_ROW ≤ length places.now) × (j < LINES * BLOCK_LIMIT) }
    ensures { (result ≡ held_size places.now j) × (result < 2 ^ 32) }
{
    base_fields::read32(ByteOrder::Big, places, base_scope::PLACE_ROW * j) as usize
}

// The place of the line of row j, 0 where it is not taken.
pub fn place_of(places: &[u8], j: usize) -> usize
    requires { (PLACE_ROW * j + PLACE_ROW ≤ length places.now) × (j < LINES * BLOCK_LIMIT) }
    ensures { (result ≡ (place_in places.now j).at) × (result < 2 ^ 32) }
{
    base_fields::read32(ByteOrder::Big, places, base_scope::PLACE_ROW * j + 4) as usize
}

// Whether block i stays on: each of its lines that has a label is taken.
pub fn is_live(file: &[u8], table: &[u8], places: &[u8], i: usize) -> bool
    requires { Parsed file.now table.now × (PLACE_ROW * line_count file.now ≤ length places.now) × (i < block_count file.now) }
    ensures { result ≡ live (places_in places.now (line_count file.now)) file.now i }
{
    for j in base_scope::LINES * i..base_scope::LINES * (i + 1) {
        if is_labelled(file, table, j) {
            if !is_taken(places, j) {
                return false;
            }
        }
    }
    true
}
