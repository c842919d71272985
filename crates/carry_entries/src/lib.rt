// The entries of an object's relocation tables in the result, and refusal 20 (specs/Entries.antt). Each function equals its definition over what is in hand (specs/Code.antt);
// proofs/InHand.antt says what that is of C, A and the block file. Document 01, "Carrying".
#![tactic(auto)]

ghost use Rattle.std.specs.Prelude.{◌≡◌, true, false, cond, ◌&&◌, ◌⊎◌, List, ℕ, ◌+◌, ◌-◌, ◌*◌, ◌^◌, ◌≤◌, ◌<◌, min, length, leb, ltb};
ghost use Rattle.base_lists.specs.Ranges.{first};
ghost use Rattle.base_lists.specs.Written.{Written};
ghost use Rattle.base_packed.specs.Packed.{kind_of, relocation_info};
ghost use Rattle.base_scope.specs.Codes.{leaves_out, is_late_target};
ghost use Rattle.base_scope.specs.Limits.{FILE_LIMIT, BLOCK_LIMIT, SPAN_ROW};
ghost use Rattle.base_fields.specs.Layouts.{width_of};
ghost use Rattle.elf_records.specs.Relocation.{relocation_layout, has_addend};
ghost use Rattle.elf_readers.specs.Readers.{section_count};
ghost use Rattle.elf_readers.specs.Bounds.{Headed};
ghost use Rattle.elf_relocations.specs.Relocations.{is_table, relocation_count, relocation};
ghost use Rattle.elf_check.specs.View.{Viewed};
ghost use Rattle.blocks_spans.specs.Spans.{span_end, replaced_word};
ghost use Rattle.blocks_spans.specs.Table.{span_in, spans_in, Rows, ends_behind};
ghost use Rattle.carry_clash.specs.of_late_lookups.Fields.{offset_at, jump_at};
ghost use Rattle.carry_clash.specs.of_symbols_taken.Code.{LateIn};
ghost use Rattle.symbols_numbers.specs.Numbers.{new_in};
ghost use Rattle.carry_clash.specs.Clash.{is_carried};
ghost use Rattle.carry_entries.specs.declared.Goal.TheVariants.{Unmoved};
ghost use Rattle.carry_entries.specs.Entries.{is_left_out, is_stuck, is_in_result, new_number, OFFSETS, carried_bytes, is_lost, loss_in, loss_finding};
ghost use Rattle.carry_entries.specs.Carried.{pick_goal};
ghost use Rattle.carry_entries.specs.Code.{late_goal, pick_tables, moves_of, is_gone_in, goal_in, carrying_in, symbol_in, is_lost_entry, carried_to, placed_bytes, is_still, StandsAt};
ghost use Rattle.carry_entries.specs.Code.{entry_table_of, TableRead, IsGap, Stays, SymbolsRead, EntriesRead};

use base_fields::ByteOrder;
use base_packed::MergedSymbol;
use carry_clash::{late_lookups, symbols_taken};
use elf_check::View;
use elf_records::RelocationEntry;

// Offsets are below.
const OFFSETS: usize = 4294967296;

// Where an entry goes: to a place, or nowhere: its word is written anew, or its late word is not moved.
#[derive(Clone, Copy)]
pub enum Goal {
    To(u32),
    LeftOut,
    Unmoved,
}

// What is in hand of an object whose entries are carried: whether it is C, its byte order and view; how many spans .text has; whether the late step runs, and over how many
// blocks; and the id of its symbol 0.
#[derive(Clone, Copy)]
pub struct Side {
    pub compiled: bool,
    pub order: ByteOrder,
    pub view: View,
    pub spans: usize,
    pub runs: bool,
    pub blocks: usize,
    pub first: usize,
}

// What of it says where entries go: whether it is C, how many spans .text has, and the late step.
#[derive(Clone, Copy)]
struct Moves {
    pub compiled: bool,
    pub spans: usize,
    pub runs: bool,
    pub blocks: usize,
}

// That of an object.
fn moves_of(side: Side) -> Moves
    ensures { result ≡ moves_of side }
{
    let compiled = side.compiled;
    let spans = side.spans;
    let runs = side.runs;
    let blocks = side.blocks;
    Moves {
        compiled,
        spans,
        runs,
        blocks,
    }
}

// A relocation table: its section, the code of the section that it relocates, where its entries start in the file, whether they have addends, and the bytes of an entry.
#[derive(Clone, Copy)]
struct EntryTable {
    pub index: usize,
    pub code: u32,
    pub at: usize,
    pub rela: bool,
    pub size: usize,
}

// Offsets from `low` up to `high`, none of which starts a replaced word, and the row of the span behind them. Entries mostly ascend, so the gap of one often tells of the next.
#[derive(Clone, Copy)]
struct Gap {
    pub low: usize,
    pub high: usize,
    pub row: usize,
}

// Whether offset x is in a gap.
fn is_in_gap(gap: Gap, x: usize) -> bool
    ensures { result ≡ (leb gap.low x && ltb x gap.high) }
{
    base_scope::both(gap.low <= x, x < gap.high)
}

// Where the span of row r ends.
fn row_end(rows: &[u8], r: usize) -> usize
    requires { (SPAN_ROW * r + SPAN_ROW ≤ length rows.now) × (r < BLOCK_LIMIT) }
    ensures { result ≡ span_end (span_in rows.now r) }
{
    let s = blocks_spans::span_at(rows, r);
    s.place + s.size
}

// Where the span of the row before row r ends: 0 where there is none.
fn end_before(rows: &[u8], r: usize) -> usize
    requires { (SPAN_ROW * r ≤ length rows.now) × (r ≤ BLOCK_LIMIT) }
    ensures { result ≡ cond (ltb 0 r) (span_end (span_in rows.now (r - 1))) 0 }
{
    if 0 < r {
        return row_end(rows, r - 1);
    }
    0
}

// The place of the span of row r of n rows: behind all offsets where there is none.
fn place_of(rows: &[u8], n: usize, r: usize) -> usize
    requires { Rows rows.now n }
    ensures { result ≡ cond (ltb r n) (span_in rows.now r).place OFFSETS }
{
    if r < n {
        let s = blocks_spans::span_at(rows, r);
        return s.place;
    }
    OFFSETS
}

// The gap before the span of row r of n rows, and behind the last span where r is n.
fn gap_before(rows: &[u8], n: usize, r: usize) -> Gap
    requires { Rows rows.now n × (r ≤ n) }
    ensures { IsGap rows.now n result }
{
    Gap {
        low: end_before(rows, r),
        high: place_of(rows, n, r),
        row: r,
    }
}

// The first of n rows whose span ends behind offset x, or n: a binary search.
fn row_behind(rows: &[u8], n: usize, x: usize) -> usize
    requires { Rows rows.now n }
    ensures { result ≡ first (ends_behind (spans_in rows.now n) x) 0 n }
{
    let mut low: usize = 0;
    let mut high = n;
    while low < high {
        let mid = low + (high - low) / 2;
        if x < row_end(rows, mid) {
            high = mid;
        } else {
            low = mid + 1;
        }
    }
    low
}

// A gap for offset x, which `gap` does not hold: the next one, or `gap` itself where the span between the two covers x; else the last one that starts at x or before.
fn gap_beside(rows: &[u8], n: usize, x: usize, gap: Gap) -> Gap
    requires { Rows rows.now n }
    ensures { (result ≡ gap) ⊎ IsGap rows.now n result }
{
    if gap.row < n {
        let next = gap_before(rows, n, gap.row + 1);
        if is_in_gap(next, x) {
            return next;
        }
        if base_scope::both(gap.high <= x, x < next.low) {
            return gap;
        }
    }
    gap_before(rows, n, row_behind(rows, n, x))
}

// Whether offset x is the start of a replaced word: the span of row r is asked first, then all of them.
fn is_word(rows: &[u8], n: usize, r: usize, x: usize) -> bool
    requires { Rows rows.now n }
    ensures { result ≡ replaced_word (spans_in rows.now n) x }
{
    if r < n {
        let s = blocks_spans::span_at(rows, r);
        if s.place <= x {
            if x - s.place < s.size {
                return (x - s.place) % 4 == 0;
            }
        }
    }
    blocks_spans::is_replaced(rows, n, x)
}

// Whether a word starts at offset x of the section of a code that a block's copy replaces; entries for it are left out. The span of row r is asked first.
fn is_replaced(moves: Moves, rows: &[u8], code: u32, x: u32, r: usize) -> bool
    requires { Rows rows.now moves.spans }
    ensures { result ≡ (leaves_out code && replaced_word (spans_in rows.now moves.spans) x) }
{
    if base_scope::leaves_out(code) {
        let n = moves.spans;
        return is_word(rows, n, r, x as usize);
    }
    false
}

// Whether a word of a jump table is at offset x of the section of a code.
fn is_jump(moves: Moves, late: &[u8], code: u32, x: u32) -> bool
    requires { LateIn moves.runs late.now moves.blocks }
    ensures { result ≡ (is_late_target code && (moves.runs && jump_at late.now moves.blocks x)) }
{
    if base_scope::is_late_target(code) {
        if moves.runs {
            let n = moves.blocks;
            return late_lookups::jump_at(late, n, x);
        }
        return false;
    }
    false
}

// Whether the word at offset x of C's section of a code is written anew.
fn is_gone(moves: Moves, rows: &[u8], late: &[u8], code: u32, x: u32, r: usize) -> bool
    requires { Rows rows.now moves.spans × LateIn moves.runs late.now moves.blocks }
    ensures { result ≡ is_gone_in moves rows.now late.now code x }
{
    if is_replaced(moves, rows, code, x, r) {
        return true;
    }
    is_jump(moves, late, code, x)
}

// Where a late offset goes, by the table of `blocks` blocks: nowhere if the late step does not run, and the table is not read then.
fn late_goal(runs: bool, late: &[u8], blocks: usize, x: u32) -> Goal
    requires { LateIn runs late.now blocks }
    ensures { result ≡ pick_goal runs (late_goal (offset_at late.now blocks x)) Unmoved }
{
    if runs {
        return match late_lookups::offset_at(late, blocks, x) {
            Some(place) => Goal::To(place as u32),
            None => Goal::Unmoved,
        };
    }
    Goal::Unmoved
}

// Where an entry at offset x of the section of a code goes. The span of row r is asked first.
fn goal_of(moves: Moves, rows: &[u8], late: &[u8], code: u32, x: u32, r: usize) -> Goal
    requires { Rows rows.now moves.spans × LateIn moves.runs late.now moves.blocks }
    ensures { result ≡ goal_in moves rows.now late.now code x }
{
    if moves.compiled {
        if is_gone(moves, rows, late, code, x, r) {
            return Goal::LeftOut;
        }
        return Goal::To(x);
    }
    if code == base_scope::LATE_RODATA {
        return late_goal(moves.runs, late, moves.blocks, x);
    }
    Goal::To(x)
}

// Whether all entries for the section of a code stay where they are: C's where no word is written anew, A's where none is late.
fn is_still(side: Side, code: u32) -> bool
    ensures { result ≡ is_still side code }
{
    if side.compiled {
        if base_scope::leaves_out(code) {
            return false;
        }
        return !base_scope::is_late_target(code);
    }
    code != base_scope::LATE_RODATA
}

// Whether an entry that goes there is left out.
fn is_left_out(goal: Goal) -> bool
    ensures { result ≡ is_left_out goal }
{
    match goal {
        Goal::LeftOut => true,
        Goal::To(_) => false,
        Goal::Unmoved => false,
    }
}

// Whether its late word is not moved.
fn is_stuck(goal: Goal) -> bool
    ensures { result ≡ is_stuck goal }
{
    match goal {
        Goal::Unmoved => true,
        Goal::To(_) => false,
        Goal::LeftOut => false,
    }
}

// Where an entry that goes there stands in the result: behind all offsets where it is left out.
fn stands_at(goal: Goal) -> usize
    ensures { StandsAt goal result }
{
    match goal {
        Goal::To(x) => x as usize,
        Goal::LeftOut => OFFSETS,
        Goal::Unmoved => 0,
    }
}

// What the symbol of an r_info becomes. C's symbols and A's are of different types.
fn symbol_of(side: Side, numbers: &[u8], info: u32) -> Option<MergedSymbol>
    requires { SymbolsRead side numbers.now }
    ensures { result ≡ symbol_in side numbers.now info }
{
    let view = side.view;
    let symbols = view.symbols;
    let count = symbols.count;
    if side.compiled {
        return symbols_numbers::new_of_c(numbers, count, base_packed::compiled_symbol(info));
    }
    let first = side.first;
    symbols_numbers::new_of_a(numbers, first, count, base_packed::assembled_symbol(info))
}

// Whether a symbol is in the result.
fn is_in_result(symbol: Option<MergedSymbol>) -> bool
    ensures { result ≡ is_in_result symbol }
{
    match symbol {
        Some(_) => true,
        None => false,
    }
}

// The new index of an object's symbol k, whose ids start at `first`; 0 where it is not in the result.
fn number_at(numbers: &[u8], first: usize, count: usize, k: u32) -> MergedSymbol
    requires { 2 * (first + count) ≤ length numbers.now }
    ensures { result.0 ≡ new_number (new_in numbers.now first count k) }
{
    let i = k as usize;
    if i < count {
        return MergedSymbol(symbols_rows::half_at(numbers, first + i) as u32);
    }
    MergedSymbol(0)
}

// The new index of the symbol of an r_info.
fn number_of(side: Side, numbers: &[u8], info: u32) -> MergedSymbol
    requires { SymbolsRead side numbers.now }
    ensures { result.0 ≡ new_number (symbol_in side numbers.now info) }
{
    let view = side.view;
    let symbols = view.symbols;
    let count = symbols.count;
    if side.compiled {
        let own = base_packed::compiled_symbol(info);
        return number_at(numbers, 0, count, own.0);
    }
    let other = base_packed::assembled_symbol(info);
    number_at(numbers, side.first, count, other.0)
}

// The r_info in the result: the symbol's new index and the old kind.
fn carried_info(side: Side, numbers: &[u8], info: u32) -> u32
    requires { SymbolsRead side numbers.now }
    ensures { result ≡ relocation_info (new_number (symbol_in side numbers.now info)) (kind_of info) }
{
    let symbol = number_of(side, numbers, info);
    base_packed::relocation_info(symbol, base_packed::kind_of(info))
}

// The entry of the result, of one that goes to `place`.
fn carried_entry(side: Side, numbers: &[u8], place: u32, entry: RelocationEntry) -> RelocationEntry
    requires { SymbolsRead side numbers.now }
    ensures { result ≡ carried_to side numbers.now place entry }
{
    let addend = entry.r_addend;
    RelocationEntry {
        r_offset: place,
        r_info: carried_info(side, numbers, entry.r_info),
        r_addend: addend,
    }
}

// Whether an entry for the section of a code is lost: its late word is not moved, or its symbol is not in the result. The symbol is asked first: where it is
// in the result, an entry of C is not lost.
fn is_lost(
    side: Side,
    rows: &[u8],
    late: &[u8],
    numbers: &[u8],
    code: u32,
    entry: RelocationEntry,
) -> bool
    requires { Rows rows.now side.spans × LateIn side.runs late.now side.blocks × SymbolsRead side numbers.now }
    ensures { result ≡ is_lost_entry side rows.now late.now numbers.now code entry }
{
    if is_in_result(symbol_of(side, numbers, entry.r_info)) {
        if side.compiled {
            return false;
        }
        if code != base_scope::LATE_RODATA {
            return false;
        }
        return is_stuck(goal_of(moves_of(side), rows, late, code, entry.r_offset, 0));
    }
    !is_left_out(goal_of(moves_of(side), rows, late, code, entry.r_offset, 0))
}

// The bytes of an entry, with an addend or with none.
fn width_of(rela: bool) -> usize
    ensures { result ≡ width_of (relocation_layout rela) }
{
    if rela { 12 } else { 8 }
}

// Table t.
fn table_at(file: &[u8], side: Side, t: usize) -> EntryTable
    requires { Viewed side.order file.now side.view × (t < section_count side.order file.now) }
    ensures { result ≡ entry_table_of side.order file.now t }
{
    let order = side.order;
    let h = elf_readers::section_at(order, file, t);
    let code = symbols_taken::code_of(side.view, h.sh_info as usize);
    let rela = h.sh_type == base_scope::SHT_RELA;
    EntryTable {
        index: t,
        code,
        at: h.sh_offset as usize,
        rela,
        size: width_of(rela),
    }
}

// Entry k of a table.
fn entry_at(file: &[u8], order: ByteOrder, table: EntryTable, k: usize) -> RelocationEntry
    requires { Headed order file.now × TableRead order file.now table × (k < relocation_count order file.now table.index) }
    ensures { result ≡ relocation order file.now table.index k }
{
    RelocationEntry::new(order, table.rela, file, table.at + table.size * k)
}

// Whether the entries for the section of a code stay in gaps: C's, where words are replaced and none is a jump table's.
fn is_sought(side: Side, code: u32) -> bool
    ensures { result ≡ true → (side.compiled ≡ true) × (is_late_target code ≡ false) }
{
    if side.compiled {
        if base_scope::is_late_target(code) {
            return false;
        }
        return base_scope::leaves_out(code);
    }
    false
}

// The first gap for the entries of the section of a code: it holds all offsets where all entries stay, and none where they are asked one by one.
fn first_gap(side: Side, rows: &[u8], code: u32) -> Gap
    requires { Rows rows.now side.spans }
    ensures { (late : List ℕ) → Stays side rows.now late code result }
{
    if is_sought(side, code) {
        let n = side.spans;
        return gap_before(rows, n, 0);
    }
    if is_still(side, code) {
        return Gap {
            low: 0,
            high: OFFSETS,
            row: 0,
        };
    }
    Gap {
        low: 0,
        high: 0,
        row: 0,
    }
}

// A gap for an entry at offset x: `gap`, or where that does not hold it and gaps are sought, another.
fn gap_for(sought: bool, rows: &[u8], n: usize, x: usize, gap: Gap) -> Gap
    requires { Rows rows.now n }
    ensures { (result ≡ gap) ⊎ ((sought ≡ true) × IsGap rows.now n result) }
{
    if is_in_gap(gap, x) {
        return gap;
    }
    if sought {
        return gap_beside(rows, n, x, gap);
    }
    gap
}

// Where an entry at offset x of the section of a code stands in the result. The span of row r is asked first.
fn place_asked(side: Side, rows: &[u8], late: &[u8], code: u32, x: u32, r: usize) -> usize
    requires { Rows rows.now side.spans × LateIn side.runs late.now side.blocks }
    ensures { StandsAt (goal_in (moves_of side) rows.now late.now code x) result }
{
    stands_at(goal_of(moves_of(side), rows, late, code, x, r))
}

// Appends an entry of `size` bytes that stands at `place` in the result, if it stands there at all: it is written where there is room.
fn append_entry(
    out: &mut [u8],
    at: u64,
    side: Side,
    numbers: &[u8],
    size: usize,
    place: usize,
    entry: RelocationEntry,
) -> u64
    requires { SymbolsRead side numbers.now × (size ≡ width_of (relocation_layout (has_addend entry))) × (place ≤ OFFSETS) × (at < 2 ^ 63) }
    ensures { Written out.old at (placed_bytes side numbers.now place entry) result out.new }
{
    if place == OFFSETS {
        return at;
    }
    let order = side.order;
    let end = at + size as u64;
    if end <= out.len() as u64 {
        let carried = carried_entry(side, numbers, place as u32, entry);
        carried.write(order, out, at as usize);
    }
    end
}

// Appends the entries of table t that are kept, in old order: written as far as there is room, and counted behind it. Where all stay and there is not room for all, they need
// not be read.
pub fn append_entries(
    out: &mut [u8],
    at: u64,
    file: &[u8],
    side: Side,
    rows: &[u8],
    late: &[u8],
    numbers: &[u8],
    t: usize,
) -> u64
    requires { EntriesRead file.now side rows.now late.now numbers.now × (t < section_count side.order file.now) × (is_table side.order file.now t ≡ true)
        × (length file.now ≤ FILE_LIMIT) × (at < 2 ^ 62) }
    ensures { Written out.old at
        (carried_bytes side.order file.now (carrying_in file.now side rows.now late.now numbers.now) t) result out.new
        × (result ≤ at + FILE_LIMIT) }
{
    let order = side.order;
    let table = table_at(file, side, t);
    let n = elf_relocations::relocation_count(order, file, t);
    if is_still(side, table.code) {
        let all = at + (table.size * n) as u64;
        if all > out.len() as u64 {
            return all;
        }
    }
    let spans = side.spans;
    let sought = is_sought(side, table.code);
    let mut gap = first_gap(side, rows, table.code);
    let mut next = at;
    for k in 0..n {
        let entry = entry_at(file, order, table, k);
        gap = gap_for(sought, rows, spans, entry.r_offset as usize, gap);
        let mut place = entry.r_offset as usize;
        if !is_in_gap(gap, place) {
            place = place_asked(side, rows, late, table.code, entry.r_offset, gap.row);
        }
        next = append_entry(out, next, side, numbers, table.size, place, entry);
    }
    next
}

// The lower of `best` and the offset of entry k of a table, where that is lost.
fn lower_loss(
    file: &[u8],
    side: Side,
    rows: &[u8],
    late: &[u8],
    numbers: &[u8],
    table: EntryTable,
    k: usize,
    best: usize,
) -> usize
    requires { EntriesRead file.now side rows.now late.now numbers.now × TableRead side.order file.now table
        × (k < relocation_count side.order file.now table.index) }
    ensures { result ≡ cond
        (is_lost side.order file.now (carrying_in file.now side rows.now late.now numbers.now) table.index k)
        (min (relocation side.order file.now table.index k).r_offset best) best }
{
    let order = side.order;
    let entry = entry_at(file, order, table, k);
    let x = entry.r_offset as usize;
    if x < best {
        if is_lost(side, rows, late, numbers, table.code, entry) {
            return x;
        }
        return best;
    }
    best
}

// The lower of `best` and the lowest offset of a lost entry of table t.
fn loss_in(
    file: &[u8],
    side: Side,
    rows: &[u8],
    late: &[u8],
    numbers: &[u8],
    t: usize,
    best: usize,
) -> usize
    requires { EntriesRead file.now side rows.now late.now numbers.now × (t < section_count side.order file.now)
        × (is_table side.order file.now t ≡ true) × (best ≤ OFFSETS) }
    ensures { result ≡ min
        (loss_in side.order file.now (carrying_in file.now side rows.now late.now numbers.now) t) best }
{
    let order = side.order;
    let table = table_at(file, side, t);
    let n = elf_relocations::relocation_count(order, file, t);
    let mut lowest = best;
    for k in 0..n {
        lowest = lower_loss(file, side, rows, late, numbers, table, k, lowest);
    }
    lowest
}

// Whether the entries of section t are carried: it is one of C's tables, or one of A's for a section of the five that holds bytes.
fn is_carrying(file: &[u8], side: Side, t: usize) -> bool
    requires { Viewed side.order file.now side.view × (t < section_count side.order file.now) }
    ensures { (result ≡ pick_tables side.compiled (is_table side.order file.now) (is_carried side.order file.now) t)
        × (result ≡ true → is_table side.order file.now t ≡ true) }
{
    let order = side.order;
    if side.compiled {
        return elf_relocations::is_table(order, file, t);
    }
    carry_clash::is_carried(order, file, side.view, t)
}

// The same over section t, whether it is carried or not.
fn loss_of(
    file: &[u8],
    side: Side,
    rows: &[u8],
    late: &[u8],
    numbers: &[u8],
    t: usize,
    best: usize,
) -> usize
    requires { EntriesRead file.now side rows.now late.now numbers.now × (t < section_count side.order file.now) × (best ≤ OFFSETS) }
    ensures { result ≡ cond ((carrying_in file.now side rows.now late.now numbers.now).tables t)
        (min (loss_in side.order file.now (carrying_in file.now side rows.now late.now numbers.now) t) best) best }
{
    if is_carrying(file, side, t) {
        return loss_in(file, side, rows, late, numbers, t, best);
    }
    best
}

// Refusal 20 of one object: the lowest offset of a lost entry.
pub fn loss_fault(
    file: &[u8],
    side: Side,
    rows: &[u8],
    late: &[u8],
    numbers: &[u8],
) -> Option<usize>
    requires { EntriesRead file.now side rows.now late.now numbers.now }
    ensures { result ≡ loss_finding side.order file.now
        (carrying_in file.now side rows.now late.now numbers.now) }
{
    let view = side.view;
    let n = view.sections;
    let mut best = OFFSETS;
    for t in 0..n {
        best = loss_of(file, side, rows, late, numbers, t, best);
    }
    base_scope::found_below(OFFSETS, best)
}
