// The text of a draft, appended piece by piece: the prelude, every block's padding and body, and the late part. Each function says `Written` of the text
// in specs/Draft.antt that it appends, and by how much the place can grow, so that no sum wraps. The places of the lines are those that the table of places holds.
#![tactic(auto)]

ghost use Rattle.std.specs.Prelude.{◌≡◌, true, ◌+◌, ◌*◌, ◌^◌, ◌≤◌, ◌<◌, length};
ghost use Rattle.base_lists.specs.Written.{Written};
ghost use Rattle.base_scope.specs.Codes.{LINES, line_code};
ghost use Rattle.base_scope.specs.Limits.{FILE_LIMIT, BLOCK_LIMIT, PLACE_ROW};
ghost use Rattle.blocks_lines.specs.Keys.{KEYS, repeats};
ghost use Rattle.blocks_file.specs.Blocks.{group_at, block_at, block_count};
ghost use Rattle.blocks_file.specs.Table.{Parsed};
ghost use Rattle.blocks_places.specs.Lines.{line_count};
ghost use Rattle.blocks_places.specs.Places.{end_at};
ghost use Rattle.blocks_places.specs.Table.{place_in, places_in, Laid};
ghost use Rattle.draft_lines.specs.Lines.{group_lines};
ghost use Rattle.draft_text.specs.Draft.{fill_of, label_text, labels_text, body_text, line_text, lines_text, late_at, has_late, late_lines, late_part, draft_text};
ghost use Rattle.draft_text.specs.Pad.{pad_from};

// Appends the start or end label of line j, if it has one.
fn append_label_text(
    out: &mut [u8],
    at: u64,
    file: &[u8],
    table: &[u8],
    suffix: &[u8],
    j: usize,
) -> u64
    requires { Parsed file.now table.now × (j < line_count file.now) × (at < 2 ^ 62) × (length suffix.now ≤ 16) }
    ensures { Written out.old at (label_text file.now suffix.now j) result out.new × (result ≤ at + 2 * FILE_LIMIT) }
{
    if blocks_places::is_labelled(file, table, j) {
        let label = blocks_places::span_label(file, table, j);
        let next = draft_lines::append_section(out, at, base_scope::line_code(j));
        return draft_lines::append_label(out, next, label, suffix);
    }
    at
}

// Appends the start or end labels of block i.
fn append_labels(out: &mut [u8], at: u64, file: &[u8], table: &[u8], suffix: &[u8], i: usize) -> u64
    requires { Parsed file.now table.now × (i < block_count file.now) × (at < 2 ^ 61) × (length suffix.now ≤ 16) }
    ensures { Written out.old at (labels_text file.now suffix.now i) result out.new × (result ≤ at + 8 * FILE_LIMIT) }
{
    let mut next = at;
    for k in 0..base_scope::LINES {
        next = append_label_text(out, next, file, table, suffix, base_scope::LINES * i + k);
    }
    next
}

// Appends the lines of group k of block i, each as a line; the group ends where the next starts.
fn append_block_group(out: &mut [u8], at: u64, file: &[u8], table: &[u8], i: usize, k: u32) -> u64
    requires { Parsed file.now table.now × (i < block_count file.now) × (k < KEYS) × (repeats k ≡ true) × (at < 2 ^ 62) }
    ensures { Written out.old at (group_lines file.now k (group_at file.now (block_at file.now i) k)) result out.new
        × (result ≤ at + FILE_LIMIT) }
{
    let group = k as usize;
    let from = blocks_file::group_start(table, i, group);
    let to = blocks_file::group_start(table, i, group + 1);
    draft_lines::append_group(out, at, file, k, from, to)
}

// Appends what block i adds where it stays on.
fn append_body(out: &mut [u8], at: u64, file: &[u8], table: &[u8], i: usize) -> u64
    requires { Parsed file.now table.now × (i < block_count file.now) × (at < 2 ^ 60) }
    ensures { Written out.old at (body_text file.now i) result out.new × (result ≤ at + 32 * FILE_LIMIT) }
{
    let started = append_labels(out, at, file, table, b"_asm_start", i);
    let text = base_text::append_line(out, started, b".text");
    let ended = append_block_group(out, text, file, table, i, blocks_lines::KEY_ASM);
    append_labels(out, ended, file, table, b"_asm_end", i)
}

// Appends what fills a gap in the section of a code: nops in .text, `.space` in the others.
fn append_fill(out: &mut [u8], at: u64, code: u32, gap: u64) -> u64
    requires { (at < 2 ^ 62) × (gap < 2 ^ 32) }
    ensures { Written out.old at (fill_of code gap) result out.new × (result ≤ at + 2 ^ 32) }
{
    if code == base_scope::TEXT {
        return draft_lines::append_nops(out, at, gap / 4);
    }
    draft_lines::append_space(out, at, gap)
}

// Appends the padding of line j; `end` is the end of the span before in its section.
fn append_pad(out: &mut [u8], at: u64, places: &[u8], j: usize, end: u64) -> u64
    requires { (PLACE_ROW * j + PLACE_ROW ≤ length places.now) × (j < LINES * BLOCK_LIMIT) × (at < 2 ^ 61) }
    ensures { Written out.old at (pad_from (place_in places.now j) (line_code j) end) result out.new × (result ≤ at + 2 ^ 33) }
{
    if blocks_places::is_taken(places, j) {
        let place = blocks_places::place_of(places, j) as u64;
        if place > end {
            let code = base_scope::line_code(j);
            let next = draft_lines::append_section(out, at, code);
            return append_fill(out, next, code, place - end);
        }
    }
    at
}

// Appends what line j adds: its padding, and behind the last line of a block that stays on the block's body.
fn append_line_text(
    out: &mut [u8],
    at: u64,
    file: &[u8],
    table: &[u8],
    places: &[u8],
    j: usize,
    end: u64,
) -> u64
    requires { Laid (places_in places.now (line_count file.now)) file.now table.now places.now × (j < line_count file.now)
        × (end ≡ end_at (places_in places.now (line_count file.now)) file.now j (line_code j)) × (at < 2 ^ 59) }
    ensures { Written out.old at (line_text (places_in places.now (line_count file.now)) file.now j) result out.new
        × (result ≤ at + 2 ^ 34) }
{
    let next = append_pad(out, at, places, j, end);
    if base_scope::line_code(j) as usize == base_scope::LINES {
        let block = base_scope::line_block(j);
        if blocks_places::is_live(file, table, places, block) {
            return append_body(out, next, file, table, block);
        }
    }
    next
}

// The end of the last span in line j's section, with line j.
fn end_after(file: &[u8], table: &[u8], places: &[u8], j: usize, end: u64) -> u64
    requires { Laid (places_in places.now (line_count file.now)) file.now table.now places.now × (j < line_count file.now)
        × (end ≡ end_at (places_in places.now (line_count file.now)) file.now j (line_code j)) }
    ensures { result ≡ end_at (places_in places.now (line_count file.now)) file.now (j + 1) (line_code j) }
{
    if blocks_places::is_taken(places, j) {
        let place = blocks_places::place_of(places, j) as u64;
        let size = blocks_places::size_of(places, j) as u64;
        return place + size;
    }
    end
}

// Appends what the lines of all blocks add.
fn append_lines(
    out: &mut [u8],
    at: u64,
    file: &[u8],
    table: &[u8],
    places: &[u8],
    count: usize,
) -> u64
    requires { Laid (places_in places.now (line_count file.now)) file.now table.now places.now × (count ≡ block_count file.now) × (at ≤ FILE_LIMIT + 1) }
    ensures { Written out.old at (lines_text (places_in places.now (line_count file.now)) file.now (LINES * count)) result out.new
        × (result ≤ at + 2 ^ 46) }
{
    let mut ends = [0u64; base_scope::LINE_INDICES];
    let mut next = at;
    for j in 0..base_scope::LINES * count {
        let c = base_scope::line_code(j) as usize;
        let end = ends[c];
        next = append_line_text(out, next, file, table, places, j, end);
        ends[c] = end_after(file, table, places, j, end);
    }
    next
}

// Whether block i stays on and has a late line.
fn has_late(file: &[u8], table: &[u8], places: &[u8], i: usize) -> bool
    requires { Laid (places_in places.now (line_count file.now)) file.now table.now places.now × (i < block_count file.now) }
    ensures { result ≡ late_at (places_in places.now (line_count file.now)) file.now i }
{
    if blocks_places::is_live(file, table, places, i) {
        let from = blocks_file::group_start(table, i, blocks_lines::KEY_LATE as usize);
        return blocks_lines::is_key_line(file, blocks_lines::KEY_LATE, from);
    }
    false
}

// Appends the late lines of the blocks that stay on.
fn append_late_lines(
    out: &mut [u8],
    at: u64,
    file: &[u8],
    table: &[u8],
    places: &[u8],
    count: usize,
) -> u64
    requires { Laid (places_in places.now (line_count file.now)) file.now table.now places.now × (count ≡ block_count file.now) × (at < 2 ^ 48) }
    ensures { Written out.old at (late_lines (places_in places.now (line_count file.now)) file.now) result out.new
        × (result ≤ at + BLOCK_LIMIT * FILE_LIMIT) }
{
    let mut next = at;
    for i in 0..count {
        if blocks_places::is_live(file, table, places, i) {
            next = append_block_group(out, next, file, table, i, blocks_lines::KEY_LATE);
        }
    }
    next
}

// Whether some block that stays on has a late line.
fn is_late(file: &[u8], table: &[u8], places: &[u8], count: usize) -> bool
    requires { Laid (places_in places.now (line_count file.now)) file.now table.now places.now × (count ≡ block_count file.now) }
    ensures { result ≡ has_late (places_in places.now (line_count file.now)) file.now }
{
    for i in 0..count {
        if has_late(file, table, places, i) {
            return true;
        }
    }
    false
}

// Appends the late part.
fn append_late(
    out: &mut [u8],
    at: u64,
    file: &[u8],
    table: &[u8],
    places: &[u8],
    count: usize,
) -> u64
    requires { Laid (places_in places.now (line_count file.now)) file.now table.now places.now × (count ≡ block_count file.now) × (at < 2 ^ 47) }
    ensures { Written out.old at (late_part (places_in places.now (line_count file.now)) file.now) result out.new }
{
    if is_late(file, table, places, count) {
        let a = base_text::append_line(out, at, b".section .late_rodata");
        let b = base_text::append_line(out, a, b".word 0, 0");
        let c = base_text::append_line(out, b, b"glabel _asmpp_late_rodata_start");
        let d = append_late_lines(out, c, file, table, places, count);
        return base_text::append_line(out, d, b"glabel _asmpp_late_rodata_end");
    }
    at
}

// Writes the draft from the start of the output, and answers its length, also where it does not fit. `count` is the number of blocks.
pub fn append_draft(
    out: &mut [u8],
    prelude: &[u8],
    file: &[u8],
    table: &[u8],
    places: &[u8],
    count: usize,
) -> u64
    requires { Laid (places_in places.now (line_count file.now)) file.now table.now places.now × (count ≡ block_count file.now) × (length prelude.now ≤ FILE_LIMIT) }
    ensures { Written out.old 0 (draft_text (places_in places.now (line_count file.now)) file.now prelude.now) result out.new }
{
    let a = base_text::append_line(out, 0, prelude);
    let b = append_lines(out, a, file, table, places, count);
    append_late(out, b, file, table, places, count)
}
