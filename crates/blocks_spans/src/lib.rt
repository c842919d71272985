// The spans of a section: the table of them, gathered from the lines of a block file, and what is found in it by binary search. Each function equals its definition in
// specs/. What copying the spans makes of a section is `copied` in specs/Copied.antt.
#![tactic(auto)]

ghost use Rattle.std.specs.Prelude.{◌≡◌, ◌+◌, ◌*◌, ◌^◌, ◌≤◌, ◌<◌, length, ltb};
ghost use Rattle.base_lists.specs.Ranges.{first, count};
ghost use Rattle.base_scope.specs.Codes.{line_code};
ghost use Rattle.base_scope.specs.Limits.{BLOCK_LIMIT, SPAN_ROW, SPAN_TABLE};
ghost use Rattle.blocks_file.specs.Blocks.{block_count};
ghost use Rattle.blocks_places.specs.Lines.{line_count};
ghost use Rattle.blocks_places.specs.Places.{end_at};
ghost use Rattle.blocks_places.specs.Table.{places_in, Laid};
ghost use Rattle.blocks_spans.specs.Spans.{span_end, is_span, spans_of, replaced_word};
ghost use Rattle.blocks_spans.specs.Table.{span_in, spans_in, span_ends, Stored, Gathered, Rows, ends_behind, next_span};

use base_fields::ByteOrder;

// A span: its place in the section, and its size.
#[derive(Clone, Copy)]
pub struct Span {
    pub place: usize,
    pub size: usize,
}

// Line j's turn in gathering: its row goes behind the r rows before it, where it has a span of the code. Answers how many rows there are then.
fn store_span(
    file: &[u8],
    table: &[u8],
    places: &[u8],
    code: u32,
    j: usize,
    r: usize,
    rows: &mut [u8],
) -> usize
    requires { Laid (places_in places.now (line_count file.now)) file.now table.now places.now × (j < line_count file.now)
        × (r ≡ count (is_span (places_in places.now (line_count file.now)) file.now code) j) × (SPAN_TABLE ≤ length rows.old) }
    ensures { Stored (places_in places.now (line_count file.now)) file.now code j r result rows.old rows.new }
{
    if base_scope::line_code(j) != code {
        return r;
    }
    if blocks_places::is_taken(places, j) {
        let size = blocks_places::size_of(places, j);
        let place = blocks_places::place_of(places, j);
        let row = [place as u32, size as u32];
        base_fields::write_words(ByteOrder::Big, rows, base_scope::SPAN_ROW * r, &row);
        return r + 1;
    }
    r
}

// Gathers the rows of the spans of a code, and answers how many there are. `blocks` is how many blocks the file has.
pub fn gather_spans(
    file: &[u8],
    table: &[u8],
    places: &[u8],
    blocks: usize,
    code: u32,
    rows: &mut [u8],
) -> usize
    requires { Laid (places_in places.now (line_count file.now)) file.now table.now places.now × (blocks ≡ block_count file.now) × (SPAN_TABLE ≤ length rows.old) }
    ensures { Gathered (spans_of (places_in places.now (line_count file.now)) file.now code) result rows.old rows.new }
{
    let mut r: usize = 0;
    for j in 0..base_scope::LINES * blocks {
        r = store_span(file, table, places, code, j, r, rows);
    }
    r
}

// The end of the last span of line j's code among the lines up to j; `end` is that among the lines before it.
fn end_behind(file: &[u8], table: &[u8], places: &[u8], j: usize, end: usize) -> usize
    requires { Laid (places_in places.now (line_count file.now)) file.now table.now places.now × (j < line_count file.now)
        × (end ≡ end_at (places_in places.now (line_count file.now)) file.now j (line_code j)) }
    ensures { result ≡ end_at (places_in places.now (line_count file.now)) file.now (j + 1) (line_code j) }
{
    if blocks_places::is_taken(places, j) {
        let size = blocks_places::size_of(places, j);
        return blocks_places::place_of(places, j) + size;
    }
    end
}

// The end of the last span of each code, at the code's index: 0 where there is none.
pub fn span_ends(
    file: &[u8],
    table: &[u8],
    places: &[u8],
    blocks: usize,
) -> [usize; base_scope::CODE_INDICES]
    requires { Laid (places_in places.now (line_count file.now)) file.now table.now places.now × (blocks ≡ block_count file.now) }
    ensures { result ≡ span_ends (places_in places.now (line_count file.now)) file.now }
{
    let mut ends = [0usize; base_scope::CODE_INDICES];
    for j in 0..base_scope::LINES * blocks {
        let code = base_scope::line_code(j) as usize;
        ends[code] = end_behind(file, table, places, j, ends[code]);
    }
    ends
}

// The span of row r.
pub fn span_at(rows: &[u8], r: usize) -> Span
    requires { (SPAN_ROW * r + SPAN_ROW ≤ length rows.now) × (r < BLOCK_LIMIT) }
    ensures { (result ≡ span_in rows.now r) × (result.place < 2 ^ 32) × (result.size < 2 ^ 32) }
{
    Span {
        place: base_fields::read32(ByteOrder::Big, rows, base_scope::SPAN_ROW * r) as usize,
        size: base_fields::read32(ByteOrder::Big, rows, base_scope::SPAN_ROW * r + 4) as usize,
    }
}

// Whether the span of row r ends behind offset k.
fn is_behind(rows: &[u8], r: usize, k: usize) -> bool
    requires { (SPAN_ROW * r + SPAN_ROW ≤ length rows.now) × (r < BLOCK_LIMIT) }
    ensures { result ≡ ltb k (span_end (span_in rows.now r)) }
{
    let s = span_at(rows, r);
    k < s.place + s.size
}

// The first of n rows whose span ends behind offset k, or n: a binary search.
fn first_behind(rows: &[u8], n: usize, k: usize) -> usize
    requires { Rows rows.now n }
    ensures { result ≡ first (ends_behind (spans_in rows.now n) k) 0 n }
{
    let mut low: usize = 0;
    let mut high = n;
    while low < high {
        let mid = low + (high - low) / 2;
        if is_behind(rows, mid, k) {
            high = mid;
        } else {
            low = mid + 1;
        }
    }
    low
}

// The first of the spans in n rows that ends behind offset k: the one over k, or the next one, or none.
pub fn next_span(rows: &[u8], n: usize, k: usize) -> Option<Span>
    requires { Rows rows.now n }
    ensures { result ≡ next_span (spans_in rows.now n) k }
{
    let r = first_behind(rows, n, k);
    if r < n {
        return Some(span_at(rows, r));
    }
    None
}

// Whether offset k is the start of a word of one of the spans in n rows.
pub fn is_replaced(rows: &[u8], n: usize, k: usize) -> bool
    requires { Rows rows.now n }
    ensures { result ≡ replaced_word (spans_in rows.now n) k }
{
    match next_span(rows, n, k) {
        None => false,
        Some(s) => {
            if k < s.place {
                return false;
            }
            (k - s.place) % 4 == 0
        }
    }
}
