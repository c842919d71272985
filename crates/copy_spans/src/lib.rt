// The spans of all blocks as one lent list of records, and the walks over it (document 01, "Forms to change"): one checks the places of a section by 8's rule, one copies
// the block bytes of a section from A over C's. Each walk equals its definition in specs/Records.antt, whatever the list holds. `write_copied` makes the list from the
// tables of the core and lends it to both: what it writes equals `copied` of the crate blocks_spans ("Merge: ... Blocks are copied at their own offsets").
#![tactic(auto)]

ghost use Rattle.std.specs.Prelude.{◌≡◌, true, ◌+◌, ◌*◌, ◌≤◌, ◌<◌, length};
ghost use Rattle.base_lists.specs.Windows.{spliced};
ghost use Rattle.base_scope.specs.Codes.{LINES};
ghost use Rattle.base_scope.specs.Limits.{BLOCK_LIMIT};
ghost use Rattle.blocks_file.specs.Blocks.{block_count};
ghost use Rattle.blocks_places.specs.Lines.{line_count};
ghost use Rattle.blocks_places.specs.Places.{taken};
ghost use Rattle.blocks_places.specs.Table.{places_in, Laid};
ghost use Rattle.blocks_spans.specs.Spans.{spans_of, EndsBy};
ghost use Rattle.blocks_spans.specs.Copied.{copied};
ghost use Rattle.copy_spans.specs.Records.{FEW_BLOCKS, no_record, is_low, end_behind, first_low, BlockCopied, BlocksCopied, record_of, Filled};

// A span of a block: the code of its section, its place and its size in the section, and the block.
#[derive(Clone, Copy)]
pub struct SpanRecord {
    pub code: u32,
    pub place: u32,
    pub size: u32,
    pub block: u32,
}

// How many there are at most: one for each line.
pub const SPAN_LIMIT: usize = base_scope::LINES * base_scope::BLOCK_LIMIT;

// So few blocks have a shorter list: one that is made costs as much as it is long.
const FEW_BLOCKS: usize = 64;

const FEW_SPANS: usize = base_scope::LINES * FEW_BLOCKS;

// A record before its list is filled.
fn no_span() -> SpanRecord
    ensures { result ≡ no_record }
{
    SpanRecord {
        code: 0,
        place: 0,
        size: 0,
        block: 0,
    }
}

// A list that is not filled yet.
fn no_spans() -> [SpanRecord; SPAN_LIMIT]
    ensures { length result ≡ LINES * BLOCK_LIMIT }
{
    let none = no_span();
    [none; SPAN_LIMIT]
}

// One for few blocks.
fn few_spans() -> [SpanRecord; FEW_SPANS]
    ensures { length result ≡ LINES * FEW_BLOCKS }
{
    let none = no_span();
    [none; FEW_SPANS]
}

// The record of line j, which is taken.
fn record_of(file: &[u8], table: &[u8], places: &[u8], j: usize) -> SpanRecord
    requires { Laid (places_in places.now (line_count file.now)) file.now table.now places.now × (j < line_count file.now)
        × (taken (places_in places.now (line_count file.now)) j ≡ true) }
    ensures { result ≡ record_of (places_in places.now (line_count file.now)) file.now j }
{
    let size = blocks_places::size_of(places, j);
    let place = blocks_places::place_of(places, j);
    SpanRecord {
        code: base_scope::line_code(j),
        place: place as u32,
        size: size as u32,
        block: base_scope::line_block(j) as u32,
    }
}

// Fills a lent list with the spans of all blocks, in the order of their lines, and answers how many there are. `blocks` is how many blocks the file has.
pub fn fill_spans(
    file: &[u8],
    table: &[u8],
    places: &[u8],
    blocks: usize,
    spans: &mut [SpanRecord],
) -> usize
    requires { Laid (places_in places.now (line_count file.now)) file.now table.now places.now × (blocks ≡ block_count file.now) × (line_count file.now ≤ length spans.old) }
    ensures { Filled (places_in places.now (line_count file.now)) file.now result spans.new }
{
    let mut n: usize = 0;
    for j in 0..base_scope::LINES * blocks {
        if blocks_places::is_taken(places, j) {
            let x = record_of(file, table, places, j);
            spans[n] = x;
            n += 1;
        }
    }
    n
}

// Whether a record is at fault by 8 in the section of a code; `end` is the end of the section's last span before it.
fn is_low(x: SpanRecord, code: u32, end: usize) -> bool
    ensures { result ≡ is_low code end x }
{
    if x.code != code {
        return false;
    }
    if x.size == 0 {
        return true;
    }
    (x.place as usize) < end
}

// The end of the section's last span behind a record.
fn end_behind(x: SpanRecord, code: u32, end: usize) -> usize
    ensures { result ≡ end_behind code end x }
{
    if x.code == code {
        return x.place as usize + x.size as usize;
    }
    end
}

// The first record at fault by 8 in the section of a code, or how many there are: a span of size 0, or one that starts below the end of the span before it in the section.
pub fn first_low(spans: &[SpanRecord], code: u32) -> usize
    ensures { result ≡ first_low spans.now code }
{
    let mut end: usize = 0;
    let mut i: usize = 0;
    while i < spans.len() {
        let x = spans[i];
        if is_low(x, code, end) {
            return i;
        }
        end = end_behind(x, code, end);
        i += 1;
    }
    i
}

// Copies the bytes of a record's span, where it is one of the section of the code, from A's section over C's, and answers whether it is refused: it does not lie inside both.
fn copy_block(x: SpanRecord, code: u32, source: &[u8], section: &mut [u8]) -> bool
    ensures { BlockCopied x code source.now result section.old section.new }
{
    if x.code != code {
        return false;
    }
    let place = x.place as usize;
    let end = place + x.size as usize;
    if section.len() < end {
        return true;
    }
    if source.len() < end {
        return true;
    }
    base_fields::write_bytes(section, place, &source[place..end]);
    false
}

// Copies the block bytes of the section of a code from A's section over C's, span by span up to the first that is refused, and answers which that is, or how many there are.
pub fn copy_blocks(spans: &[SpanRecord], code: u32, source: &[u8], section: &mut [u8]) -> usize
    ensures { BlocksCopied spans.now code source.now result section.old section.new }
{
    let mut i: usize = 0;
    while i < spans.len() {
        let x = spans[i];
        if copy_block(x, code, source, section) {
            return i;
        }
        i += 1;
    }
    i
}

// Copies the blocks of a section over C's bytes of it, by a lent list: it is filled, the places of the section are checked, and the spans before the first at fault are
// copied. 8 leaves none at fault, and 11 none outside.
fn splice_section(
    spans: &mut [SpanRecord],
    section: &mut [u8],
    file: &[u8],
    table: &[u8],
    places: &[u8],
    blocks: usize,
    code: u32,
    source: &[u8],
)
    requires { Laid (places_in places.now (line_count file.now)) file.now table.now places.now × (blocks ≡ block_count file.now)
        × EndsBy (spans_of (places_in places.now (line_count file.now)) file.now code) (length section.old)
        × EndsBy (spans_of (places_in places.now (line_count file.now)) file.now code) (length source.now) × (line_count file.now ≤ length spans.old) }
    ensures { section.new ≡ copied (spans_of (places_in places.now (line_count file.now)) file.now code) section.old source.now }
{
    let n = fill_spans(file, table, places, blocks, spans);
    let clear = first_low(&spans[..n], code);
    copy_blocks(&spans[..clear], code, source, section);
}

// The same by a list of its own, where there are few blocks.
fn copy_few(
    section: &mut [u8],
    file: &[u8],
    table: &[u8],
    places: &[u8],
    blocks: usize,
    code: u32,
    source: &[u8],
)
    requires { Laid (places_in places.now (line_count file.now)) file.now table.now places.now × (blocks ≡ block_count file.now)
        × EndsBy (spans_of (places_in places.now (line_count file.now)) file.now code) (length section.old)
        × EndsBy (spans_of (places_in places.now (line_count file.now)) file.now code) (length source.now) × (blocks ≤ FEW_BLOCKS) }
    ensures { section.new ≡ copied (spans_of (places_in places.now (line_count file.now)) file.now code) section.old source.now }
{
    let mut spans = few_spans();
    splice_section(
        &mut spans, section, file, table, places, blocks, code, source,
    );
}

// The same for any number of blocks.
fn copy_many(
    section: &mut [u8],
    file: &[u8],
    table: &[u8],
    places: &[u8],
    blocks: usize,
    code: u32,
    source: &[u8],
)
    requires { Laid (places_in places.now (line_count file.now)) file.now table.now places.now × (blocks ≡ block_count file.now)
        × EndsBy (spans_of (places_in places.now (line_count file.now)) file.now code) (length section.old)
        × EndsBy (spans_of (places_in places.now (line_count file.now)) file.now code) (length source.now) }
    ensures { section.new ≡ copied (spans_of (places_in places.now (line_count file.now)) file.now code) section.old source.now }
{
    let mut spans = no_spans();
    splice_section(
        &mut spans, section, file, table, places, blocks, code, source,
    );
}

// Copies the blocks of a section over C's bytes of it.
fn copy_section(
    section: &mut [u8],
    file: &[u8],
    table: &[u8],
    places: &[u8],
    blocks: usize,
    code: u32,
    source: &[u8],
)
    requires { Laid (places_in places.now (line_count file.now)) file.now table.now places.now × (blocks ≡ block_count file.now)
        × EndsBy (spans_of (places_in places.now (line_count file.now)) file.now code) (length section.old)
        × EndsBy (spans_of (places_in places.now (line_count file.now)) file.now code) (length source.now) }
    ensures { section.new ≡ copied (spans_of (places_in places.now (line_count file.now)) file.now code) section.old source.now }
{
    if blocks <= FEW_BLOCKS {
        copy_few(section, file, table, places, blocks, code, source);
    } else {
        copy_many(section, file, table, places, blocks, code, source);
    }
}

// Writes a section after block copying at `at`: C's bytes of it, then the blocks of A's. A's section may be empty where there is no span.
pub fn write_copied(
    out: &mut [u8],
    at: usize,
    file: &[u8],
    table: &[u8],
    places: &[u8],
    blocks: usize,
    code: u32,
    target: &[u8],
    source: &[u8],
)
    requires { Laid (places_in places.now (line_count file.now)) file.now table.now places.now × (blocks ≡ block_count file.now)
        × EndsBy (spans_of (places_in places.now (line_count file.now)) file.now code) (length target.now)
        × EndsBy (spans_of (places_in places.now (line_count file.now)) file.now code) (length source.now) × (at + length target.now ≤ length out.old) }
    ensures { out.new ≡ spliced out.old at
        (copied (spans_of (places_in places.now (line_count file.now)) file.now code) target.now source.now) }
{
    base_fields::write_bytes(out, at, target);
    let end = at + target.len();
    copy_section(&mut out[at..end], file, table, places, blocks, code, source);
}
