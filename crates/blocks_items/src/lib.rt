// What the merge reads of a block beside its spans: its dummies, its jump table, and whether its first glabel has a size. Each function equals its definition in
// specs/. The lines of one key stand together, so the glabels of a block are read from `blocks_file::group_start` on, line by line, while `blocks_lines::is_key_line`
// holds; its dummies are numbered, for their lines have one length.
#![tactic(auto)]

ghost use Rattle.std.specs.Prelude.{◌≡◌, true, ◌+◌, ◌*◌, ◌≤◌, ◌<◌, length};
ghost use Rattle.base_scope.specs.Limits.{NUMBER_LIMIT, BLOCK_LIMIT, BLOCK_ROW, PLACE_ROW};
ghost use Rattle.blocks_values.specs.Values.{is_hex_digit, dummy_sound};
ghost use Rattle.blocks_lines.specs.Keys.{KEY_DUMMY, KEY_JTBL};
ghost use Rattle.blocks_file.specs.Blocks.{block_count};
ghost use Rattle.blocks_file.specs.Table.{group_in, Parsed};
ghost use Rattle.blocks_places.specs.Lines.{line_count};
ghost use Rattle.blocks_places.specs.Table.{places_in};
ghost use Rattle.blocks_items.specs.Items.{hex_digit, hexadecimal, dummy_count, dummy_word, jump_table, sized};
ghost use Rattle.blocks_items.specs.Table.{dummies_in};

// The number of a lowercase hex digit.
fn hex_digit(x: u8) -> u32
    requires { is_hex_digit x ≡ true }
    ensures { (result ≡ hex_digit x) × (result < 16) }
{
    if x < 58 {
        return (x - 48) as u32;
    }
    (x - 87) as u32
}

// The word that eight hex digits write.
fn hex_of(v: &[u8]) -> u32
    requires { dummy_sound v.now ≡ true }
    ensures { result ≡ hexadecimal v.now }
{
    let mut n: u32 = 0;
    for x in v {
        n = n * 16 + hex_digit(*x);
    }
    n
}

// How many dummies the block of row i has.
pub fn dummy_count(table: &[u8], i: usize) -> usize
    requires { (BLOCK_ROW * i + BLOCK_ROW ≤ length table.now) × (i < BLOCK_LIMIT) × (group_in table.now i KEY_DUMMY ≤ group_in table.now i KEY_JTBL) }
    ensures { result ≡ dummies_in table.now i }
{
    let start = blocks_file::group_start(table, i, blocks_lines::KEY_DUMMY as usize);
    let end = blocks_file::group_start(table, i, blocks_lines::KEY_JTBL as usize);
    (end - start) / base_scope::DUMMY_LINE
}

// The word of dummy k of block i.
pub fn dummy_word(file: &[u8], table: &[u8], i: usize, k: usize) -> u32
    requires { Parsed file.now table.now × (i < block_count file.now) × (k < dummy_count file.now i) }
    ensures { result ≡ dummy_word file.now i k }
{
    let start = blocks_file::group_start(table, i, blocks_lines::KEY_DUMMY as usize);
    hex_of(blocks_lines::value_at(
        file,
        blocks_lines::KEY_DUMMY,
        start + base_scope::DUMMY_LINE * k,
    ))
}

// The bytes of block i's jump table.
pub fn jump_table(file: &[u8], table: &[u8], i: usize) -> usize
    requires { Parsed file.now table.now × (i < block_count file.now) }
    ensures { (result ≡ jump_table file.now i) × (result ≤ NUMBER_LIMIT) }
{
    let at = blocks_file::group_start(table, i, blocks_lines::KEY_JTBL as usize);
    blocks_values::decimal_of(blocks_lines::value_at(file, blocks_lines::KEY_JTBL, at))
}

// Whether block i gives its first glabel a size, which is `blocks_places::span_size` of its line `text=`.
pub fn is_sized(file: &[u8], table: &[u8], places: &[u8], i: usize) -> bool
    requires { Parsed file.now table.now × (PLACE_ROW * line_count file.now ≤ length places.now) × (i < block_count file.now) }
    ensures { result ≡ sized (places_in places.now (line_count file.now)) file.now i }
{
    if blocks_places::is_taken(places, base_scope::line_of(i, base_scope::TEXT)) {
        let at = blocks_file::group_start(table, i, blocks_lines::KEY_GLABEL as usize);
        return blocks_lines::is_key_line(file, blocks_lines::KEY_GLABEL, at);
    }
    false
}
