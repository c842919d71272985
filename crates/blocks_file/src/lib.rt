// The blocks of a block file: refusal 7, and the table of where each block's groups of lines start. Each function equals its definition in specs/.
#![tactic(auto)]

ghost use Rattle.std.specs.Prelude.{◌≡◌, ◌+◌, ◌*◌, ◌≤◌, ◌<◌, length};
ghost use Rattle.base_scope.specs.Limits.{FILE_LIMIT, BLOCK_LIMIT, BLOCK_ROW, BLOCK_TABLE};
ghost use Rattle.blocks_lines.specs.Keys.{KEYS};
ghost use Rattle.blocks_file.specs.Blocks.{skip};
ghost use Rattle.blocks_file.specs.Table.{group_after, group_in, bad_line, Grouped, Reading};

use base_fields::ByteOrder;

// How many groups of lines a block has: one for each key.
const GROUPS: usize = 11;

// Past the lines of key k that stand at `at`.
fn skip_lines(file: &[u8], k: u32, at: usize) -> usize
    requires { k < KEYS }
    ensures { result ≡ skip file.now k at }
{
    let mut p = at;
    while p < file.len() {
        let next = blocks_lines::line_after(file, k, p);
        if next == 0 {
            return p;
        }
        p = next;
    }
    p
}

// Where the group after group k starts, which stands at `at`; 0 where that must be one line and is not.
fn group_after(file: &[u8], k: u32, at: usize) -> usize
    requires { k < KEYS }
    ensures { result ≡ group_after file.now k at }
{
    if blocks_lines::is_repeated(k) {
        return skip_lines(file, k, at);
    }
    blocks_lines::line_after(file, k, at)
}

// Where the groups of a block start, up to the first that is faulty, and which that is: GROUPS where none is.
#[derive(Clone, Copy)]
struct BlockStarts {
    starts: [u32; 12],
    faulty: usize,
}

// The starts of the block at `at`.
fn read_groups(file: &[u8], at: usize) -> BlockStarts
    requires { (at ≤ length file.now) × (length file.now ≤ FILE_LIMIT) }
    ensures { Grouped file.now at result }
{
    let mut starts = [0u32; 12];
    let mut p = at;
    for k in 0..blocks_lines::KEYS {
        starts[k as usize] = p as u32;
        let next = group_after(file, k, p);
        if next == 0 {
            return BlockStarts {
                starts,
                faulty: k as usize,
            };
        }
        p = next;
    }
    starts[GROUPS] = p as u32;
    BlockStarts {
        starts,
        faulty: GROUPS,
    }
}

// What a block file was found to be: its fault, if any, and how many blocks stand before it.
#[derive(Clone, Copy)]
pub struct BlockFile {
    pub fault: Option<usize>,
    pub count: usize,
}

// Refusal 7 at the line that stands at `at`.
fn bad_line(file: &[u8], at: usize, count: usize) -> BlockFile
    requires { at ≤ length file.now }
    ensures { result ≡ bad_line file.now at count }
{
    BlockFile {
        fault: Some(blocks_lines::line_number(file, at)),
        count,
    }
}

// Reads a block file: each block's starts go into the table, until the file ends or a block is faulty.
pub fn read_blocks(file: &[u8], table: &mut [u8]) -> BlockFile
    requires { (length file.now ≤ FILE_LIMIT) × (BLOCK_TABLE ≤ length table.old) }
    ensures { Reading file.now result table.old table.new }
{
    let mut i: usize = 0;
    let mut at: usize = 0;
    while at < file.len() {
        if i == base_scope::BLOCK_LIMIT {
            return bad_line(file, at, i);
        }
        let read = read_groups(file, at);
        let starts = read.starts;
        let k = read.faulty;
        if k < GROUPS {
            return bad_line(file, starts[k] as usize, i);
        }
        base_fields::write_words(ByteOrder::Big, table, base_scope::BLOCK_ROW * i, &starts);
        at = starts[GROUPS] as usize;
        i += 1;
    }
    BlockFile {
        fault: None,
        count: i,
    }
}

// Where group k of block i starts: word k of its row.
pub fn group_start(table: &[u8], i: usize, k: usize) -> usize
    requires { (BLOCK_ROW * i + BLOCK_ROW ≤ length table.now) × (i < BLOCK_LIMIT) × (k ≤ KEYS) }
    ensures { (result ≡ group_in table.now i k) × (result < 4294967296) }
{
    base_fields::read32(ByteOrder::Big, table, base_scope::BLOCK_ROW * i + 4 * k) as usize
}
