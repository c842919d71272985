// The entries of one file of the debug section, walked with the scopes that they open and close. Each function equals its definition in specs/. An entry
// that lists no static costs one word read, so that a walk over overlapping files stays cheap.
#![tactic(auto)]

ghost use Rattle.std.specs.Prelude.{◌≡◌, cond, ◌≤◌, ◌<◌};
ghost use Rattle.statics_debug.specs.Entries.{opens_scope, closes_scope};
ghost use Rattle.statics_table.specs.Table.{StaticTable};
ghost use Rattle.statics_entry.specs.Code.{InSetting};
ghost use Rattle.statics_file.specs.Code.{FileWalked};

use base_fields::ByteOrder;
use statics_debug::Entry;
use statics_entry::Setting;
use statics_table::Tally;

// How many scopes an entry of this type opens.
fn opens(kind: u32) -> usize
    ensures { (result ≡ cond (opens_scope kind) 1 0) × (result ≤ 1) }
{
    if statics_debug::opens_scope(kind) {
        return 1;
    }
    0
}

// How many scopes an entry of this type closes.
fn closes(kind: u32) -> usize
    ensures { (result ≡ cond (closes_scope kind) 1 0) × (result ≤ 1) }
{
    if statics_debug::closes_scope(kind) {
        return 1;
    }
    0
}

// The entries of a file: where they start in the compiled object, how many there are, and where their names start.
#[derive(Clone, Copy)]
pub struct FileEntries {
    pub start: usize,
    pub count: usize,
    pub names: usize,
}

// The end of a file's walk: whether the file fails, how many of its entries are completed, and how far the table is filled after them.
#[derive(Clone, Copy)]
pub struct FileEnd {
    pub bad: bool,
    pub entries: usize,
    pub tally: Tally,
}

// The entries of a file, in order.
pub fn walk_entries(
    order: ByteOrder,
    file: &[u8],
    setting: Setting,
    part: FileEntries,
    tally: Tally,
    table: &mut [u8],
) -> FileEnd
    requires { InSetting order file.now setting × StaticTable setting.head file.now table.old tally × (part.start < 68719476736) × (part.names < 8589934592)
        × (part.count < 4294967296) }
    ensures { FileWalked order file.now setting.head part tally.count result table.old table.new }
{
    let start = part.start;
    let base = part.names;
    let n = part.count;
    let mut opened: usize = 0;
    let mut closed: usize = 0;
    let mut filled = tally;
    for j in 0..n {
        let at = start + Entry::SIZE * j;
        let nested = closed + 1 < opened;
        let e = statics_entry::walk_entry(order, file, setting, at, base, nested, filled, table);
        filled = e.tally;
        if e.bad {
            return FileEnd {
                bad: true,
                entries: j,
                tally: filled,
            };
        }
        opened += opens(e.kind);
        closed += closes(e.kind);
    }
    FileEnd {
        bad: opened != closed,
        entries: n,
        tally: filled,
    }
}
