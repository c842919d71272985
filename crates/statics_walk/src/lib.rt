// Refusal 17 and the statics of the compiled object: the walk over the files of its debug section. Each function equals its definition in specs/.
#![tactic(auto)]

ghost use Rattle.std.specs.Prelude.{◌≡◌, ◌≤◌, ◌<◌, length};
ghost use Rattle.base_scope.specs.Limits.{FILE_LIMIT, HEAD_LIMIT, STATIC_TABLE};
ghost use Rattle.elf_readers.specs.Readers.{section_count};
ghost use Rattle.elf_readers.specs.Bounds.{Headed, Named};
ghost use Rattle.elf_check.specs.View.{view_of};
ghost use Rattle.statics_table.specs.Table.{statics_in, StaticTable};
ghost use Rattle.statics_entry.specs.Code.{InSetting};
ghost use Rattle.statics_walk.specs.Walk.{listed_before, walk_fault, walk_list, debug_section, debug_fault, debug_list, statics_fault, statics};
ghost use Rattle.statics_walk.specs.Code.{FileListed, StaticsListed, no_statics};

use base_fields::ByteOrder;
use elf_check::View;
use statics_debug::{Entry, FileRecord, Tables};
use statics_entry::Setting;
use statics_file::{FileEnd, FileEntries};
use statics_table::Tally;

// File i of the tables.
fn walk_file(
    order: ByteOrder,
    file: &[u8],
    setting: Setting,
    t: Tables,
    i: usize,
    tally: Tally,
    table: &mut [u8],
) -> FileEnd
    requires { InSetting order file.now setting × StaticTable setting.head file.now table.old tally × (i < 4294967296)
        × (statics_in table.old tally.count ≡ listed_before order file.now setting.head t i) }
    ensures { FileListed order file.now setting.head t i result table.old table.new }
{
    let at = t.descriptors as usize + FileRecord::SIZE * i;
    if file.len() < at + FileRecord::READ {
        return FileEnd {
            bad: true,
            entries: 0,
            tally,
        };
    }
    let d = FileRecord::new(order, file, at);
    let part = FileEntries {
        start: t.symbols as usize + Entry::SIZE * d.first as usize,
        count: d.count as usize,
        names: t.strings as usize + d.names as usize,
    };
    statics_file::walk_entries(order, file, setting, part, tally, table)
}

// The answer of a walk: refusal 17, and how far the table is filled.
#[derive(Clone, Copy)]
pub struct Listing {
    pub fault: Option<usize>,
    pub tally: Tally,
}

// The files of the tables, in order.
fn walk_files(
    order: ByteOrder,
    file: &[u8],
    setting: Setting,
    t: Tables,
    table: &mut [u8],
) -> Listing
    requires { InSetting order file.now setting × (STATIC_TABLE ≤ length table.old) }
    ensures { StaticsListed setting.head file.now (walk_fault order file.now setting.head t) (walk_list order file.now setting.head t) result table.old table.new }
{
    let mut entries: usize = 0;
    let mut filled = Tally { count: 0, size: 0 };
    for i in 0..t.files as usize {
        let e = walk_file(order, file, setting, t, i, filled, table);
        entries += e.entries;
        filled = e.tally;
        if e.bad {
            return Listing {
                fault: Some(entries),
                tally: filled,
            };
        }
    }
    Listing {
        fault: None,
        tally: filled,
    }
}

// The answer of a walk that lists no static.
fn no_statics(fault: Option<usize>) -> Listing
    ensures { result ≡ no_statics fault }
{
    let none = Tally { count: 0, size: 0 };
    Listing { fault, tally: none }
}

// The statics of .mdebug, which is section i.
fn list_debug(
    order: ByteOrder,
    file: &[u8],
    setting: Setting,
    i: usize,
    table: &mut [u8],
) -> Listing
    requires { Headed order file.now × InSetting order file.now setting × (STATIC_TABLE ≤ length table.old) × (i ≡ debug_section order file.now)
        × (i < section_count order file.now) }
    ensures { StaticsListed setting.head file.now (debug_fault order file.now setting.head) (debug_list order file.now setting.head) result table.old table.new }
{
    let debug = elf_readers::contents_of(order, file, i);
    if debug.len() < Tables::SIZE {
        return no_statics(Some(0));
    }
    let t = Tables::new(order, debug);
    walk_files(order, file, setting, t, table)
}

// Refusal 17 of the compiled object in a mode, and its statics. `head` is how many bytes the mode puts in front of a name.
pub fn list_statics(
    order: ByteOrder,
    file: &[u8],
    view: View,
    mode: u32,
    head: u32,
    table: &mut [u8],
) -> Listing
    requires { Named order file.now × (length file.now ≤ FILE_LIMIT) × (view ≡ view_of order file.now) × (head ≤ HEAD_LIMIT) × (STATIC_TABLE ≤ length table.old) }
    ensures { StaticsListed head file.now (statics_fault order file.now mode head) (statics order file.now mode head) result table.old table.new }
{
    if mode == statics_table::MODE_NO {
        return no_statics(None);
    }
    let i = elf_readers::section_named(order, file, b".mdebug");
    if i < view.sections {
        let setting = Setting { view, head };
        return list_debug(order, file, setting, i, table);
    }
    no_statics(None)
}
