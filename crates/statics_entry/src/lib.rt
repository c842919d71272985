// One entry of the debug section: refusal 17 inside it, and the static that it adds to the table. Each function equals its definition in specs/.
#![tactic(auto)]

ghost use Rattle.std.specs.Prelude.{◌≡◌, true, ◌+◌, ◌≤◌, ◌<◌, length};
ghost use Rattle.base_scope.specs.Limits.{FILE_LIMIT, STATIC_LIMIT, STATIC_NAME_LIMIT, HEAD_LIMIT};
ghost use Rattle.statics_debug.specs.Entries.{ENTRY_SIZE};
ghost use Rattle.statics_table.specs.Table.{statics_in, CountedRows, StaticTable};
ghost use Rattle.statics_entry.specs.Entry.{count_of, static_from, readable_name, is_static};
ghost use Rattle.statics_entry.specs.Code.{is_there, listable_in, InSetting, stopped, Added, EntryWalked};

use base_fields::ByteOrder;
use elf_check::View;
use statics_debug::Entry;
use statics_table::{Static, Tally};

// What stays the same over a whole walk: the view of the compiled object, and how many bytes the mode puts in front of a name.
#[derive(Clone, Copy)]
pub struct Setting {
    pub view: View,
    pub head: u32,
}

// Whether the section of a storage class is there.
fn is_there(view: View, class: u32) -> bool
    ensures { result ≡ is_there view class }
{
    let code = statics_debug::storage_code(class);
    if code == 0 {
        return false;
    }
    view.section(code) < view.sections
}

// Whether the name at `start` has a zero end inside the file and is no longer than document 01 allows.
fn is_readable_name(file: &[u8], start: usize) -> bool
    requires { (length file.now ≤ FILE_LIMIT) × (start < 17179869184) }
    ensures { result ≡ readable_name file.now start }
{
    let n = base_names::name_at(file, start).len();
    base_scope::both(start + n < file.len(), n <= base_scope::STATIC_NAME_LIMIT)
}

// Whether a static can be listed behind n others.
fn is_listable(file: &[u8], view: View, class: u32, start: usize, n: usize) -> bool
    requires { (length file.now ≤ FILE_LIMIT) × (start < 17179869184) }
    ensures { result ≡ listable_in file.now view class start n }
{
    let readable = is_readable_name(file, start);
    let there = is_there(view, class);
    let free = base_scope::both(there, n < base_scope::STATIC_LIMIT);
    base_scope::both(readable, free)
}

// The count that a name gains behind the first n rows: none at level 1 or below.
fn count_of(file: &[u8], table: &[u8], n: usize, name: &[u8], nested: bool) -> u32
    requires { CountedRows file.now table.now n }
    ensures { (result ≡ count_of file.now (statics_in table.now n) name.now nested) × (result ≤ n + 1) }
{
    if nested {
        return statics_table::next_number(file, table, n, name);
    }
    0
}

// The static of an entry whose name starts at `start`.
fn static_from(
    file: &[u8],
    table: &[u8],
    tally: Tally,
    e: Entry,
    start: usize,
    nested: bool,
) -> Static
    requires { CountedRows file.now table.now tally.count × (length file.now ≤ FILE_LIMIT) × (readable_name file.now start ≡ true) }
    ensures { (result ≡ static_from file.now (statics_in table.now tally.count) e start nested tally.size) × (result.length ≤ STATIC_NAME_LIMIT)
        × (result.number ≤ tally.count + 1) }
{
    let name = base_names::name_at(file, start);
    let number = count_of(file, table, tally.count, name, nested);
    let class = statics_debug::storage_class(e.bits);
    Static {
        value: e.value,
        code: statics_debug::storage_code(class),
        start: start as u32,
        length: name.len() as u32,
        number,
        offset: tally.size,
    }
}

// What an entry comes to: whether it is at fault, its type (`kind`), and how far the table is filled after it.
#[derive(Clone, Copy)]
pub struct EntryEnd {
    pub bad: bool,
    pub kind: u32,
    pub tally: Tally,
}

// Adds the static of an entry to the table.
fn add_static(
    file: &[u8],
    head: u32,
    e: Entry,
    start: usize,
    nested: bool,
    tally: Tally,
    table: &mut [u8],
) -> EntryEnd
    requires { StaticTable head file.now table.old tally × (length file.now ≤ FILE_LIMIT) × (head ≤ HEAD_LIMIT) × (tally.count < STATIC_LIMIT)
        × (readable_name file.now start ≡ true) }
    ensures { Added head (static_from file.now (statics_in table.old tally.count) e start nested tally.size) e tally result table.old table.new }
{
    let s = static_from(file, table, tally, e, start, nested);
    let written = statics_table::written_length(head, s);
    s.write(table, tally.count);
    let next = Tally {
        count: tally.count + 1,
        size: tally.size + written,
    };
    EntryEnd {
        bad: false,
        kind: statics_debug::entry_type(e.bits),
        tally: next,
    }
}

// The end of an entry at fault: the table stays as it is.
fn stop(tally: Tally) -> EntryEnd
    ensures { result ≡ stopped tally }
{
    EntryEnd {
        bad: true,
        kind: 0,
        tally,
    }
}

// The end of an entry that lists a static.
fn walk_static(
    order: ByteOrder,
    file: &[u8],
    setting: Setting,
    at: usize,
    base: usize,
    nested: bool,
    tally: Tally,
    table: &mut [u8],
) -> EntryEnd
    requires { InSetting order file.now setting × StaticTable setting.head file.now table.old tally × (at + ENTRY_SIZE ≤ length file.now) × (base < 8589934592)
        × (is_static order file.now at ≡ true) }
    ensures { EntryWalked order file.now setting.head base at nested tally.count result table.old table.new }
{
    let e = Entry::new(order, file, at);
    let start = base + e.name as usize;
    let class = statics_debug::storage_class(e.bits);
    let view = setting.view;
    if is_listable(file, view, class, start, tally.count) {
        return add_static(file, setting.head, e, start, nested, tally, table);
    }
    stop(tally)
}

// The end of the entry at `at`, in a file whose names start at `base`. One that lists no static costs the word of its type.
pub fn walk_entry(
    order: ByteOrder,
    file: &[u8],
    setting: Setting,
    at: usize,
    base: usize,
    nested: bool,
    tally: Tally,
    table: &mut [u8],
) -> EntryEnd
    requires { InSetting order file.now setting × StaticTable setting.head file.now table.old tally × (at < 1099511627776) × (base < 8589934592) }
    ensures { EntryWalked order file.now setting.head base at nested tally.count result table.old table.new }
{
    if file.len() < at + Entry::SIZE {
        return stop(tally);
    }
    let bits = base_fields::read32(order, file, at + 8);
    let kind = statics_debug::entry_type(bits);
    if statics_debug::lists_static(kind) {
        return walk_static(order, file, setting, at, base, nested, tally, table);
    }
    EntryEnd {
        bad: false,
        kind,
        tally,
    }
}
