// Replays a list of jobs on objects with debug sections and prints what each comes to: `job K listed COUNT` and a line for each static (value, section, type,
// binding, offset of its name, name), or `job K refused NUMBER PLACE`; then, for each debug section, its header's words after a move, or `refused`.
// A job is four words, four bytes each, the most significant first (the object's length, the statics mode, the path's length, by how much each debug
// section moves), and then the object and the path. The list is the file that the first argument names.
#![tactic(auto)]

ghost use Rattle.std.specs.Prelude.{◌≡◌, ◌<◌, ◌≤◌, length};
ghost use Rattle.base_scope.specs.Limits.{FILE_LIMIT, PATH_LIMIT, STATIC_LIMIT, STATIC_TABLE};
ghost use Rattle.elf_readers.specs.Readers.{section_count};
ghost use Rattle.elf_readers.specs.Bounds.{Headed, Named};
ghost use Rattle.elf_symbols.specs.Symbols.{Tabled};

use base_fields::ByteOrder;
use elf_check::View;
use statics_table::Static;
use std::fs::File;
use std::io::Read;
use std::{env, io};

fn print_number(rt: &impl Print, x: u64) -> io::Result<()> {
    print!(rt; " {x}")
}

fn print_refusal(rt: &impl Print, number: u32, place: usize) -> io::Result<()> {
    println!(rt; "refused {number} {place}")
}

// The index of the section of a code in the compiled object.
fn section_of(view: View, code: u32) -> usize {
    if code == 0 {
        return view.sections;
    }
    if code > base_scope::CODES {
        return view.sections;
    }
    view.section(code)
}

fn print_static(
    rt: &impl Print,
    file: &[u8],
    view: View,
    mode: u32,
    path: &[u8],
    s: Static,
) -> io::Result<()>
    requires { (length file.now ≤ FILE_LIMIT) × (length path.now ≤ PATH_LIMIT) }
{
    let section = section_of(view, s.code);
    let kind = statics_names::static_type(s);
    let binding = statics_names::static_binding(mode);
    print!(rt; "{} {section} {kind} {binding} {} ", s.value, s.offset)?;
    let mut name = [0u8; 4096];
    let end = statics_names::append_written(&mut name, 0, mode, path, file, s);
    prog_cases::print_front(rt, &name, end)?;
    println!(rt; "")
}

fn print_statics(
    rt: &impl Print,
    file: &[u8],
    view: View,
    mode: u32,
    path: &[u8],
    table: &[u8],
    count: usize,
) -> io::Result<()>
    requires { (length file.now ≤ FILE_LIMIT) × (length path.now ≤ PATH_LIMIT) × (count ≤ STATIC_LIMIT) × (STATIC_TABLE ≤ length table.now) }
{
    println!(rt; "listed {count}")?;
    for k in 0..count {
        print_static(rt, file, view, mode, path, Static::read(table, k))?;
    }
    Ok(())
}

// The words of a header.
fn print_words(rt: &impl Print, order: ByteOrder, header: &[u8]) -> io::Result<()>
    requires { length header.now ≡ 96 }
{
    for i in 1..24usize {
        print_number(rt, base_fields::read32(order, header, 4 * i) as u64)?;
    }
    Ok(())
}

// The header of a debug section after a move.
fn print_moved(
    rt: &impl Print,
    order: ByteOrder,
    debug: &[u8],
    old: u32,
    new: u32,
) -> io::Result<()>
    requires { 96 ≤ length debug.now }
{
    let mut header = [0u8; 96];
    base_fields::write_bytes(&mut header, 0, &debug[0..96]);
    statics_shift::move_debug(order, &mut header, old, new);
    print_words(rt, order, &header)
}

// The same of a section of which nothing is known yet.
fn print_shift(
    rt: &impl Print,
    order: ByteOrder,
    debug: &[u8],
    old: u32,
    new: u32,
) -> io::Result<()> {
    if statics_shift::shift_fails(order, debug, base_scope::SHT_MIPS_DEBUG, old, new) {
        return print!(rt; " refused");
    }
    if debug.len() >= 96 {
        print_moved(rt, order, debug, old, new)?;
    }
    Ok(())
}

fn print_debug(rt: &impl Print, order: ByteOrder, file: &[u8], i: usize, by: u32) -> io::Result<()>
    requires { Headed order file.now × (i < section_count order file.now) }
{
    let h = elf_readers::section_at(order, file, i);
    if h.sh_type != base_scope::SHT_MIPS_DEBUG {
        return Ok(());
    }
    let debug = elf_readers::contents_of(order, file, i);
    let new = h.sh_offset.wrapping_add(by);
    print!(rt; "debug {i}")?;
    print_shift(rt, order, debug, h.sh_offset, new)?;
    println!(rt; "")
}

fn print_sections(rt: &impl Print, order: ByteOrder, file: &[u8], by: u32) -> io::Result<()>
    requires { Headed order file.now }
{
    let n = elf_readers::section_count(order, file);
    for i in 0..n {
        print_debug(rt, order, file, i, by)?;
    }
    Ok(())
}

fn run_accepted(
    rt: &impl Print,
    order: ByteOrder,
    file: &[u8],
    mode: u32,
    path: &[u8],
    table: &mut [u8],
) -> io::Result<()>
    requires { Named order file.now × Tabled order file.now × (length file.now ≤ FILE_LIMIT) × (length path.now ≤ PATH_LIMIT) × (STATIC_TABLE ≤ length table.old) }
{
    let view = elf_check::view_of(order, file);
    let head = statics_names::head_length(mode, path);
    let r = statics_walk::list_statics(order, file, view, mode, head, table);
    let fault = r.fault;
    let tally = r.tally;
    match fault {
        None => print_statics(rt, file, view, mode, path, table, tally.count),
        Some(place) => print_refusal(rt, base_scope::STATICS, place),
    }
}

fn run_object(
    rt: &impl Print,
    file: &[u8],
    mode: u32,
    path: &[u8],
    by: u32,
    table: &mut [u8],
) -> io::Result<()>
    requires { (length file.now ≤ FILE_LIMIT) × (length path.now ≤ PATH_LIMIT) × (STATIC_TABLE ≤ length table.old) }
{
    let order = elf_readers::order_of(file);
    let answer = elf_check::check(file);
    match answer {
        Err(fault) => print_refusal(rt, fault.number, fault.place),
        Ok(()) => {
            run_accepted(rt, order, file, mode, path, table)?;
            print_sections(rt, order, file, by)
        }
    }
}

fn table_room() -> [u8; base_scope::STATIC_TABLE]
    ensures { length result ≡ STATIC_TABLE }
{
    [0u8; base_scope::STATIC_TABLE]
}

// Runs a job whose parts end at a and e of the bytes read.
fn run_parts(
    rt: &impl Print,
    job: &[u8],
    a: usize,
    e: usize,
    mode: u32,
    by: u32,
) -> io::Result<()> {
    if a > e {
        return Ok(());
    }
    if e > job.len() {
        return Ok(());
    }
    if a > base_scope::FILE_LIMIT {
        return Ok(());
    }
    if e - a > 255 {
        return Ok(());
    }
    let mut table = table_room();
    run_object(rt, &job[0..a], mode, &job[a..e], by, &mut table)
}

// Reads a job and runs it; false at the end of the list.
fn run_job(rt: &impl Print, file: &mut impl Read, job: &mut [u8]) -> io::Result<bool> {
    let mut head = [0u8; 16];
    let got = prog_cases::read_full(file, &mut head)?;
    if got < 16 {
        return Ok(false);
    }
    let a = prog_cases::length_at(&head, 0);
    let e = a + prog_cases::length_at(&head, 8);
    if e > job.len() {
        return Ok(false);
    }
    let n = prog_cases::read_full(file, &mut job[0..e])?;
    if n < e {
        return Ok(false);
    }
    let mode = prog_cases::length_at(&head, 4) as u32;
    let by = prog_cases::length_at(&head, 12) as u32;
    run_parts(rt, job, a, e, mode, by)?;
    Ok(true)
}

fn run_numbered(rt: &impl Print, file: &mut impl Read, k: u64) -> io::Result<bool> {
    print!(rt; "job {k} ")?;
    let mut job = prog_cases::room();
    run_job(rt, file, &mut job)
}

fn run_all(rt: &impl Print, file: &mut impl Read) -> io::Result<()> {
    for k in 0..1000000 {
        if !run_numbered(rt, file, k)? {
            return println!(rt; "is not there");
        }
    }
    Ok(())
}

fn main(rt: HostRuntime) -> io::Result<()> {
    let name = env::args(&rt)?.nth(1).unwrap_or(String::new(rt.alloc()));
    match File::open(&rt, &name) {
        Ok(mut file) => run_all(&rt, &mut file),
        Err(e) => eprintln!(rt; "{name}: {e}"),
    }
}
