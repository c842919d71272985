// Replays a list of jobs through the merge, and prints the answer of each: `job K accepted LENGTH`, the bytes of the merged object and LF; or `job K refused NUMBER OBJECT
// PLACE`. A job is twelve words, four bytes each, the most significant first, and then bytes: the lengths of the compiled object, the assembled object, the block file and
// the path; of the bytes that follow, which are those of the four up to zeros at their end; the statics mode; the lengths of the output and of the four working buffers; the
// drop flag. The list is the file that the first argument names.
#![tactic(auto)]

ghost use Rattle.std.specs.Prelude.{◌≤◌};

use std::fs::File;
use std::io::Read;
use std::{env, io};

// The length at `at` of a job's lengths, cut to that of a buffer.
fn lent(head: &[u8], at: usize, most: usize) -> usize
    ensures { result ≤ most }
{
    let n = prog_cases::length_at(head, at);
    if n > most {
        return most;
    }
    n
}

fn table_room() -> [u8; merge_buffers::BLOCK_BUFFER] {
    [0u8; merge_buffers::BLOCK_BUFFER]
}

fn places_room() -> [u8; merge_buffers::PLACE_BUFFER] {
    [0u8; merge_buffers::PLACE_BUFFER]
}

fn steps_room() -> [u8; merge_buffers::STEP_BUFFER] {
    [0u8; merge_buffers::STEP_BUFFER]
}

fn index_room() -> [u8; merge_buffers::INDEX_BUFFER] {
    [0u8; merge_buffers::INDEX_BUFFER]
}

fn print_accepted(rt: &impl Print, out: &[u8], length: u64) -> io::Result<()> {
    println!(rt; "accepted {length}")?;
    prog_cases::print_front(rt, out, length)?;
    println!(rt; "")
}

fn merge_parts<'a>(
    rt: &impl Print,
    head: &[u8],
    compiled: &'a [u8],
    assembled: &'a [u8],
    blocks: &[u8],
    path: &[u8],
    out: &mut [u8],
) -> io::Result<()> {
    let mut table = table_room();
    let mut places = places_room();
    let mut steps = steps_room();
    let mut index = index_room();
    let mode = prog_cases::length_at(head, 20) as u32;
    let flag = prog_cases::length_at(head, 44) as u32;
    let t = lent(head, 28, table.len());
    let p = lent(head, 32, places.len());
    let s = lent(head, 36, steps.len());
    let x = lent(head, 40, index.len());
    let r = merge_call::merge(
        compiled,
        assembled,
        blocks,
        path,
        flag,
        mode,
        out,
        &mut table[0..t],
        &mut places[0..p],
        &mut steps[0..s],
        &mut index[0..x],
    );
    if r.number == 0 {
        print_accepted(rt, out, r.length)
    } else {
        prog_cases::print_refusal(rt, r)
    }
}

// Runs a job whose parts end at a, b, e and p of the bytes read.
fn run_parts(
    rt: &impl Print,
    head: &[u8],
    job: &[u8],
    a: usize,
    b: usize,
    e: usize,
    p: usize,
    out: &mut [u8],
) -> io::Result<()> {
    if a > b {
        return Ok(());
    }
    if b > e {
        return Ok(());
    }
    if e > p {
        return Ok(());
    }
    if p > job.len() {
        return Ok(());
    }
    let size = lent(head, 24, out.len());
    merge_parts(
        rt,
        head,
        &job[0..a],
        &job[a..b],
        &job[b..e],
        &job[e..p],
        &mut out[0..size],
    )
}

// Reads a job and runs it; false at the end of the list.
fn run_job(
    rt: &impl Print,
    file: &mut impl Read,
    job: &mut [u8],
    out: &mut [u8],
) -> io::Result<bool> {
    let mut head = [0u8; 48];
    let got = prog_cases::read_full(file, &mut head)?;
    if got < 48 {
        return Ok(false);
    }
    let a = prog_cases::length_at(&head, 0);
    let b = a + prog_cases::length_at(&head, 4);
    let e = b + prog_cases::length_at(&head, 8);
    let p = e + prog_cases::length_at(&head, 12);
    if p > job.len() {
        return Ok(false);
    }
    let stored = lent(&head, 16, p);
    let n = prog_cases::read_full(file, &mut job[0..stored])?;
    if n < stored {
        return Ok(false);
    }
    run_parts(rt, &head, job, a, b, e, p, out)?;
    Ok(true)
}

fn run_numbered(rt: &impl Print, file: &mut impl Read, k: u64) -> io::Result<bool> {
    print!(rt; "job {k} ")?;
    let mut job = prog_cases::room();
    let mut out = prog_cases::room();
    run_job(rt, file, &mut job, &mut out)
}

fn run_all(rt: &impl Print, file: &mut impl Read) -> io::Result<()> {
    for k in 0..1000000 {
        if !run_numbered(rt, file, k)? {
            return println!(rt; "is not there");
        }
    }
    Ok(())
}

fn main(rt: HostRuntime) -> io::Result<()> {
    let name = env::args(&rt)?.nth(1).unwrap_or(String::new(rt.alloc()));
    match File::open(&rt, &name) {
        Ok(mut file) => run_all(&rt, &mut file),
        Err(e) => eprintln!(rt; "{name}: {e}"),
    }
}
