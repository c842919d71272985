// Replays a list of draft jobs and prints the answer of each: `job K accepted LENGTH` and the text, or `job K refused NUMBER OBJECT PLACE`.
// A job is four lengths, four bytes each, the most significant first (compiled object, prelude, block file, room in the output), and then the bytes of
// the first three. The list is the file that the first argument names.
#![tactic(auto)]

use std::fs::File;
use std::io::Read;
use std::{env, io};

fn print_accepted(rt: &impl Print, out: &[u8], length: u64) -> io::Result<()> {
    println!(rt; "accepted {length}")?;
    prog_cases::print_front(rt, out, length)
}

fn draft_parts(
    rt: &impl Print,
    compiled: &[u8],
    prelude: &[u8],
    blocks: &[u8],
    out: &mut [u8],
) -> io::Result<()> {
    let r = prog_cases::run_draft(compiled, prelude, blocks, out);
    if r.number == 0 {
        print_accepted(rt, out, r.length)
    } else {
        prog_cases::print_refusal(rt, r)
    }
}

// Runs a job whose parts end at a, b and e of the bytes read, with so much room in the output.
fn run_parts(
    rt: &impl Print,
    job: &[u8],
    a: usize,
    b: usize,
    e: usize,
    out: &mut [u8],
    size: usize,
) -> io::Result<()> {
    if a > b {
        return Ok(());
    }
    if b > e {
        return Ok(());
    }
    if e > job.len() {
        return Ok(());
    }
    if size > out.len() {
        return Ok(());
    }
    draft_parts(rt, &job[0..a], &job[a..b], &job[b..e], &mut out[0..size])
}

// Reads a job and runs it; false at the end of the list.
fn run_job(
    rt: &impl Print,
    file: &mut impl Read,
    job: &mut [u8],
    out: &mut [u8],
) -> io::Result<bool> {
    let mut head = [0u8; 16];
    let got = prog_cases::read_full(file, &mut head)?;
    if got < 16 {
        return Ok(false);
    }
    let a = prog_cases::length_at(&head, 0);
    let b = a + prog_cases::length_at(&head, 4);
    let e = b + prog_cases::length_at(&head, 8);
    let size = prog_cases::length_at(&head, 12);
    if e > job.len() {
        return Ok(false);
    }
    let n = prog_cases::read_full(file, &mut job[0..e])?;
    if n < e {
        return Ok(false);
    }
    run_parts(rt, job, a, b, e, out, size)?;
    Ok(true)
}

fn run_numbered(rt: &impl Print, file: &mut impl Read, k: u64) -> io::Result<bool> {
    print!(rt; "job {k} ")?;
    let mut job = prog_cases::room();
    let mut out = prog_cases::room();
    run_job(rt, file, &mut job, &mut out)
}

fn run_all(rt: &impl Print, file: &mut impl Read) -> io::Result<()> {
    for k in 0..1000000 {
        if !run_numbered(rt, file, k)? {
            return println!(rt; "is not there");
        }
    }
    Ok(())
}

fn main(rt: HostRuntime) -> io::Result<()> {
    let name = env::args(&rt)?.nth(1).unwrap_or(String::new(rt.alloc()));
    match File::open(&rt, &name) {
        Ok(mut file) => run_all(&rt, &mut file),
        Err(e) => eprintln!(rt; "{name}: {e}"),
    }
}
