// Writes objects anew from their own sections, and prints what comes of each: `job K accepted LENGTH`, the object and LF, or `job K refused NUMBER OBJECT PLACE`. A job is
// three words, four bytes each, the most significant first, and then bytes: the length of the object; of the bytes that follow, which are the object's up to zeros at its end;
// and the room in the output. The list is the file that the first argument names.
#![tactic(auto)]

use base_answers::{Outcome, Refusal};
use std::fs::File;
use std::io::Read;
use std::{env, io};

// Refusals 1 to 6, then the object written anew.
fn write_again(file: &[u8], out: &mut [u8]) -> Outcome {
    if file.len() > base_scope::FILE_LIMIT {
        return base_answers::refused(Refusal {
            number: base_scope::LIMITS,
            object: base_answers::NONE,
            place: 0,
        });
    }
    match elf_check::check(file) {
        Ok(()) => {
            let order = elf_readers::order_of(file);
            write_object::rewrite(file, order, out)
        }
        Err(fault) => base_answers::refused(Refusal {
            number: fault.number,
            object: base_answers::COMPILED,
            place: fault.place as u64,
        }),
    }
}

fn print_accepted(rt: &impl Print, out: &[u8], length: u64) -> io::Result<()> {
    println!(rt; "accepted {length}")?;
    prog_cases::print_front(rt, out, length)?;
    println!(rt; "")
}

fn run_object(rt: &impl Print, file: &[u8], out: &mut [u8]) -> io::Result<()> {
    let r = write_again(file, out);
    if r.number == 0 {
        print_accepted(rt, out, r.length)
    } else {
        prog_cases::print_refusal(rt, r)
    }
}

// Reads a job and runs it; false at the end of the list.
fn run_job(
    rt: &impl Print,
    file: &mut impl Read,
    job: &mut [u8],
    out: &mut [u8],
) -> io::Result<bool> {
    let mut head = [0u8; 12];
    let got = prog_cases::read_full(file, &mut head)?;
    if got < 12 {
        return Ok(false);
    }
    let size = prog_cases::length_at(&head, 0);
    let stored = prog_cases::length_at(&head, 4);
    let room = prog_cases::length_at(&head, 8);
    if size > job.len() {
        return Ok(false);
    }
    if stored > size {
        return Ok(false);
    }
    if room > out.len() {
        return Ok(false);
    }
    let n = prog_cases::read_full(file, &mut job[0..stored])?;
    if n < stored {
        return Ok(false);
    }
    run_object(rt, &job[0..size], &mut out[0..room])?;
    Ok(true)
}

fn run_numbered(rt: &impl Print, file: &mut impl Read, k: u64) -> io::Result<bool> {
    print!(rt; "job {k} ")?;
    let mut job = prog_cases::room();
    let mut out = prog_cases::room();
    run_job(rt, file, &mut job, &mut out)
}

fn run_all(rt: &impl Print, file: &mut impl Read) -> io::Result<()> {
    for k in 0..1000000 {
        if !run_numbered(rt, file, k)? {
            return println!(rt; "is not there");
        }
    }
    Ok(())
}

fn main(rt: HostRuntime) -> io::Result<()> {
    let name = env::args(&rt)?.nth(1).unwrap_or(String::new(rt.alloc()));
    match File::open(&rt, &name) {
        Ok(mut file) => run_all(&rt, &mut file),
        Err(e) => eprintln!(rt; "{name}: {e}"),
    }
}
