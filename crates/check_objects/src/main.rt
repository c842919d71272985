// Checks objects as document 01 does: for each file that it is given it prints the name and `accepted`, or `refused`, number and place.
#![tactic(auto)]

use elf_check::Fault;
use std::fs::File;
use std::io::Read;
use std::rt::Files;
use std::{env, io};

// A byte more than the largest file that document 01 takes, so that a longer one is seen to be longer.
const ROOM: usize = base_scope::FILE_LIMIT + 1;

fn print_refusal(rt: &impl Print, number: u32, place: usize) -> io::Result<()> {
    print!(rt; "refused {number} {place}")
}

fn print_answer(rt: &impl Print, answer: Result<(), Fault>) -> io::Result<()> {
    match answer {
        Ok(()) => print!(rt; "accepted"),
        Err(fault) => print_refusal(rt, fault.number, fault.place),
    }
}

fn check_read(rt: &impl Print, input: &mut impl Read, file: &mut [u8]) -> io::Result<()> {
    let n = prog_cases::read_full(input, file)?;
    print_answer(rt, elf_check::check(&file[..n]))
}

fn room() -> [u8; ROOM] {
    [0u8; ROOM]
}

fn check_open(rt: &impl Print, input: &mut impl Read) -> io::Result<()> {
    let mut file = room();
    check_read(rt, input, &mut file)
}

fn check_file(rt: &impl Print, name: &str, input: &mut impl Read) -> io::Result<()> {
    print!(rt; "{name}: ")?;
    check_open(rt, input)?;
    println!(rt; "")
}

fn check_argument(rt: &(impl Files + Print + Eprint + AllocGlobal), name: &str) -> io::Result<()> {
    match File::open(rt, name) {
        Ok(mut input) => check_file(rt, name, &mut input),
        Err(e) => eprintln!(rt; "{name}: {e}"),
    }
}

fn main(rt: HostRuntime) -> io::Result<()> {
    for name in env::args(&rt)?.skip(1) {
        check_argument(&rt, &name)?;
    }
    Ok(())
}
