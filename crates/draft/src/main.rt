// Makes the draft of a case and writes it to standard output; a refusal is a line `refused NUMBER OBJECT PLACE`.
// A case file is three lengths, four bytes each, the most significant first, and then that many bytes of the compiled object, the prelude and the
// block file.
#![tactic(auto)]

use std::fs::File;
use std::io::Read;
use std::{env, io};

fn draft_parts(
    rt: &impl Print,
    compiled: &[u8],
    prelude: &[u8],
    blocks: &[u8],
    out: &mut [u8],
) -> io::Result<()> {
    let r = prog_cases::run_draft(compiled, prelude, blocks, out);
    if r.number == 0 {
        prog_cases::print_front(rt, out, r.length)
    } else {
        prog_cases::print_refusal(rt, r)
    }
}

fn draft_case(rt: &impl Print, case: &[u8], out: &mut [u8]) -> io::Result<()> {
    let a = 12 + prog_cases::length_at(case, 0);
    let b = a + prog_cases::length_at(case, 4);
    let e = b + prog_cases::length_at(case, 8);
    if e > case.len() {
        return println!(rt; "the case is cut short");
    }
    draft_parts(rt, &case[12..a], &case[a..b], &case[b..e], out)
}

fn draft_read(
    rt: &impl Print,
    file: &mut impl Read,
    case: &mut [u8],
    out: &mut [u8],
) -> io::Result<()> {
    let n = prog_cases::read_full(file, case)?;
    draft_case(rt, &case[..n], out)
}

fn draft_open(rt: &impl Print, file: &mut impl Read) -> io::Result<()> {
    let mut case = prog_cases::room();
    let mut out = prog_cases::room();
    draft_read(rt, file, &mut case, &mut out)
}

fn main(rt: HostRuntime) -> io::Result<()> {
    let name = env::args(&rt)?.nth(1).unwrap_or(String::new(rt.alloc()));
    match File::open(&rt, &name) {
        Ok(mut file) => draft_open(&rt, &mut file),
        Err(e) => eprintln!(rt; "{name}: {e}"),
    }
}
