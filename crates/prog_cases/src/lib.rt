// What the programs share: room for files and texts, and reading them; lengths in front of a job's bytes; the draft with its working buffers; and how an
// answer is printed.
#![tactic(auto)]

ghost use Rattle.std.specs.Prelude.{◌<◌, ◌≤◌, length, IfOk};

use base_answers::Outcome;
use base_fields::ByteOrder;
use std::io;
use std::io::Read;

// What is read of a job at most, and the longest draft that is written.
pub const ROOM: usize = 1310720;

pub fn room() -> [u8; ROOM] {
    [0u8; ROOM]
}

fn blocks_room() -> [u8; base_scope::OPEN_TABLE] {
    [0u8; base_scope::OPEN_TABLE]
}

fn places_room() -> [u8; base_scope::PLACE_TABLE] {
    [0u8; base_scope::PLACE_TABLE]
}

// Reads until the buffer is full or the file is at its end, and says how many bytes that were.
pub fn read_full(file: &mut impl Read, buffer: &mut [u8]) -> io::Result<usize>
    ensures { IfOk result (λ n. n ≤ length buffer.new) }
{
    let mut done = 0;
    while done < buffer.len() {
        let n = file.read(&mut buffer[done..])?;
        if n == 0 {
            break;
        }
        done += n;
    }
    Ok(done)
}

// The length in the four bytes at `at`, the most significant first; 0 where they are not there.
pub fn length_at(s: &[u8], at: usize) -> usize
    ensures { result < 4294967296 }
{
    if at > 1024 {
        return 0;
    }
    if s.len() < at + 4 {
        return 0;
    }
    base_fields::read32(ByteOrder::Big, s, at) as usize
}

// The draft, with working buffers of the least lengths that it asks.
pub fn run_draft(compiled: &[u8], prelude: &[u8], blocks: &[u8], out: &mut [u8]) -> Outcome {
    let mut table = blocks_room();
    let mut places = places_room();
    draft_call::draft(compiled, prelude, blocks, out, &mut table, &mut places)
}

// Prints a text of a length at the front of a buffer.
pub fn print_front(rt: &impl Print, out: &[u8], length: u64) -> io::Result<()> {
    let n = length as usize;
    if n <= out.len() {
        rt.write_all(&out[0..n])?;
    }
    Ok(())
}

// Prints `refused NUMBER OBJECT PLACE`.
pub fn print_refusal(rt: &impl Print, r: Outcome) -> io::Result<()> {
    println!(rt; "refused {} {} {}", r.number, r.object, r.place)
}
