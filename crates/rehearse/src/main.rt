// Runs recorded calls of the Rust device on the proved device, with no Rust at hand. The file `calls` has sequences of calls, each with what the Rust
// returned and a digest of all that it then held (src/call.rt); `judge record` of rust/harness writes it. The line that is printed says how many there
// were, how many of them not the unchanged Rust answered but the amended one, which has the differences, and that all were as recorded, or that the last
// was not.
//
// No contract can say what a file holds. So what is stated is what any bytes give: calls.rt, digest.rt, noise.rt and verdict.rt have it for one call, play.rt
// for all of them, and `run` for what is printed of the bytes that a reader gives.
#![tactic(auto)]

mod call;
mod calls;
mod digest;
mod noise;
mod play;
mod verdict;

ghost use Rattle.std.specs.Prelude.{◌≡◌, ◌<◌, ◌≤◌, IfOk, OnOk, IfSome, length, take};
ghost use Rattle.std.specs.Io.KnownBytes.{Appends, Consumes, IsAtEnd};
ghost use Rattle.rehearse.specs.Printed.{rehearsed_of, summary_of, output_of};

use play::Tally;
use std::io::{Read, Write};
use std::{fs, io};

// Bytes of a file that are read at most.
const ROOM: usize = 1310720;

fn main(rt: HostRuntime) -> io::Result<()> {
    run(&mut fs::open(&rt, "calls")?, &mut io::writer(&rt))
}

// What the program prints of a file's bytes.
fn run<R: Read, W: Write>(file: &mut R, out: &mut W) -> io::Result<()>
    ensures { OnOk result (IfSome (R.remaining file.old) (λ bytes. Appends (W.contents out.old) (W.contents out.new) (output_of bytes))) }
{
    let mut data = room();
    let count = read_full(file, &mut data)?;
    let tally = rehearse(&data[..count]);
    print(out, tally)
}

// Zeros. The `ensures` gives the length alone, which lending the array as a slice needs.
fn room() -> [u8; ROOM]
    ensures { 1310720 ≡ length result }
{
    [0; ROOM]
}

// Reads until the room is full or the file ends: how many bytes, which stand at its start. An array and no `Vec`: a program that allocates
// rests on more functions of the system, and can run out of memory.
fn read_full<R: Read>(file: &mut R, room: &mut [u8]) -> io::Result<usize>
    ensures upper_bound { IfOk result (λ count. count ≤ length room.new) }
    ensures bytes { IfOk result (λ count. Consumes (R.remaining file.old) (R.remaining file.new) (take count room.new)) }
    ensures ended { IfOk result (λ count. count < length room.new → IsAtEnd (R.remaining file.new)) }
{
    let mut done = 0;
    while done < room.len() {
        let count = file.read(&mut room[done..])?;
        if count == 0 {
            return Ok(done);
        }
        done += count;
    }
    Ok(done)
}

// The spaces that calls are lent: records, lists, queues, guest memory, and room for what a call reads.
fn rehearse(data: &[u8]) -> Tally
    ensures { result ≡ rehearsed_of data.now }
{
    let mut device: [u8; 749] = [0; 749];
    let mut host: [u8; 16] = [0; 16];
    let mut lists: [u8; 69632] = [0; 69632];
    let mut queues: [u8; 4096] = [0; 4096];
    let mut memory: [u8; 262144] = [0; 262144];
    let mut room: [u8; 70380] = [0; 70380];
    play::play(
        data,
        &mut device,
        &mut host,
        &mut lists,
        &mut queues,
        &mut memory,
        &mut room,
    )
}

#[tactic(auto, unfolding(crate::specs::Printed::summary_of))]
fn print<W: Write>(out: &mut W, tally: Tally) -> io::Result<()>
    ensures { OnOk result (Appends (W.contents out.old) (W.contents out.new) (summary_of tally)) }
{
    let calls = tally.calls;
    let amended = tally.amended;
    let sequences = tally.sequences;
    write!(
        out,
        "{calls} calls, {amended} of them by the amended Rust, in {sequences} sequences"
    )?;
    if tally.same {
        out.write_all(b": all as recorded\n")
    } else {
        out.write_all(b": the last call differs\n")
    }
}
