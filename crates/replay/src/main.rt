// Runs the recorded answers of the Rust on the proved code. The file `answers` has one answer a line, with what the leaf was handed
// (specs/Answers.antt); `leaves record` of rust/leaves writes it. The letter in front is a capital where the unchanged Rust answered. It stands in
// lower case where the amended Rust did, the one with the differences (rust/amended), since the unchanged Rust answers otherwise there. The
// last line that is printed says how many lines there were, how many of them the amended Rust answered, and how many the proved code answers
// in another way; the first ten of those are printed, each with the proved code's own answer.
//
// No contract can say what a file holds. So what is stated is what any bytes give: verdict.rt has it for a line, lines.rt for all of them, and `run`
// for what is printed of the bytes that a reader gives.
#![tactic(auto)]

mod answers;
mod hex;
mod lines;
mod verdict;

ghost use Rattle.std.specs.Prelude.{◌≡◌, ◌<◌, ◌≤◌, IfOk, OnOk, IfSome, length, take};
ghost use Rattle.std.specs.Io.KnownBytes.{Appends, Consumes, IsAtEnd};
ghost use Rattle.replay.specs.Printed.{summary_of, output_of};

use std::io::{Read, Write};
use std::{fs, io};
use verdict::Tally;

// Bytes that a file has to stay below: one that fills the room may go on behind it.
const ROOM: usize = 1048576;

fn main(rt: HostRuntime) -> io::Result<()> {
    run(&mut fs::open(&rt, "answers")?, &mut io::writer(&rt))
}

// What the program prints of a file's bytes.
fn run<R: Read, W: Write>(file: &mut R, out: &mut W) -> io::Result<()>
    ensures { OnOk result (IfSome (R.remaining file.old) (λ bytes. Appends (W.contents out.old) (W.contents out.new) (output_of bytes))) }
{
    let mut data = room();
    let count = read_full(file, &mut data)?;
    if count == ROOM {
        return out.write_all(b"answers is too long: there is room for 1048575 bytes\n");
    }
    let tally = lines::judge_all(out, &data[..count])?;
    print(out, tally)
}

// Zeros. The `ensures` gives the length alone, which lending the array as a slice needs.
fn room() -> [u8; ROOM]
    ensures { 1048576 ≡ length result }
{
    [0; ROOM]
}

// Reads until the room is full or the file ends: how many bytes, which stand at its start. An array and no `Vec`: a program that allocates
// rests on more functions of the system, and can run out of memory.
fn read_full<R: Read>(file: &mut R, room: &mut [u8]) -> io::Result<usize>
    ensures upper_bound { IfOk result (λ count. count ≤ length room.new) }
    ensures bytes { IfOk result (λ count. Consumes (R.remaining file.old) (R.remaining file.new) (take count room.new)) }
    ensures ended { IfOk result (λ count. count < length room.new → IsAtEnd (R.remaining file.new)) }
{
    let mut done = 0;
    while done < room.len() {
        let count = file.read(&mut room[done..])?;
        if count == 0 {
            return Ok(done);
        }
        done += count;
    }
    Ok(done)
}

#[tactic(auto, unfolding(crate::specs::Printed::summary_of))]
fn print<W: Write>(out: &mut W, tally: Tally) -> io::Result<()>
    ensures { OnOk result (Appends (W.contents out.old) (W.contents out.new) (summary_of tally)) }
{
    let lines = tally.lines;
    let amended = tally.amended;
    let differ = tally.differ;
    writeln!(
        out,
        "{lines} answers, {amended} of them by the amended Rust, {differ} differ"
    )
}
