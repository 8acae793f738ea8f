// The lines of a file's bytes: each is judged and counted, and the first that differ are printed.
ghost use Rattle.std.specs.Prelude.{◌≡◌, ◌≤◌, ◌==◌, IfOk, OnOk, length};
ghost use Rattle.std.specs.Io.KnownBytes.{Appends};
ghost use Rattle.std.specs.List.{position_or_len};
ghost use Rattle.replay.specs.Verdict.{line_counted};
ghost use Rattle.replay.specs.Lines.{tally_of};
ghost use Rattle.replay.specs.Printed.{line_text, own_text, report_of, line_reported, reported_of};

use crate::verdict;
use crate::verdict::{Tally, Verdict};
use std::io;
use std::io::Write;

// How many lines are printed, at most.
const MOST_PRINTED: u64 = 10;

// All lines, the last one also where no line end follows it. It fails only where a line is printed.
pub fn judge_all<W: Write>(out: &mut W, all: &[u8]) -> io::Result<Tally>
    ensures value { IfOk result (λ tally. tally ≡ tally_of all.now) }
    ensures written { OnOk result (Appends (W.contents out.old) (W.contents out.new) (reported_of all.now)) }
{
    let mut tally = Tally {
        lines: 0,
        amended: 0,
        differ: 0,
    };
    let mut start = 0;
    // Not by `split`, which gives one line more behind the last line end.
    while start < all.len() {
        let stop = start + line_size(&all[start..]);
        tally = judge_one(out, &all[start..stop], tally)?;
        start = stop + 1;
    }
    Ok(tally)
}

// How many bytes stand before the first line end, or all.
fn line_size(bytes: &[u8]) -> usize
    ensures value { result ≡ position_or_len (λ b. b == 10) bytes.now }
    ensures upper_bound { result ≤ length bytes.now }
{
    bytes
        .iter()
        .position(|b| *b == b'\n')
        .unwrap_or(bytes.len())
}

// One line more, printed if it is among the first that differ.
fn judge_one<W: Write>(out: &mut W, line: &[u8], tally: Tally) -> io::Result<Tally>
    ensures value { IfOk result (λ counted. counted ≡ line_counted tally line.now) }
    ensures written { OnOk result (Appends (W.contents out.old) (W.contents out.new) (line_reported tally line.now)) }
{
    let mut own = [0; 4096];
    let found = verdict::judge_line(line, &mut own);
    if tally.differ < MOST_PRINTED {
        let number = tally.lines.wrapping_add(1);
        report(out, number, line, &own, found)?;
    }
    Ok(tally.counted(found).attributed(verdict::is_amended(line)))
}

// Where a line differs: its number, the line, and the line as the proved code has it.
fn report<W: Write>(
    out: &mut W,
    number: u64,
    line: &[u8],
    own: &[u8],
    verdict: Verdict,
) -> io::Result<()>
    ensures { OnOk result (Appends (W.contents out.old) (W.contents out.new) (report_of verdict number line.now own.now)) }
{
    match verdict {
        Verdict::Same => Ok(()),
        Verdict::Differs => {
            print_line(out, number, line)?;
            print_own(out, line, own)
        }
        Verdict::Unreadable => {
            print_line(out, number, line)?;
            out.write_all(b"cannot be read\n")
        }
    }
}

#[tactic(auto, unfolding(crate::specs::Printed::line_text))]
fn print_line<W: Write>(out: &mut W, number: u64, line: &[u8]) -> io::Result<()>
    ensures { OnOk result (Appends (W.contents out.old) (W.contents out.new) (line_text number line.now)) }
{
    writeln!(out, "line {number}")?;
    out.write_all(line)?;
    out.write_all(b"\n")
}

// The line's letter and the proved code's digits, which stand at the start of `own`.
#[tactic(auto, unfolding(crate::specs::Printed::own_text))]
fn print_own<W: Write>(out: &mut W, line: &[u8], own: &[u8]) -> io::Result<()>
    ensures { OnOk result (Appends (W.contents out.old) (W.contents out.new) (own_text line.now own.now)) }
{
    if line.is_empty() {
        return Ok(());
    }
    let digits = line.len() - 1;
    if digits <= own.len() {
        out.write_all(&line[..1])?;
        out.write_all(&own[..digits])?;
        out.write_all(b"\n")?;
    }
    Ok(())
}
