// Prints every format word that the device takes, as four hexadecimal digits, and its rate, rising (document 01, Format word).
#![tactic(auto)]

ghost use Rattle.std.specs.Prelude.{◌≡◌, ◌<◌, OnOk};
ghost use Rattle.std.specs.Io.KnownBytes.{Appends};
ghost use Rattle.formats.specs.Line.{digit_of, line_of, shown_of, shown_below};

use std::io;
use std::io::Write;

// The digit that stands for a number below 16.
fn digit(n: u32) -> u8
    requires { n < 16 }
    ensures { result ≡ digit_of n }
{
    if n < 10 { 48 + n as u8 } else { 87 + n as u8 }
}

// The line for a word and its rate, as a whole, so that it goes out in one write: `writeln!` hands each piece on by itself.
fn line(word: u16, rate: u32) -> [u8; 11]
    ensures { result ≡ line_of word rate }
{
    let w = word as u32;
    [
        digit(w / 4096 % 16),
        digit(w / 256 % 16),
        digit(w / 16 % 16),
        digit(w % 16),
        b' ',
        digit(rate / 10000 % 10),
        digit(rate / 1000 % 10),
        digit(rate / 100 % 10),
        digit(rate / 10 % 10),
        digit(rate % 10),
        b'\n',
    ]
}

// Writes a word's line where the device takes the word.
fn show<W: Write>(out: &mut W, word: u16) -> io::Result<()>
    ensures { OnOk result (Appends (W.contents out.old) (W.contents out.new) (shown_of word)) }
{
    match format::decode(word) {
        Some(rate) => {
            let text = line(word, rate);
            out.write_all(&text)
        }
        None => Ok(()),
    }
}

// Writes the lines of all words.
fn show_all<W: Write>(out: &mut W) -> io::Result<()>
    ensures { OnOk result (Appends (W.contents out.old) (W.contents out.new) (shown_below 65536)) }
{
    for word in 0..=u16::MAX {
        show(out, word)?;
    }
    Ok(())
}

fn main(rt: HostRuntime) -> io::Result<()> {
    show_all(&mut io::writer(&rt))
}
