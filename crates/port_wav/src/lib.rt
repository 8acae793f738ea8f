// Takes as files (crate wav) on the bytes that a caller lends. Each call returns one number (crate reply); it is handed neither device nor host end.
#![tactic(auto)]

ghost use Rattle.std.specs.Prelude.{◌≡◌};
ghost use Rattle.wav.specs.Files.{filled_by};
ghost use Rattle.port_wav.specs.Calls.{filled_out, reply_of, write_of, read_of};

use refusal::Refusal;
use wav::Written;

// Frames as a file into the lent space.
pub fn write(rate: u32, frames: &[u8], into: &mut [u8]) -> u64
    ensures { filled_out result into.new ≡ write_of rate frames.now into.old }
{
    fill_reply(wav::write(rate, frames, into))
}

// The frames of a file into the lent space.
pub fn read(file: &[u8], into: &mut [u8]) -> u64
    ensures { filled_out result into.new ≡ read_of file.now into.old }
{
    fill_reply(wav::read(file, into))
}

// What a call answers, as one number.
fn fill_reply(filled: Result<Written, Refusal>) -> u64
    ensures { result ≡ reply_of (filled_by filled) }
{
    match filled {
        Ok(written) => reply::fill_reply(0, written.count, written.rate),
        Err(refusal) => reply::fill_reply(refusal.number(), 0, 0),
    }
}
