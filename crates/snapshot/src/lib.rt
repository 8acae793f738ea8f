// A device's saved state: `save` (document 01, "Numbers returned"; the Rust's `save_state`).
#![tactic(auto)]

ghost use Rattle.std.specs.Prelude.{◌≡◌, ◌+◌, ◌*◌, ◌≤◌, length};
ghost use Rattle.word.specs.Place.{put_at};
ghost use Rattle.stream.specs.Box.{streams};
ghost use Rattle.snapshot.specs.States.{stream_of, streams_of, size_of, Few, Kept};
ghost use Rattle.snapshot.specs.Saves.{save_out, saved_of, save_step, save_of};

use device::Hda;
use host::Host;
use refusal::Refusal;
use stream::{STREAMS, Stream};

// What `save` answers beside the lent space: its number, the INTx level, and how many bytes it wrote.
// No Result: the C reply has all three also where the call is refused.
#[derive(Clone, Copy)]
pub struct Saved {
    pub number: u32,
    pub level: bool,
    pub count: u32,
}

// A stream's numbers, with the bytes of its pending positions behind them.
fn put_stream(s: Stream, list: &[u8], into: &mut [u8], at: usize)
    requires { (8 * s.pending ≤ length list.now) × (at + (34 + 8 * s.pending) ≤ length into.old) }
    ensures { into.new ≡ put_at at (stream_of s list.now) into.old }
{
    let bytes = 8 * (s.pending as usize);
    record::put_numbers(s, into, at);
    record::put(into, at + record::NUMBERS, &list[..bytes]);
}

// Bytes of a stream: its numbers, and its positions.
fn stream_size(s: Stream) -> usize
    ensures { result ≡ 34 + 8 * s.pending }
{
    record::NUMBERS + 8 * (s.pending as usize)
}

// Bytes of the state.
fn size(hda: Hda) -> usize
    requires { Few hda }
    ensures { result ≡ size_of hda }
{
    let mut bytes = record::HEAD;
    for index in 0..STREAMS {
        bytes += stream_size(hda.streams[index]);
    }
    bytes
}

// Every stream, one behind the other.
fn put_streams(hda: Hda, lists: &[u8], into: &mut [u8])
    requires { Kept hda lists.now × (size_of hda ≤ length into.old) }
    ensures { into.new ≡ put_at 680 (streams_of streams 0 hda lists.now) into.old }
{
    let mut at = record::HEAD;
    for index in 0..STREAMS {
        let s = hda.streams[index];
        let list = Stream::LIST * index;
        put_stream(s, &lists[list..list + Stream::LIST], into, at);
        at += stream_size(s);
    }
}

fn answer(hda: Hda, number: u32, count: u32) -> Saved
    ensures { result ≡ saved_of number hda count }
{
    Saved {
        number,
        level: pci::level(&hda.config, &hda.regs),
        count,
    }
}

// Behind the check. The size is known before anything is written.
fn save_step(hda: Hda, lists: &[u8], into: &mut [u8]) -> Saved
    requires { Kept hda lists.now }
    ensures { save_out result into.new ≡ save_step hda lists.now into.old }
{
    let bytes = size(hda);
    if into.len() < bytes {
        return answer(hda, Refusal::LentSpace.number(), 0);
    }
    record::put_head(hda, into);
    put_streams(hda, lists, into);
    answer(hda, 0, bytes as u32)
}

// The state from the start of the lent space on; the rest stays.
pub fn save(hda: Hda, host: Host, lists: &[u8], queues: &[u8], into: &mut [u8]) -> Saved
    ensures { save_out result into.new ≡ save_of hda host lists.now (length queues.now) into.old }
{
    if let Err(refusal) = hda.check(host, lists, queues.len()) {
        return answer(hda, refusal.number(), 0);
    }
    save_step(hda, lists, into)
}
