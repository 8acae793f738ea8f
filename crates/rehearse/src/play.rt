// All recorded calls in their order, up to the first that is not as recorded.
ghost use Rattle.std.specs.Prelude.{◌≡◌};
ghost use Rattle.port_device.specs.Calls.{lent};
ghost use Rattle.rehearse.specs.Recorded.{next_if, counted_of, length_of};
ghost use Rattle.rehearse.specs.Verdict.{played, play_of};

use crate::call::Call;
use crate::{call, verdict};

// How many calls and sequences there were, how many of the calls the amended Rust had answered, and whether all were as recorded.
#[derive(Clone, Copy, PartialEq, Eq, Debug)]
pub struct Tally {
    pub calls: u64,
    pub sequences: u64,
    pub amended: u64,
    pub same: bool,
}

impl Tally {
    // One call more; kind 0 starts a sequence.
    fn counted(self, tag: u8, same: bool) -> Tally
        ensures { result ≡ counted_of self tag same }
    {
        Tally {
            calls: self.calls.wrapping_add(1),
            sequences: next_if(tag % 128 == 0, self.sequences),
            amended: next_if(tag >= 128, self.amended),
            same,
        }
    }
}

// The next count, where there is one more to count.
fn next_if(more: bool, count: u64) -> u64
    ensures { result ≡ next_if more count }
{
    if more { count.wrapping_add(1) } else { count }
}

// Bytes that are no whole call are counted by the tag of no call.
const NO_CALL: u8 = 127;

// Kind 1 says how long guest memory is from then on.
fn length_of(call: Call, length: usize) -> usize
    ensures { result ≡ length_of call length }
{
    if call.kind == 1 {
        call.first as usize
    } else {
        length
    }
}

// The calls in the bytes of a file, whatever these are.
pub fn play(
    all: &[u8],
    device: &mut [u8],
    host: &mut [u8],
    lists: &mut [u8],
    queues: &mut [u8],
    memory: &mut [u8],
    room: &mut [u8],
) -> Tally
    ensures { played result (lent device.new host.new lists.new queues.new memory.new) room.new ≡ play_of all.now (lent device.old host.old lists.old queues.old memory.old) room.old }
{
    let mut tally = Tally {
        calls: 0,
        sequences: 0,
        amended: 0,
        same: true,
    };
    let mut length = 0;
    let mut at = 0;
    // Each call is as long as it says, so that no range is gone through here.
    while at < all.len() {
        if all.len() - at < call::HEAD {
            return tally.counted(NO_CALL, false);
        }
        let call = call::load(all, at);
        let start = at + call::HEAD;
        let count = call.count as usize;
        if all.len() - start < count {
            return tally.counted(NO_CALL, false);
        }
        let end = start + count;
        length = length_of(call, length);
        let same = verdict::judge(
            call,
            &all[start..end],
            device,
            host,
            lists,
            queues,
            memory,
            room,
            length,
        );
        tally = tally.counted(call.tag, same);
        if !same {
            return tally;
        }
        at = end;
    }
    tally
}
