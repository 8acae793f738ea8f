// One transfer of at most a period between guest memory and a stream's host queue (document 01, "Stream transfer"; the Rust's `transfer`).
#![tactic(auto)]

ghost use Rattle.std.specs.Prelude.{◌≡◌, ◌<◌, ◌≤◌, length, take};
ghost use Rattle.queue.specs.Queues.{capacity};
ghost use Rattle.transfer.specs.Transfers.{left_of, silence, taken_of, captured_of, heard_of, queued_in, queued_by, frames_moved, transfer_of, TransferNeeds};

use plan::Stop;
use queue::Queue;
use stream::{Cyclic, Stream};

// What a transfer left beside the lent lists: the stream, its queue, and what stopped it, if it failed.
#[derive(Clone, Copy, PartialEq, Eq, Debug)]
pub struct Transferred {
    pub stream: Stream,
    pub queue: Queue,
    pub stop: Option<Stop>,
}

// A capture's samples over silence, and the queue that is left. A connected stream alone takes frames, and what it takes is amplified, by an amplifier byte for each side.
#[tactic(auto, unfolding(queue::specs::Queues::take_into_of))]
fn captured(
    q: Queue,
    connected: bool,
    left: u8,
    right: u8,
    part: &mut [u8],
    pcm: &mut [u8],
) -> Queue
    requires { (q.length ≤ capacity) × (capacity ≤ length part.old) × (pcm.old ≡ silence (length pcm.old)) }
    ensures value { result ≡ (taken_of connected q part.old (length pcm.old)).queue }
    ensures part_after { part.new ≡ (taken_of connected q part.old (length pcm.old)).part }
    ensures pcm_after { pcm.new ≡ captured_of connected left right part.old (taken_of connected q part.old (length pcm.old)) (length pcm.old) }
{
    if !connected {
        return q;
    }
    let taken = q.take(part, pcm);
    gain::amplify_by(pcm, left, right);
    taken.queue
}

// What a playback's samples sound like, as many bytes as `into` holds: amplified on their way there, or silence where the stream is not connected.
fn heard(connected: bool, left: u8, right: u8, pcm: &[u8], into: &mut [u8])
    requires { length into.old ≤ length pcm.now }
    ensures { into.new ≡ take (length into.old) (heard_of connected left right pcm.now (length pcm.now)) }
{
    if connected {
        gain::amplify_into_by(pcm, into, left, right);
    } else {
        into.fill(0);
    }
}

// A playback's samples behind those queued, in one pass, and the queue that is left. A capture and a transfer that failed queue nothing. The samples stay:
// they are lent as those who fill them have them, so that the promise can say it.
#[tactic(auto, using(queue::proofs::Moves::reserved))]
fn queued(
    plays: bool,
    q: Queue,
    connected: bool,
    left: u8,
    right: u8,
    part: &mut [u8],
    pcm: &mut [u8],
) -> Queue
    requires { (q.length ≤ capacity) × (capacity ≤ length part.old) }
    ensures { queued_in result part.new pcm.new ≡ queued_by plays q connected left right part.old pcm.old }
{
    if !plays {
        return q;
    }
    let reserved = q.reserve(pcm.len());
    let at = q.length as usize;
    let end = at + reserved.count as usize;
    heard(connected, left, right, pcm, &mut part[at..end]);
    reserved.queue
}

// A transfer of `count` bytes that is ready: a capture's samples first, then the pieces, which move them between `pcm` and guest memory, then a playback's queue, which takes what
// fits. `pcm` comes as silence. The pieces are called in this one place, so that the compiler sees both sides of their copies.
#[tactic(auto, unfolding(crate::specs::Transfers::capture_of, crate::specs::Transfers::playback_of))]
fn move_frames(
    g: Cyclic,
    s: Stream,
    q: Queue,
    connected: bool,
    left: u8,
    right: u8,
    list: &mut [u8],
    part: &mut [u8],
    memory: &mut [u8],
    pcm: &mut [u8],
    count: u32,
) -> Transferred
    requires { TransferNeeds q count list.old part.old × (0 < g.cbl) × (pcm.old ≡ silence count) }
    ensures { left_of result list.new part.new memory.new ≡ frames_moved g s q connected left right list.old part.old memory.old count }
{
    let taken = captured(q, g.capture && connected, left, right, part, pcm);
    let step = pieces::pieces(g, s, list, memory, pcm, count);
    let queue = queued(
        step.stop.is_none() && !g.capture,
        taken,
        connected,
        left,
        right,
        part,
        pcm,
    );
    Transferred {
        stream: step.stream,
        queue,
        stop: step.stop,
    }
}

// A transfer of `count` bytes, at most a period. A cyclic buffer that is not ready fails it before anything is moved or taken.
#[tactic(auto, unfolding(crate::specs::Transfers::transfer_of))]
pub fn transfer(
    g: Cyclic,
    s: Stream,
    q: Queue,
    connected: bool,
    left: u8,
    right: u8,
    list: &mut [u8],
    part: &mut [u8],
    memory: &mut [u8],
    count: u32,
) -> Transferred
    requires { TransferNeeds q count list.old part.old }
    ensures { left_of result list.new part.new memory.new ≡ transfer_of g s q connected left right list.old part.old memory.old count }
{
    if !plan::ready(g) {
        return Transferred {
            stream: s,
            queue: q,
            stop: Some(Stop::Failed),
        };
    }
    let mut pcm = [0u8; Stream::PERIOD];
    move_frames(
        g,
        s,
        q,
        connected,
        left,
        right,
        list,
        part,
        memory,
        &mut pcm[..count as usize],
        count,
    )
}
