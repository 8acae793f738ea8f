// The calls of the host's sound driver: feed, pull and the three settings (document 01, "Host end, added").
#![tactic(auto)]

ghost use Rattle.std.specs.Prelude.{◌≡◌, length};
ghost use Rattle.refusal.specs.Refusals.{outcome_of};
ghost use Rattle.driver.specs.Calls.{frame_check_of, fed_by, feed_answer, feed_of, pull_answer, pull_of, playback_fails_of, capture_fails_of, downstream_of, setting_of};

use host::Host;
use refusal::Refusal;
use stream::{STREAMS, Stream};

// The stream that the host feeds, and the one that it pulls from.
pub const CAPTURE: usize = 0;

pub const PLAYBACK: usize = STREAMS / 2;

// The check of a host end record, then of frames of n bytes, which must be whole.
#[tactic(auto, using(crate::proofs::Outcomes::number_positive), unfolding(crate::specs::Calls::frame_check_of))]
fn frame_check(host: Host, space: usize, n: usize) -> Result<(), Refusal>
    ensures { outcome_of result ≡ frame_check_of host space n }
{
    host.check(space)?;
    if n % 4 == 0 {
        Ok(())
    } else {
        Err(Refusal::OddFrames)
    }
}

// Frames into the queue of the capture stream, as many as fit: how many these are. A refusal changes nothing.
#[tactic(auto, using(crate::proofs::Outcomes::number_positive), unfolding(crate::specs::Calls::feed_of))]
pub fn feed(host: &mut Host, queues: &mut [u8], frames: &[u8]) -> Result<u32, Refusal>
    ensures { feed_answer (fed_by result host.new) queues.new ≡ feed_of host.old queues.old frames.now }
{
    frame_check(*host, queues.len(), frames.len())?;
    let start = Stream::QUEUE * CAPTURE;
    let end = start + Stream::QUEUE;
    let q = host.queues[CAPTURE];
    let moved = q.put(&mut queues[start..end], frames);
    host.queues[CAPTURE] = moved.queue;
    Ok(moved.count / 4)
}

// Frames out of the queue of the playback stream, as many as there are: how many these are. The rest of the buffer stays. A refusal changes nothing.
#[tactic(auto, using(crate::proofs::Outcomes::number_positive), unfolding(crate::specs::Calls::pull_of))]
pub fn pull(host: &mut Host, queues: &mut [u8], into: &mut [u8]) -> Result<u32, Refusal>
    ensures { pull_answer (fed_by result host.new) queues.new into.new ≡ pull_of host.old queues.old into.old }
{
    frame_check(*host, queues.len(), into.len())?;
    let start = Stream::QUEUE * PLAYBACK;
    let end = start + Stream::QUEUE;
    let q = host.queues[PLAYBACK];
    let taken = q.take(&mut queues[start..end], into);
    host.queues[PLAYBACK] = taken.queue;
    Ok(taken.count / 4)
}

// The three settings: whether openings for playback fail, whether those for capture do, and the downstream count. A refusal changes nothing.

#[tactic(auto, using(crate::proofs::Outcomes::number_positive), unfolding(crate::specs::Calls::playback_fails_of))]
pub fn set_playback_fails(host: &mut Host, queues: &[u8], fails: bool) -> Result<(), Refusal>
    ensures { setting_of (outcome_of result) host.new ≡ playback_fails_of host.old (length queues.now) fails }
{
    host.check(queues.len())?;
    host.playback = fails;
    Ok(())
}

#[tactic(auto, using(crate::proofs::Outcomes::number_positive), unfolding(crate::specs::Calls::capture_fails_of))]
pub fn set_capture_fails(host: &mut Host, queues: &[u8], fails: bool) -> Result<(), Refusal>
    ensures { setting_of (outcome_of result) host.new ≡ capture_fails_of host.old (length queues.now) fails }
{
    host.check(queues.len())?;
    host.capture = fails;
    Ok(())
}

// Refuses a count above 14,336 or no multiple of 4.
#[tactic(auto, using(crate::proofs::Outcomes::number_positive), unfolding(crate::specs::Calls::downstream_of))]
pub fn set_downstream(host: &mut Host, queues: &[u8], n: u32) -> Result<(), Refusal>
    ensures { setting_of (outcome_of result) host.new ≡ downstream_of host.old (length queues.now) n }
{
    host.check(queues.len())?;
    if !host::downstream_valid(n) {
        return Err(Refusal::Latency);
    }
    host.downstream = n;
    Ok(())
}
