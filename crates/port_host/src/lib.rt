// Calls on a host end record that the caller has as bytes: made, fed, pulled from, set. Each returns one number (crate reply); there is no device to report a level of.
#![tactic(auto)]

ghost use Rattle.std.specs.Prelude.{◌≡◌, ◌<◌, true, false, length};
ghost use Rattle.std.specs.Fn.{FnOnceReturnsAtMut};
ghost use Rattle.refusal.specs.Refusals.{outcome_of};
ghost use Rattle.driver.specs.Calls.{fed_by, setting_of, playback_fails_of, capture_fails_of, downstream_of};
ghost use Rattle.host_record.specs.Hosts.{host_size, host_at, is_host};
ghost use Rattle.port_host.specs.Calls.{kept, fed_out, pulled_out, fed_of, set_of, unreadable_of, new_of, feed_of, pull_of, setting};

use host::Host;
use refusal::Refusal;
use stream::{STREAMS, Stream};

// What is returned for bytes that are no record, where short space is told first.
fn unreadable(queues: usize) -> u64
    ensures { result ≡ unreadable_of queues }
{
    let refusal = if queues < Stream::QUEUE * STREAMS {
        Refusal::LentSpace
    } else {
        Refusal::State
    };
    u64::from(refusal.number())
}

// The host end into its record, and what is returned of frames.
fn fed(outcome: Result<u32, Refusal>, end: Host, host: &mut [u8]) -> u64
    requires { length host.old ≡ host_size }
    ensures { kept result host.new ≡ fed_of (fed_by outcome end) }
{
    host_record::store_host(end, host);
    match outcome {
        Ok(frames) => reply::reply(0, false, false, frames),
        Err(refusal) => reply::reply(refusal.number(), false, false, 0),
    }
}

// A setting of what the record holds, back into the record.
#[tactic(auto, using(crate::proofs::Outcomes::host_room, crate::proofs::Outcomes::host_length))]
fn set<F: FnOnce(&mut Host) -> Result<(), Refusal>>(
    host: &mut [u8],
    queues: usize,
    change: F,
) -> u64
    requires { F.IsAlwaysCallable change }
    ensures unreadable { is_host host.old ≡ false → kept result host.new ≡ kept (unreadable_of queues) host.old }
    ensures changed { is_host host.old ≡ true → (r : _) × (end : _) × FnOnceReturnsAtMut F.FnOnce change (host_at host.old) r end × (kept result host.new ≡ set_of (setting_of (outcome_of r) end)) }
{
    if !host_record::is_host(host) {
        return unreadable(queues);
    }
    let mut end = host_record::load_host(host);
    let outcome = change(&mut end);
    host_record::store_host(end, host);
    reply::reply(refusal::outcome_number(outcome), false, false, 0)
}

// A new host end into its record.
#[tactic(auto, unfolding(crate::specs::Calls::new_of))]
pub fn new(host: &mut [u8], queues: &[u8]) -> u64
    ensures { kept result host.new ≡ new_of host.old (length queues.now) }
{
    if queues.len() < Stream::QUEUE * STREAMS || host.len() != host_record::HOST {
        return unreadable(queues.len());
    }
    host_record::store_host(Host::fresh(), host);
    0
}

// Frames into the queue of the capture stream; the value returned is their count.
#[tactic(auto, using(crate::proofs::Outcomes::host_room, crate::proofs::Outcomes::host_length), unfolding(crate::specs::Calls::feed_of))]
pub fn feed(host: &mut [u8], queues: &mut [u8], frames: &[u8]) -> u64
    ensures { fed_out result host.new queues.new ≡ feed_of host.old queues.old frames.now }
{
    if !host_record::is_host(host) {
        return unreadable(queues.len());
    }
    let mut end = host_record::load_host(host);
    let outcome = driver::feed(&mut end, queues, frames);
    fed(outcome, end, host)
}

// Frames out of the queue of the playback stream; the value returned is their count.
#[tactic(auto, using(crate::proofs::Outcomes::host_room, crate::proofs::Outcomes::host_length), unfolding(crate::specs::Calls::pull_of))]
pub fn pull(host: &mut [u8], queues: &mut [u8], into: &mut [u8]) -> u64
    ensures { pulled_out result host.new queues.new into.new ≡ pull_of host.old queues.old into.old }
{
    if !host_record::is_host(host) {
        return unreadable(queues.len());
    }
    let mut end = host_record::load_host(host);
    let outcome = driver::pull(&mut end, queues, into);
    fed(outcome, end, host)
}

// The three settings: whether openings for playback fail, whether those for capture do, and the downstream count.

#[tactic(auto, unfolding(crate::specs::Calls::setting))]
pub fn set_playback_fails(host: &mut [u8], queues: &[u8], fails: bool) -> u64
    ensures { kept result host.new ≡ setting (λ h n. playback_fails_of h n fails) host.old (length queues.now) }
{
    set(
        host,
        queues.len(),
        |end| driver::set_playback_fails(end, queues, fails),
    )
}

#[tactic(auto, unfolding(crate::specs::Calls::setting))]
pub fn set_capture_fails(host: &mut [u8], queues: &[u8], fails: bool) -> u64
    ensures { kept result host.new ≡ setting (λ h n. capture_fails_of h n fails) host.old (length queues.now) }
{
    set(
        host,
        queues.len(),
        |end| driver::set_capture_fails(end, queues, fails),
    )
}

#[tactic(auto, unfolding(crate::specs::Calls::setting))]
pub fn set_downstream(host: &mut [u8], queues: &[u8], bytes: u32) -> u64
    ensures { kept result host.new ≡ setting (λ h n. downstream_of h n bytes) host.old (length queues.now) }
{
    set(
        host,
        queues.len(),
        |end| driver::set_downstream(end, queues, bytes),
    )
}
