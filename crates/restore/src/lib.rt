// The calls `restore` and `restore_emptied`: a saved state takes the place of the device's own (document 01, "Numbers returned"; the Rust's `restore_state`; request T-09). All
// tests come first, so that a refusal changes nothing. `strict` is true for the first, which refuses crowded lists, and false for the second, which empties them.
#![tactic(auto)]

ghost use Rattle.std.specs.Prelude.{◌≡◌, ◌+◌, ◌*◌, ◌≤◌, ◌<◌, length};
ghost use Rattle.stream.specs.Box.{streams};
ghost use Rattle.stream.specs.Streams.{list_size};
ghost use Rattle.refusal.specs.Refusals.{outcome_of};
ghost use Rattle.restore.specs.Restores.{opens_of, opening_number, later_of, kept_of, restored_streams, restored_lists, restored_queues, restored_host, restored_device, Fits, number_of, restored_out, restore_step, restore_of};

use clock::Clock;
use device::{Answer, Hda};
use host::Host;
use queue::Queue;
use refusal::Refusal;
use std::array;
use stream::{STREAMS, Stream};

// Whether a stream of the state is to be open: it runs, and an input only on a device with a microphone.
fn opens(state: &[u8], microphone: bool, index: usize) -> bool
    requires { (index < streams) × (680 ≤ length state.now) }
    ensures { result ≡ opens_of state.now microphone index }
{
    let control = state[record::REGISTERS
        + registers::STREAM_BASE
        + registers::STREAM_SIZE * index];
    (control & 2 != 0) & (!stream::is_capture(index) | microphone)
}

// Whether the host takes every opening.
fn check_openings(state: &[u8], microphone: bool, host: Host) -> Result<(), Refusal>
    requires { 680 ≤ length state.now }
    ensures { outcome_of result ≡ opening_number state.now microphone host }
{
    if (0..STREAMS).any(|index| opens(state, microphone, index) && host.fails(index)) {
        Err(Refusal::HostClosed)
    } else {
        Ok(())
    }
}

// The later of two clocks.
#[tactic(auto, unfolding(crate::specs::Restores::later_of))]
fn later(own: Clock, other: Clock) -> Clock
    ensures { result ≡ later_of own other }
{
    if (own.ticks, own.fraction) < (other.ticks, other.fraction) {
        other
    } else {
        own
    }
}

// A stream as it is put in force: with an empty list where its own is crowded and that is not refused.
fn kept(strict: bool, s: Stream, list: &[u8]) -> Stream
    requires { 8 * s.pending ≤ length list.now }
    ensures { result ≡ kept_of strict s list.now }
{
    if strict || s.uncrowded(list) {
        s
    } else {
        s.emptied()
    }
}

// The streams of a state.
fn restored_streams(strict: bool, state: &[u8]) -> [Stream; STREAMS]
    requires { Fits state.now }
    ensures { result ≡ restored_streams strict streams 0 state.now }
{
    // No `from_fn`: the place runs along, and a closure that changes what it captures would need a contract of its own.
    let mut loaded = [Stream::fresh(); STREAMS];
    let mut at = record::HEAD;
    for index in 0..STREAMS {
        let s = record::load_stream(state, at);
        let start = at + record::NUMBERS;
        loaded[index] = kept(strict, s, &state[start..]);
        at = start + 8 * (s.pending as usize);
    }
    loaded
}

// Their positions, each stream's at the start of its part of the lent lists; the rest of the lists stays.
fn restore_lists(strict: bool, state: &[u8], lists: &mut [u8])
    requires { Fits state.now × (list_size * streams ≤ length lists.old) }
    ensures { lists.new ≡ restored_lists strict state.now lists.old }
{
    let mut at = record::HEAD;
    for index in 0..STREAMS {
        let s = record::load_stream(state, at);
        let start = at + record::NUMBERS;
        let t = kept(strict, s, &state[start..]);
        let end = start + 8 * (t.pending as usize);
        record::put(lists, Stream::LIST * index, &state[start..end]);
        at = start + 8 * (s.pending as usize);
    }
}

// The queues: empty, and open where the stream runs.
fn restored_queues(state: &[u8], microphone: bool) -> [Queue; STREAMS]
    requires { 680 ≤ length state.now }
    ensures { result ≡ restored_queues streams 0 state.now microphone }
{
    array::from_fn(|index| Queue {
        live: opens(state, microphone, index),
        length: 0,
    })
}

// The host end with these queues; switches and downstream count stay.
fn restored_host(state: &[u8], microphone: bool, host: Host) -> Host
    requires { 680 ≤ length state.now }
    ensures { result ≡ restored_host state.now microphone host }
{
    Host {
        queues: restored_queues(state, microphone),
        ..host
    }
}

// The device of the state, with the later clock, and no message asserted.
fn restored_device(strict: bool, state: &[u8], hda: Hda) -> Hda
    requires { Fits state.now }
    ensures { result ≡ restored_device strict state.now hda }
{
    let clock = later(hda.clock, record::load_clock(state));
    let mut regs = record::load_block(state, record::REGISTERS);
    word::put::<u32>(&mut regs, registers::WALCLK, clock.shown());
    Hda {
        config: record::load_block(state, record::CONFIG),
        regs,
        link: record::load_link(state),
        streams: restored_streams(strict, state),
        clock,
        microphone: hda.microphone,
        paused: state[5] == 1,
        asserted: false,
    }
}

// All tests of a state on a device that passes the check.
fn check(strict: bool, hda: Hda, host: Host, state: &[u8]) -> Result<(), Refusal>
    ensures { outcome_of result ≡ number_of strict state.now hda host }
{
    parse::check_state(strict, state, hda.microphone, &hda.config)?;
    check_openings(state, hda.microphone, host)
}

// Behind the check: the state's tests, the openings, then the change.
fn restore_step(strict: bool, hda: Hda, host: Host, lists: &mut [u8], state: &[u8]) -> Answer
    requires { list_size * streams ≤ length lists.old }
    ensures { restored_out result lists.new ≡ restore_step strict state.now hda host lists.old }
{
    if let Err(refusal) = check(strict, hda, host, state) {
        return hda.answer(host, refusal.number());
    }
    restore_lists(strict, state, lists);
    let restored = restored_device(strict, state, hda);
    restored.finish(restored_host(state, hda.microphone, host), 0)
}

// A saved state in the place of the device's own.
pub fn restore(
    strict: bool,
    hda: Hda,
    host: Host,
    lists: &mut [u8],
    queues: &[u8],
    state: &[u8],
) -> Answer
    ensures { restored_out result lists.new ≡ restore_of strict state.now hda host lists.old (length queues.now) }
{
    if let Err(refusal) = hda.check(host, lists, queues.len()) {
        return hda.answer(host, refusal.number());
    }
    restore_step(strict, hda, host, lists, state)
}
