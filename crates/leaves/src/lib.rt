// C functions over single leaves, for comparison with the Rust and for benchmarks. Each takes any bytes of any lengths; a slice is a
// pointer and a length in C. Too few bytes: LENT_SPACE is returned, and nothing changes.
#![tactic(auto)]

ghost use Rattle.std.specs.Prelude.{◌≡◌, ◌≤◌, length};
ghost use Rattle.format.specs.Format.{format_of, rate_of};
ghost use Rattle.gain.specs.Gain.{gain_of, amplified_of};
ghost use Rattle.clock.specs.Frames.{accrue_of};
ghost use Rattle.leaves.specs.Calls.{call_of, filled_of, hda_amplify_into_of, hda_amplify_then_copy_of, clock_in, store_clock, hda_clock_advance_of, replied_of, verb_call_of, hda_verb_of, hda_connected_of};

use clock::Clock;
use codec::Codec;

// Document 01's number for too few lent bytes.
pub const LENT_SPACE: u32 = 10;

// The frames a second of a format word (the Rust's `Hda::format`); 0 where the device does not take it.
#[unsafe(no_mangle)]
pub extern "C" fn hda_format(word: u16) -> u32
    ensures { result ≡ rate_of (format_of word) }
{
    format::decode(word).unwrap_or(0)
}

// The Rust's `Codec::amplify` over two channels, by the two amplifier bytes.
#[unsafe(no_mangle)]
pub extern "C" fn hda_amplify(pcm: &mut [u8], left: u8, right: u8)
    ensures { pcm.new ≡ amplified_of (gain_of left) (gain_of right) pcm.old }
{
    gain::amplify_by(pcm, left, right);
}

// The same into other bytes, as many as these are, in one pass: what a playback's transfer queues. Returns 0.
#[tactic(auto, unfolding(crate::specs::Calls::hda_amplify_into_of))]
#[unsafe(no_mangle)]
pub extern "C" fn hda_amplify_into(pcm: &[u8], into: &mut [u8], left: u8, right: u8) -> u32
    ensures { filled_of result pcm.now into.new ≡ hda_amplify_into_of pcm.now into.old left right }
{
    if pcm.len() < into.len() {
        return LENT_SPACE;
    }
    gain::amplify_into_by(pcm, into, left, right);
    0
}

// The same in two steps, for comparison: the frames are amplified where they stand, and then copied. Returns 0.
#[tactic(auto, unfolding(crate::specs::Calls::hda_amplify_then_copy_of, gain::specs::Gain::two_steps_of))]
#[unsafe(no_mangle)]
pub extern "C" fn hda_amplify_then_copy(pcm: &mut [u8], into: &mut [u8], left: u8, right: u8) -> u32
    ensures { filled_of result pcm.new into.new ≡ hda_amplify_then_copy_of pcm.old into.old left right }
{
    let n = into.len();
    if pcm.len() < n {
        return LENT_SPACE;
    }
    gain::amplify_by(pcm, left, right);
    into.copy_from_slice(&pcm[..n]);
    0
}

fn load_clock(bytes: &[u8]) -> Clock
    requires { 16 ≤ length bytes.now }
    ensures { result ≡ clock_in bytes.now }
{
    Clock {
        ticks: word::get::<u64>(bytes, 0),
        fraction: word::get::<u64>(bytes, 8),
    }
}

fn store_clock(bytes: &mut [u8], clock: Clock)
    requires { 16 ≤ length bytes.old }
    ensures { bytes.new ≡ store_clock clock bytes.old }
{
    word::put::<u64>(bytes, 0, clock.ticks);
    word::put::<u64>(bytes, 8, clock.fraction);
}

// The wall clock `nanos` nanoseconds later, in place: ticks and fraction, little-endian words of 64 bits. Returns 0.
#[tactic(auto, unfolding(crate::specs::Calls::hda_clock_advance_of))]
#[unsafe(no_mangle)]
pub extern "C" fn hda_clock_advance(clock: &mut [u8], nanos: u64) -> u32
    ensures { call_of result clock.new ≡ hda_clock_advance_of clock.old nanos }
{
    if clock.len() < 16 {
        return LENT_SPACE;
    }
    let before = load_clock(clock);
    store_clock(clock, before.advance(nanos));
    0
}

// A stream's frame time `nanos` nanoseconds later, at `rate` frames a second.
#[unsafe(no_mangle)]
pub extern "C" fn hda_accrue(fraction: u64, nanos: u64, rate: u32) -> u64
    ensures { result ≡ accrue_of rate nanos fraction }
{
    clock::accrue(fraction, nanos, rate)
}

// The reply's word into the lent bytes, and 1; 0 where there is none.
fn store_reply(reply: Option<u32>, bytes: &mut [u8]) -> u32
    requires { 4 ≤ length bytes.old }
    ensures { call_of result bytes.new ≡ replied_of reply bytes.old }
{
    let Some(value) = reply else {
        return 0;
    };
    word::put::<u32>(bytes, 0, value);
    1
}

// A command to the codec in the first 144 bytes of `codec`, in place. Returns 1 and writes the reply to the first four bytes of `reply`,
// little-endian; returns 0 where there is no reply.
#[tactic(auto, unfolding(crate::specs::Calls::hda_verb_of))]
#[unsafe(no_mangle)]
pub extern "C" fn hda_verb(codec: &mut [u8], command: u32, reply: &mut [u8]) -> u32
    ensures { verb_call_of result codec.new reply.new ≡ hda_verb_of codec.old command reply.old }
{
    if codec.len() < 144 || reply.len() < 4 {
        return LENT_SPACE;
    }
    let before = Codec::load(codec, 0);
    let outcome = before.verb(command);
    outcome.codec.store(codec, 0);
    store_reply(outcome.reply, reply)
}

// Whether the converter of a direction, the input for any `input` but 0, is live for stream `tag` at `format`: 1 or 0.
#[tactic(auto, unfolding(crate::specs::Calls::hda_connected_of))]
#[unsafe(no_mangle)]
pub extern "C" fn hda_connected(codec: &[u8], input: u8, tag: u8, format: u16) -> u32
    ensures { result ≡ hda_connected_of codec.now input tag format }
{
    if codec.len() < 144 {
        return LENT_SPACE;
    }
    let loaded = Codec::load(codec, 0);
    u32::from(loaded.connected(input != 0, tag, format))
}
