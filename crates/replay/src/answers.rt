// A recorded answer as bytes: what a leaf was handed, then what the Rust answered. Each function puts the proved leaf's own answer in the
// place of the Rust's, and says whether the bytes are as many as such a record has; if not, they stay. specs/Answers.antt has the layouts, and
// what the letter in front says.
ghost use Rattle.std.specs.Prelude.{◌≡◌};
ghost use Rattle.replay.specs.Answers.{answered, format_answer, gain_answer, verb_answer, connected_answer, clock_answer, time_answer, is_amended, answer_of};

use clock::Clock;
use codec::{Codec, Outcome};

// The answer to a record that begins with `letter`: of the leaf that its capital names. The letters are read by this one match; an enum between would be a second.
#[tactic(auto, unfolding(crate::specs::Answers::answer_of, crate::specs::Answers::leaf_answer))]
pub fn answer(letter: u8, bytes: &mut [u8]) -> bool
    ensures { answered result bytes.new ≡ answer_of letter bytes.old }
{
    match letter.to_ascii_uppercase() {
        b'F' => answer_format(bytes),
        b'A' => answer_gain(bytes),
        b'V' => answer_verb(bytes),
        b'K' => answer_connected(bytes),
        b'C' => answer_clock(bytes),
        b'T' => answer_time(bytes),
        _ => false,
    }
}

// Whether a letter stands in lower case: the amended Rust answered.
pub fn is_amended(letter: u8) -> bool
    ensures { result ≡ is_amended letter }
{
    letter.is_ascii_lowercase()
}

// F: word, rate.
#[tactic(auto, unfolding(crate::specs::Answers::format_answer))]
fn answer_format(bytes: &mut [u8]) -> bool
    ensures { answered result bytes.new ≡ format_answer bytes.old }
{
    if bytes.len() != 6 {
        return false;
    }
    let word = word::get::<u16>(bytes, 0);
    let rate = format::decode(word);
    word::put::<u32>(bytes, 2, rate.unwrap_or(0));
    true
}

// A: the left and the right amplifier byte, the length of the samples in bytes, the samples, the amplified ones.
fn answer_gain(bytes: &mut [u8]) -> bool
    ensures { answered result bytes.new ≡ gain_answer bytes.old }
{
    if bytes.len() < 4 {
        return false;
    }
    let pcm = usize::from(word::get::<u16>(bytes, 2));
    if bytes.len() != 4 + 2 * pcm {
        return false;
    }
    let left = gain::gain_of(bytes[0]);
    let right = gain::gain_of(bytes[1]);
    let result = 4 + pcm;
    bytes.copy_within(4..result, result);
    gain::amplify(&mut bytes[result..], left, right);
    true
}

// V: codec, command; how many words it replies, the word or 0, the codec after it.
#[tactic(auto, unfolding(crate::specs::Answers::verb_answer))]
fn answer_verb(bytes: &mut [u8]) -> bool
    ensures { answered result bytes.new ≡ verb_answer bytes.old }
{
    if bytes.len() != 297 {
        return false;
    }
    let command = word::get::<u32>(bytes, 144);
    let Outcome { codec, reply } = Codec::load(bytes, 0).verb(command);
    bytes[148] = u8::from(reply.is_some());
    word::put::<u32>(bytes, 149, reply.unwrap_or(0));
    codec.store(bytes, 153);
    true
}

// K: codec, 1 for the input and 0 for the output, stream tag, format word; whether the direction is connected.
#[tactic(auto, unfolding(crate::specs::Answers::connected_answer))]
fn answer_connected(bytes: &mut [u8]) -> bool
    ensures { answered result bytes.new ≡ connected_answer bytes.old }
{
    if bytes.len() != 149 {
        return false;
    }
    let codec = Codec::load(bytes, 0);
    let format = word::get::<u16>(bytes, 146);
    let connected = codec.connected(bytes[144] != 0, bytes[145], format);
    bytes[148] = u8::from(connected);
    true
}

// C: ticks, fraction, nanoseconds; ticks, fraction.
#[tactic(auto, unfolding(crate::specs::Answers::clock_answer))]
fn answer_clock(bytes: &mut [u8]) -> bool
    ensures { answered result bytes.new ≡ clock_answer bytes.old }
{
    if bytes.len() != 40 {
        return false;
    }
    let ticks = word::get::<u64>(bytes, 0);
    let fraction = word::get::<u64>(bytes, 8);
    let nanos = word::get::<u64>(bytes, 16);
    let clock = Clock { ticks, fraction }.advance(nanos);
    word::put::<u64>(bytes, 24, clock.ticks);
    word::put::<u64>(bytes, 32, clock.fraction);
    true
}

// T: frame time, nanoseconds, rate; frame time.
#[tactic(auto, unfolding(crate::specs::Answers::time_answer))]
fn answer_time(bytes: &mut [u8]) -> bool
    ensures { answered result bytes.new ≡ time_answer bytes.old }
{
    if bytes.len() != 28 {
        return false;
    }
    let fraction = word::get::<u64>(bytes, 0);
    let nanos = word::get::<u64>(bytes, 8);
    let rate = word::get::<u32>(bytes, 16);
    word::put::<u64>(bytes, 20, clock::accrue(fraction, nanos, rate));
    true
}
