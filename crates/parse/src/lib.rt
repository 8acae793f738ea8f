// Which saved states a device takes: the tests of restore in reading order, up to the host's openings (document 01, "Numbers returned"; the Rust's `restore_state`).
// Nothing is changed here. Each test gives the refusal of the first thing that it does not take.
#![tactic(auto)]

ghost use Rattle.std.specs.Prelude.{◌≡◌, ◌+◌, ◌*◌, ◌≤◌, ◌<◌, length};
ghost use Rattle.refusal.specs.Refusals.{outcome_of};
ghost use Rattle.stream.specs.Box.{streams};
ghost use Rattle.format.specs.Format.{format_of, number_of};
ghost use Rattle.parse.specs.States.{run_end, converter_number, times_number, files_number, own_number, head_number, list_number, format_number, counts_number, crowd_number, stream_number, stepped_by, EndsStreams, step_out, step_at, streams_step, last_number, state_number};

use configuration::Config;
use refusal::Refusal;
use stream::{STREAMS, Stream};

// Where the `n` bytes at `at` end.
fn run_end(state: &[u8], at: usize, n: usize) -> Result<usize, Refusal>
    ensures { result ≡ run_end state.now at n }
{
    let run = reader::run(state, at, n);
    match run.got {
        Some(_) => Ok(run.next),
        None => Err(Refusal::ShortState),
    }
}

fn check_format_word(word: u16) -> Result<(), Refusal>
    ensures { outcome_of result ≡ number_of (format_of word) }
{
    match format::decode(word) {
        Some(_) => Ok(()),
        None => Err(Refusal::Format),
    }
}

// The formats of the converters: node 2, then node 4.
fn check_converters(state: &[u8]) -> Result<(), Refusal>
    requires { 662 ≤ length state.now }
    ensures { outcome_of result ≡ converter_number state.now }
{
    check_format_word(word::get::<u16>(state, 576))?;
    check_format_word(word::get::<u16>(state, 624))
}

// Clock and responses.
fn check_times(state: &[u8], at: usize) -> Result<(), Refusal>
    ensures { outcome_of result ≡ times_number state.now at }
{
    run_end(state, at, 18)?;
    Ok(())
}

// Pause, configuration, registers and codec, of which nothing is tested before all are there; then the converters' formats.
fn check_files(state: &[u8], at: usize) -> Result<(), Refusal>
    requires { 5 ≤ at }
    ensures { outcome_of result ≡ files_number state.now at }
{
    let next = run_end(state, at, 657)?;
    check_converters(state)?;
    check_times(state, next)
}

// The microphone, which must be this device's.
fn check_own(state: &[u8], at: usize, microphone: bool) -> Result<(), Refusal>
    requires { 4 ≤ at }
    ensures { outcome_of result ≡ own_number state.now at microphone }
{
    let field = reader::field(state, at, 1);
    let Some(own) = field.got else {
        return Err(Refusal::ShortState);
    };
    if own != u64::from(record::flag_byte(microphone)) {
        return Err(Refusal::Microphone);
    }
    check_files(state, field.next)
}

// What stands before the streams.
fn check_head(state: &[u8], microphone: bool) -> Result<(), Refusal>
    ensures { outcome_of result ≡ head_number state.now microphone }
{
    let next = run_end(state, 0, 4)?;
    if !record::is_marked(state) {
        return Err(Refusal::WrongMark);
    }
    check_own(state, next, microphone)
}

// The positions of a stream, from `at` on: their count, then their order.
fn check_list(state: &[u8], s: Stream, at: usize) -> Result<(), Refusal>
    requires { at ≤ length state.now }
    ensures { outcome_of result ≡ list_number state.now s at }
{
    let count = s.pending as usize;
    if count > Stream::PLACES || count > (state.len() - at) / 8 {
        return Err(Refusal::ListLength);
    }
    if positions::rises(&state[at..], count, s.consumed, s.submitted) {
        Ok(())
    } else {
        Err(Refusal::ListOrder)
    }
}

// The stream's format register, where it is set or the stream runs.
fn check_format(state: &[u8], index: usize) -> Result<(), Refusal>
    requires { (index < streams) × (680 ≤ length state.now) }
    ensures { outcome_of result ≡ format_number state.now index }
{
    let base = record::REGISTERS + registers::STREAM_BASE + registers::STREAM_SIZE * index;
    let raw = word::get::<u16>(state, base + registers::FMT);
    let idle = (raw == 0) & (state[base] & 2 == 0);
    if idle {
        return Ok(());
    }
    check_format_word(raw)
}

// The descriptor's index, the counts, and the frame time.
#[tactic(auto, unfolding(crate::specs::States::counts_number))]
fn check_counts(s: Stream) -> Result<(), Refusal>
    ensures { outcome_of result ≡ counts_number s }
{
    if s.descriptor <= 255 && s.consumed <= s.submitted && s.fraction < 8_193_000_000_000 {
        Ok(())
    } else {
        Err(Refusal::Stream)
    }
}

// The spacing of a stream's positions, from `at` on.
fn check_crowd(state: &[u8], s: Stream, at: usize) -> Result<(), Refusal>
    requires { at + 8 * s.pending ≤ length state.now }
    ensures { outcome_of result ≡ crowd_number state.now s at }
{
    if s.uncrowded(&state[at..]) {
        Ok(())
    } else {
        Err(Refusal::Crowded)
    }
}

// A stream whose numbers were there and whose positions begin at `at`; a crowded list is refused where `strict` says so.
fn check_stream(
    strict: bool,
    state: &[u8],
    s: Stream,
    at: usize,
    index: usize,
) -> Result<(), Refusal>
    requires { (index < streams) × ((680 ≤ at) × (at ≤ length state.now)) }
    ensures { outcome_of result ≡ stream_number strict state.now s at index }
{
    check_list(state, s, at)?;
    check_format(state, index)?;
    check_counts(s)?;
    if strict {
        return check_crowd(state, s, at);
    }
    Ok(())
}

// Stream `index`, whose part begins at `at`: where the next part begins.
fn check_part(strict: bool, state: &[u8], at: usize, index: usize) -> Result<usize, Refusal>
    requires { (index < streams) × (680 ≤ at) }
    ensures { stepped_by at result ≡ step_at strict state.now index (step_out 0 at) }
{
    let list = run_end(state, at, record::NUMBERS)?;
    let s = record::load_stream(state, at);
    check_stream(strict, state, s, list, index)?;
    // The list was found to fit.
    Ok(list + 8 * (s.pending as usize))
}

// Every stream in order, up to the first that is refused: where the last one ends.
fn check_streams(strict: bool, state: &[u8]) -> Result<usize, Refusal>
    ensures { EndsStreams result (streams_step strict state.now) }
{
    let mut at = record::HEAD;
    for index in 0..STREAMS {
        at = check_part(strict, state, at, index)?;
    }
    Ok(at)
}

// After the streams: nothing left over, pause, clock, responses, and this device's identity.
#[tactic(auto, unfolding(crate::specs::States::last_number))]
fn check_last(state: &[u8], config: &Config, end: usize) -> Result<(), Refusal>
    requires { 680 ≤ length state.now }
    ensures { outcome_of result ≡ last_number state.now config.now end }
{
    let valid = end == state.len()
        && state[5] <= 1
        && word::get::<u64>(state, record::FRACTION) < 1_000_000_000
        && word::get::<u16>(state, record::RESPONSES) <= 255
        && word::get::<u32>(state, record::CONFIG) == word::get::<u32>(config, 0);
    if valid { Ok(()) } else { Err(Refusal::State) }
}

// All tests of a state but those of the openings; `strict` refuses crowded lists.
pub fn check_state(
    strict: bool,
    state: &[u8],
    microphone: bool,
    config: &Config,
) -> Result<(), Refusal>
    ensures { outcome_of result ≡ state_number strict state.now microphone config.now }
{
    check_head(state, microphone)?;
    let end = check_streams(strict, state)?;
    check_last(state, config, end)
}
