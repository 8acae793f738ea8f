// A timer with jitter (request T-13): the lowest and the highest submitted count that `advance` can leave of each stream, where the elapsed time is known only between a shortest and a longest. Neither end of
// the times need give an end of the counts, since a longer time can fail a piece that a shorter one moves, and one stream can write what another reads: every time counts. So `advance` runs once for
// each run of times that no count tells apart (crate counts), on scratch that is filled anew with what counts can depend on.
#![tactic(auto)]

ghost use Rattle.std.specs.Prelude.{◌≡◌, true, false, ◌||◌, ◌+◌, ◌*◌, ◌/◌, ◌≤◌, min, ltb, length, get_or};
ghost use Rattle.word.specs.Place.{word_at};
ghost use Rattle.format.specs.Format.{format_of};
ghost use Rattle.stream.specs.Box.{streams};
ghost use Rattle.registers.specs.Places.{size};
ghost use Rattle.device.specs.Machines as machines;
ghost use Rattle.device.specs.Machines.{machine};
ghost use Rattle.record.specs.Layout.{device_size};
ghost use Rattle.record.specs.Loads.{device_at, is_device};
ghost use Rattle.advance.specs.Advance.{advance_of};
ghost use Rattle.counts.specs.Counts.{frames_by, movable_by, list_at, list_window};
ghost use Rattle.jitter.specs.Bounds.{without_switches};
ghost use Rattle.jitter.specs.Calls.{scratch, cleared_of, result_size, rows_of, result_of, bounding_of, bounded_of, bounds_of};
ghost use Rattle.jitter.specs.Steps.{window_of, windows_of, seen_of, pending_of, CaseNeeds, SpreadNeeds, Lasting, Counted, CountedAt, Widened, SpreadOf};

use host::Host;
use refusal::Refusal;
use std::array;
use stream::{STREAMS, Stream};

// Bytes of a stream's two counts, and of the result.
const ROW: usize = 16;

const RESULT: usize = ROW * STREAMS;

// Bytes of a descriptor list and of the command ring, at most: 256 entries each.
const LIST_WINDOW: usize = 4096;

const RING_WINDOW: usize = 1024;

// Bytes of all lists and of all queues.
const LISTS: usize = Stream::LIST * STREAMS;

const QUEUES: usize = Stream::QUEUE * STREAMS;

// What the call answers beside scratch and result: its number, the INTx level, and how many bytes it wrote.
// No Result: the C reply has all three also where the call is refused.
#[derive(Clone, Copy)]
pub struct Bounded {
    pub number: u32,
    pub level: bool,
    pub count: u32,
}

// The lowest and the highest count of each stream.
#[derive(Clone, Copy)]
struct Spread {
    lowest: [u64; STREAMS],
    highest: [u64; STREAMS],
}

// ---- Times

// Whole frames due after `nanos` to a stream of that format.
fn frames_by(word: u16, fraction: u64, nanos: u64) -> u64
    ensures { result ≡ frames_by fraction nanos (format_of word) }
{
    match format::decode(word) {
        None => 0,
        Some(rate) => clock::whole_frames(clock::accrue(fraction, nanos, rate)),
    }
}

// Those of them that the stream can move.
fn movable(capture: bool, queued: u32, word: u16, fraction: u64, nanos: u64) -> u64
    ensures { result ≡ movable_by capture queued (frames_by fraction nanos (format_of word)) }
{
    let frames = frames_by(word, fraction, nanos);
    if capture {
        return frames;
    }
    frames.min((Stream::QUEUE as u64).saturating_sub(queued as u64) / 4)
}

// The time up to which so many frames are due. Nothing rests on it: `until` counts the frames there.
fn guess(word: u16, fraction: u64, frames: u64) -> u64 {
    match format::decode(word) {
        None => 0,
        Some(rate) => {
            let next = (frames.min(clock::MAX_PENDING_FRAMES) + 1) * clock::BILLION;
            next.saturating_sub(fraction).saturating_sub(1) / u64::from(rate).max(1)
        }
    }
}

// A time up to `longest` with as many frames to move as at `nanos`: the last one, since the guess is right.
fn until(capture: bool, queued: u32, word: u16, fraction: u64, nanos: u64, longest: u64) -> u64
    requires { nanos ≤ longest }
    ensures { (nanos ≤ result) × (result ≤ longest) × (movable_by capture queued (frames_by fraction nanos (format_of word)) ≡ movable_by capture queued (frames_by fraction result (format_of word))) }
{
    let frames = movable(capture, queued, word, fraction, nanos);
    let most = movable(capture, queued, word, fraction, longest);
    if most == frames {
        return longest;
    }
    let end = guess(word, fraction, frames).max(nanos).min(longest);
    let there = movable(capture, queued, word, fraction, end);
    if there == frames {
        return end;
    }
    nanos
}

// A time up to `longest` with as many frames to move for every stream as at `nanos`: the last one.
fn last_same(device: &[u8], host: Host, nanos: u64, longest: u64) -> u64
    requires { (length device.now ≡ device_size) × (nanos ≤ longest) }
    ensures { Lasting (device_at device.now) host nanos longest result }
{
    let mut end = longest;
    for index in 0..STREAMS {
        let s = record::load_stream(device, record::HEAD + record::NUMBERS * index);
        let word = word::get::<u16>(
            &device[record::REGISTERS..record::CODEC],
            registers::STREAM_BASE + registers::STREAM_SIZE * index + registers::FMT,
        );
        let q = host.queues[index];
        end = until(
            stream::is_capture(index),
            q.length,
            word,
            s.fraction,
            nanos,
            end,
        );
    }
    end
}

// ---- Scratch

// `count` bytes of `from` from `at` on, or as many as there are, to the same place of `into`.
fn window(from: &[u8], at: u64, count: usize, into: &mut [u8])
    requires { length into.old ≡ length from.now }
    ensures { into.new ≡ window_of from.now at count into.old }
{
    let size = from.len();
    if (size as u64) <= at {
        return;
    }
    let start = at as usize;
    let n = count.min(size - start);
    let end = start + n;
    word::copy(&from[start..end], &mut into[start..end]);
}

// A base address, which has its low seven bits clear.
fn base(regs: &[u8], at: usize) -> u64
    requires { at + 8 ≤ length regs.now }
    ensures { result ≡ word_at 8 at regs.now / 128 * 128 }
{
    word::get::<u64>(regs, at) / 128 * 128
}

// Every stream's descriptor list.
fn descriptor_lists(regs: &[u8], memory: &[u8], into: &mut [u8])
    requires { (size ≤ length regs.now) × (length into.old ≡ length memory.now) }
    ensures { into.new ≡ windows_of (list_at regs.now) (λ i. list_window) memory.now into.old }
{
    for index in 0..STREAMS {
        let list = base(
            regs,
            registers::STREAM_BASE + registers::STREAM_SIZE * index + registers::BDPL,
        );
        window(memory, list, LIST_WINDOW, into);
    }
}

// What counts can depend on of guest memory: the descriptor lists and the command ring.
fn seen(regs: &[u8], memory: &[u8], into: &mut [u8])
    requires { (size ≤ length regs.now) × (length into.old ≡ length memory.now) }
    ensures { into.new ≡ seen_of regs.now memory.now into.old }
{
    descriptor_lists(regs, memory, into);
    let ring = base(regs, registers::CORBBASE);
    window(memory, ring, RING_WINDOW, into);
}

// Every stream's pending positions.
fn pending(device: &[u8], lists: &[u8], into: &mut [u8])
    requires { (length device.now ≡ device_size) × (length into.old ≡ length lists.now) }
    ensures { into.new ≡ pending_of (device_at device.now) lists.now into.old }
{
    for index in 0..STREAMS {
        let s = record::load_stream(device, record::HEAD + record::NUMBERS * index);
        window(
            lists,
            (Stream::LIST * index) as u64,
            8 * (s.pending as usize),
            into,
        );
    }
}

// The scratch of one case: `lists2`, `queues2` and `memory2`, here and below.
fn fill(
    device: &[u8],
    lists: &[u8],
    queues: &[u8],
    memory: &[u8],
    lists2: &mut [u8],
    queues2: &mut [u8],
    memory2: &mut [u8],
)
    requires { (length device.now ≡ device_size) × (length lists2.old ≡ length lists.now) × (length queues2.old ≡ length queues.now) × (length memory2.old ≡ length memory.now) }
    ensures { (lists2.new ≡ pending_of (device_at device.now) lists.now lists2.old) × (queues2.new ≡ queues.now) × (memory2.new ≡ seen_of (device_at device.now).regs memory.now memory2.old) }
{
    pending(device, lists, lists2);
    word::copy(queues, queues2);
    seen(&device[record::REGISTERS..record::CODEC], memory, memory2);
}

// ---- Cases

// Each stream's submitted count.
fn counts(device: &[u8]) -> [u64; STREAMS]
    requires { length device.now ≡ device_size }
    ensures { Counted result (device_at device.now) }
{
    array::from_fn(|index| {
        record::load_stream(device, record::HEAD + record::NUMBERS * index).submitted
    })
}

// The counts after `advance` on a copy of the record.
fn run(
    device: &[u8],
    host: Host,
    lists: &mut [u8],
    queues: &mut [u8],
    memory: &mut [u8],
    nanos: u64,
) -> [u64; STREAMS]
    requires { (length device.now ≡ device_size) × (is_device device.now ≡ true) }
    ensures { Counted result (advance_of nanos (machine (device_at device.now) host lists.old queues.old memory.old)).answer.hda }
{
    let mut copy = [0u8; record::DEVICE];
    word::copy(device, &mut copy);
    advance::advance(&mut copy, host, lists, queues, memory, nanos);
    counts(&copy)
}

// One case: the counts after `advance` by `nanos`, on scratch that is filled anew, since an earlier case may have written to what it sees.
fn case(
    device: &[u8],
    host: Host,
    lists: &[u8],
    queues: &[u8],
    memory: &[u8],
    lists2: &mut [u8],
    queues2: &mut [u8],
    memory2: &mut [u8],
    nanos: u64,
) -> [u64; STREAMS]
    requires { CaseNeeds (machine (device_at device.now) host lists.now queues.now memory.now) device.now lists2.old queues2.old memory2.old }
    ensures { CountedAt result (machine (device_at device.now) host lists.now queues.now memory.now) nanos }
{
    fill(device, lists, queues, memory, lists2, queues2, memory2);
    run(device, host, lists2, queues2, memory2, nanos)
}

// What was found, with one count more for each stream.
fn widened(spread: Spread, found: [u64; STREAMS]) -> Spread
    ensures { Widened result spread found }
{
    Spread {
        lowest: array::from_fn(|index| spread.lowest[index].min(found[index])),
        highest: array::from_fn(|index| spread.highest[index].max(found[index])),
    }
}

// Over every time from `shortest` to `longest`: a case for each run of times with as many frames to move.
fn walk(
    device: &[u8],
    host: Host,
    lists: &[u8],
    queues: &[u8],
    memory: &[u8],
    lists2: &mut [u8],
    queues2: &mut [u8],
    memory2: &mut [u8],
    shortest: u64,
    longest: u64,
) -> Spread
    requires shortest_le_longest { shortest ≤ longest }
    requires case_needs { CaseNeeds (machine (device_at device.now) host lists.now queues.now memory.now) device.now lists2.old queues2.old memory2.old }
    ensures { SpreadOf result (machine (device_at device.now) host lists.now queues.now memory.now) shortest longest }
{
    let mut last = last_same(device, host, shortest, longest);
    let first = case(
        device, host, lists, queues, memory, lists2, queues2, memory2, shortest,
    );
    let mut spread = Spread {
        lowest: first,
        highest: first,
    };
    // From one run of times to the next: there is no range of them to go over.
    while last < longest {
        let at = last + 1;
        let end = last_same(device, host, at, longest);
        let found = case(
            device, host, lists, queues, memory, lists2, queues2, memory2, at,
        );
        spread = widened(spread, found);
        last = end;
    }
    spread
}

// ---- The call

// Whether lent space is short: for lists and queues as for a device, memory as long as the guest's, and the result.
fn is_short(memory: usize, lists2: usize, queues2: usize, memory2: usize, into: usize) -> bool
    ensures { result ≡ (machines.short_of lists2 queues2 || (ltb memory2 memory || ltb into result_size)) }
{
    device::is_short(lists2, queues2) | ((memory2 < memory) | (into < RESULT))
}

// The host end with both opening switches off.
fn switched_off(host: Host) -> Host
    ensures { result ≡ without_switches host }
{
    Host {
        playback: false,
        capture: false,
        ..host
    }
}

// The answer, from the streams' own parts of the lent spaces.
fn spread_of(
    device: &[u8],
    host: Host,
    lists: &[u8],
    queues: &[u8],
    memory: &[u8],
    lists2: &mut [u8],
    queues2: &mut [u8],
    memory2: &mut [u8],
    shortest: u64,
    longest: u64,
) -> Spread
    requires shortest_le_longest { shortest ≤ longest }
    requires spread_needs { SpreadNeeds (machine (device_at device.now) host lists.now queues.now memory.now) device.now lists2.old queues2.old memory2.old }
    ensures { SpreadOf result (machine (device_at device.now) host lists.now queues.now memory.now) shortest longest }
{
    let size = memory.len();
    walk(
        device,
        switched_off(host),
        &lists[0..LISTS],
        &queues[0..QUEUES],
        memory,
        &mut lists2[0..LISTS],
        &mut queues2[0..QUEUES],
        &mut memory2[0..size],
        shortest,
        longest,
    )
}

// Each stream's two counts.
fn put_result(spread: Spread, into: &mut [u8])
    requires { result_size ≤ length into.old }
    ensures { into.new ≡ rows_of (λ i. get_or spread.lowest i 0) (λ i. get_or spread.highest i 0) into.old }
{
    for index in 0..STREAMS {
        word::put::<u64>(into, ROW * index, spread.lowest[index]);
        word::put::<u64>(into, ROW * index + 8, spread.highest[index]);
    }
}

// Number and INTx level, with the bytes written.
fn answer(device: &[u8], number: u32, count: u32) -> Bounded
    requires { length device.now ≡ device_size }
    ensures { result ≡ bounded_of number (device_at device.now) count }
{
    let s = read::status_of(device, number);
    Bounded {
        number: s.number,
        level: s.level,
        count,
    }
}

// Zeros in all of the scratch.
fn clear(lists2: &mut [u8], queues2: &mut [u8], memory2: &mut [u8])
    ensures { scratch lists2.new queues2.new memory2.new ≡ cleared_of (scratch lists2.old queues2.old memory2.old) }
{
    lists2.fill(0);
    queues2.fill(0);
    memory2.fill(0);
}

// Behind the tests.
fn bounds_step(
    device: &[u8],
    host: Host,
    lists: &[u8],
    queues: &[u8],
    memory: &[u8],
    shortest: u64,
    longest: u64,
    lists2: &mut [u8],
    queues2: &mut [u8],
    memory2: &mut [u8],
    into: &mut [u8],
)
    requires shortest_le_longest { (shortest ≤ longest) × (result_size ≤ length into.old) }
    requires spread_needs { SpreadNeeds (machine (device_at device.now) host lists.now queues.now memory.now) device.now lists2.old queues2.old memory2.old }
    ensures into_after { into.new ≡ result_of (machine (device_at device.now) host lists.now queues.now memory.now) shortest longest into.old }
    ensures memory2_after { scratch lists2.new queues2.new memory2.new ≡ cleared_of (scratch lists2.old queues2.old memory2.old) }
{
    let spread = spread_of(
        device, host, lists, queues, memory, lists2, queues2, memory2, shortest, longest,
    );
    put_result(spread, into);
    clear(lists2, queues2, memory2);
}

// The lowest and the highest submitted count of each stream after `advance` by any time from `shortest` to `longest`, into the lent space.
pub fn bounds(
    device: &[u8],
    host: Host,
    lists: &[u8],
    queues: &[u8],
    memory: &[u8],
    shortest: u64,
    longest: u64,
    lists2: &mut [u8],
    queues2: &mut [u8],
    memory2: &mut [u8],
    into: &mut [u8],
) -> Bounded
    requires { (length device.now ≡ device_size) × (is_device device.now ≡ true) }
    ensures { bounding_of result (scratch lists2.new queues2.new memory2.new) into.new ≡ bounds_of shortest longest (machine (device_at device.now) host lists.now queues.now memory.now) (scratch lists2.old queues2.old memory2.old) into.old }
{
    if let Err(refusal) = read::check(device, host, lists, queues.len()) {
        return answer(device, refusal.number(), 0);
    }
    if longest < shortest {
        return answer(device, Refusal::Reversed.number(), 0);
    }
    if is_short(
        memory.len(),
        lists2.len(),
        queues2.len(),
        memory2.len(),
        into.len(),
    ) {
        return answer(device, Refusal::ShortSpace.number(), 0);
    }
    bounds_step(
        device, host, lists, queues, memory, shortest, longest, lists2, queues2, memory2, into,
    );
    answer(device, 0, RESULT as u32)
}
