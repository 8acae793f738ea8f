// The pieces that a transfer moves between guest memory and a period of samples (document 01, "Stream transfer"; the Rust's `transfer`).
#![tactic(auto)]

ghost use Rattle.std.specs.Prelude.{◌≡◌, ◌+◌, ◌^◌, ◌≤◌, ◌<◌, length};
ghost use Rattle.stream.specs.Streams.{list_size};
ghost use Rattle.pieces.specs.Pieces.{following_of, next_of, list_of, EndOk, NextNeeds, memory_of, pcm_of, state_of, step_out, piece_of, pieces_of, PeriodNeeds};

use plan::{End, Move, Stop};
use stream::{Cyclic, Stream};

// What a piece, or all pieces of a period, left beside the lent lists. Without a stop all of it went well.
#[derive(Clone, Copy, PartialEq, Eq, Debug)]
pub struct Step {
    pub stream: Stream,
    pub done: u32,
    pub stop: Option<Stop>,
}

// The descriptor after one that has ended.
fn following(descriptor: u32, lvi: u32) -> u32
    requires { descriptor ≤ lvi }
    ensures { result ≡ following_of descriptor lvi }
{
    if descriptor == lvi { 0 } else { descriptor + 1 }
}

// The stream after a piece of n bytes.
fn next_of(s: Stream, lvi: u32, n: u32, end: End) -> Stream
    requires { NextNeeds s lvi n end }
    ensures { result ≡ next_of s lvi n end }
{
    let submitted = s.submitted + u64::from(n);
    match end {
        End::Inside => Stream {
            offset: s.offset + n,
            submitted,
            ..s
        },
        End::Plain => Stream {
            descriptor: following(s.descriptor, lvi),
            offset: 0,
            submitted,
            ..s
        },
        End::Flagged => Stream {
            descriptor: following(s.descriptor, lvi),
            offset: 0,
            submitted,
            pending: s.pending + 1,
            ..s
        },
    }
}

// Puts a flagged end's position, submitted after the piece, behind those pending.
fn push_end(list: &mut [u8], s: Stream, n: u32, end: End)
    requires { (list_size ≤ length list.old) × (s.submitted + n < 2 ^ 64) × EndOk s end }
    ensures { list.new ≡ list_of list.old s n end }
{
    match end {
        End::Inside | End::Plain => {}
        End::Flagged => positions::push(list, s.pending as usize, s.submitted + u64::from(n)),
    }
}

// Moves n bytes between memory at `at` and the samples at `done`: into memory for a capture, out of it for a playback.
fn move_bytes(capture: bool, memory: &mut [u8], at: usize, pcm: &mut [u8], done: usize, n: usize)
    requires { (at + n ≤ length memory.old) × (done + n ≤ length pcm.old) }
    ensures memory_after { memory.new ≡ memory_of capture memory.old at pcm.old done n }
    ensures pcm_after { pcm.new ≡ pcm_of capture memory.old at pcm.old done n }
{
    let address = at as u64;
    let end = done + n;
    if capture {
        memory::write(memory, address, &pcm[done..end]);
    } else {
        memory::read(memory, address, &mut pcm[done..end]);
    }
}

// One piece of a period of `count` bytes, of which `done` are moved: decided first, then carried out.
#[tactic(auto, unfolding(crate::specs::Pieces::piece_of, crate::specs::Pieces::done_of))]
fn piece(
    g: Cyclic,
    s: Stream,
    list: &mut [u8],
    memory: &mut [u8],
    pcm: &mut [u8],
    done: u32,
    count: u32,
) -> Step
    requires { (done < count) × PeriodNeeds g count list.old pcm.old }
    ensures { step_out result list.new memory.new pcm.new ≡ piece_of g count (state_of s list.old memory.old pcm.old done) }
{
    match plan::plan_at(g, s, memory, count - done) {
        Err(stop) => Step {
            stream: s,
            done,
            stop: Some(stop),
        },
        Ok(Move { at, n, end }) => {
            move_bytes(g.capture, memory, at, pcm, done as usize, n as usize);
            push_end(list, s, n, end);
            Step {
                stream: next_of(s, g.lvi, n, end),
                done: done + n,
                stop: None,
            }
        }
    }
}

// The pieces of a period of `count` bytes between guest memory and `pcm`. Pieces before one that fails stay moved and counted.
pub fn pieces(
    g: Cyclic,
    stream: Stream,
    list: &mut [u8],
    memory: &mut [u8],
    pcm: &mut [u8],
    count: u32,
) -> Step
    requires { PeriodNeeds g count list.old pcm.old }
    ensures { step_out result list.new memory.new pcm.new ≡ pieces_of count g count (state_of stream list.old memory.old pcm.old 0) }
{
    let mut s = stream;
    let mut done = 0;
    // Each piece goes on by its own length, so that no range is gone through here.
    while done < count {
        let step = piece(g, s, list, memory, pcm, done, count);
        if step.stop.is_some() {
            return step;
        }
        s = step.stream;
        done = step.done;
    }
    Step {
        stream: s,
        done,
        stop: None,
    }
}
