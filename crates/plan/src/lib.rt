// What one piece of a transfer is to do, decided before anything changes (document 01, "Stream transfer"; the Rust's `transfer`).
#![tactic(auto)]

ghost use Rattle.std.specs.Prelude.{◌≡◌, ◌+◌, ◌^◌, ◌≤◌, ◌<◌};
ghost use Rattle.plan.specs.Plans.{ready_of, size_of, end_of, placed_of, entry_of, plan_of};

use memory::Descriptor;
use stream::{Cyclic, Stream};

// Where a piece ends: inside its descriptor, at its end, or at an end that is flagged.
#[derive(Clone, Copy, PartialEq, Eq, Debug)]
pub enum End {
    Inside,
    Plain,
    Flagged,
}

// A piece that is moved: where in memory it begins, its bytes, and how it ends.
#[derive(Clone, Copy, PartialEq, Eq, Debug)]
pub struct Move {
    pub at: usize,
    pub n: u32,
    pub end: End,
}

// What stops a transfer. `Full` is a flagged end with no place left for its position; `Failed` any other rule.
#[derive(Clone, Copy, PartialEq, Eq, Debug)]
pub enum Stop {
    Failed,
    Full,
}

// Whether a transfer takes the cyclic buffer.
#[tactic(auto, unfolding(crate::specs::Plans::ready_of))]
pub fn ready(g: Cyclic) -> bool
    ensures { result ≡ ready_of g }
{
    g.cbl != 0 && g.cbl % 4 == 0 && g.lvi <= 255
}

// The bytes of a piece: what is left of the period, of the descriptor, and of the turn of the cyclic buffer.
fn size_of(g: Cyclic, s: Stream, left: u32, length: u32) -> u32
    requires { (0 < g.cbl) × (s.offset ≤ length) }
    ensures { result ≡ size_of g s left length }
{
    let turn = g.cbl - (s.submitted % u64::from(g.cbl)) as u32;
    left.min(length - s.offset).min(turn)
}

// How a piece of n bytes ends.
#[tactic(auto, unfolding(crate::specs::Plans::end_of))]
fn plan_end(s: Stream, d: Descriptor, n: u32) -> Result<Move, Stop>
    requires { d.address + s.offset < 2 ^ 64 }
    ensures { result ≡ end_of s d n }
{
    let at = (d.address + u64::from(s.offset)) as usize;
    let end = if u64::from(s.offset) + u64::from(n) != u64::from(d.length) {
        End::Inside
    } else if d.flags % 2 != 1 {
        End::Plain
    } else if s.pending as usize >= Stream::PLACES {
        return Err(Stop::Full);
    } else {
        End::Flagged
    };
    Ok(Move { at, n, end })
}

// Whether a piece of n bytes lies in memory of `size` bytes and submitted stays a 64-bit number. No sum wraps: one past 64 bits is outside any memory.
#[tactic(auto, unfolding(crate::specs::Plans::placed_of))]
fn plan_placed(s: Stream, size: usize, d: Descriptor, n: u32) -> Result<Move, Stop>
    ensures { result ≡ placed_of s size d n }
{
    let Some(end) = d.address.checked_add(u64::from(s.offset) + u64::from(n)) else {
        return Err(Stop::Failed);
    };
    if end > size as u64 {
        return Err(Stop::Failed);
    }
    if s.submitted.checked_add(u64::from(n)).is_none() {
        return Err(Stop::Failed);
    }
    plan_end(s, d, n)
}

// What the descriptor as read allows, with `left` bytes of the period still to move.
#[tactic(auto, unfolding(crate::specs::Plans::entry_of))]
fn plan_entry(g: Cyclic, s: Stream, size: usize, left: u32, d: Descriptor) -> Result<Move, Stop>
    requires { 0 < g.cbl }
    ensures { result ≡ entry_of g s size left d }
{
    if d.length == 0 || d.length % 4 != 0 || s.offset >= d.length {
        return Err(Stop::Failed);
    }
    plan_placed(s, size, d, size_of(g, s, left, d.length))
}

// Decides the next piece: every test that can stop it, and no change. The descriptor is read anew from memory as it stands.
#[tactic(auto, unfolding(crate::specs::Plans::plan_of))]
pub fn plan_at(g: Cyclic, s: Stream, memory: &[u8], left: u32) -> Result<Move, Stop>
    requires { 0 < g.cbl }
    ensures { result ≡ plan_of g s memory.now left }
{
    if s.descriptor > g.lvi {
        return Err(Stop::Failed);
    }
    let list = g.bdl / 128 * 128;
    let place = 16 * u64::from(s.descriptor);
    // An address past 64 bits is outside any memory.
    let Some(address) = list.checked_add(place) else {
        return Err(Stop::Failed);
    };
    let Some(d) = memory::fetch_descriptor(memory, address) else {
        return Err(Stop::Failed);
    };
    plan_entry(g, s, memory.len(), left, d)
}
