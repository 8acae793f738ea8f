// Elapsed time turned into counts: the ticks of the wall clock, and the frames that are due to a stream.
//
// Time comes in 64-bit nanoseconds. What is short of a whole tick or frame is kept in billionths of one, so that no time is lost between calls.
// The Rust sums in 128 bits; here whole seconds and the part of a second are counted separately, and no sum or product passes 64 bits, whatever numbers
// the caller hands in (document 01, What must change shape).
#![tactic(auto)]

ghost use Rattle.std.specs.Prelude.{◌≡◌, ◌<◌};
ghost use Rattle.clock.specs.Billionths.{billion, total_of, amount_of};
ghost use Rattle.clock.specs.Clock.{fresh_of, advance_of, shown_of};
ghost use Rattle.clock.specs.Frames.{accrue_of, whole_frames_of, remainder_of};

// Nanoseconds in a second, and billionths in a tick or a frame.
pub const BILLION: u64 = 1_000_000_000;

// Ticks of the wall clock in a second: 24 MHz.
pub const WALL_RATE: u32 = 24_000_000;

// The most whole frames that a stream may have deferred.
pub const MAX_PENDING_FRAMES: u64 = 8_192;

// The wall clock: ticks, and billionths of the next tick.
#[derive(Clone, Copy, PartialEq, Eq, Debug)]
pub struct Clock {
    pub ticks: u64,
    pub fraction: u64,
}

impl Clock {
    // A new device's clock.
    pub fn fresh() -> Clock
        ensures { result ≡ fresh_of }
    {
        Clock {
            ticks: 0,
            fraction: 0,
        }
    }

    // The clock `nanos` nanoseconds later. The tick count wraps past its largest value back to zero.
    pub fn advance(self, nanos: u64) -> Clock
        ensures { result ≡ advance_of self nanos }
    {
        let part = part_of_second(nanos % BILLION, WALL_RATE, self.fraction);
        let elapsed = nanos / BILLION * u64::from(WALL_RATE) + part.whole;
        Clock {
            ticks: self.ticks.wrapping_add(elapsed),
            fraction: part.remainder,
        }
    }

    // What register 0x30 shows: the low 32 bits of the tick count.
    pub fn shown(self) -> u32
        ensures { result ≡ shown_of self }
    {
        (self.ticks % 0x1_0000_0000) as u32
    }
}

// A stream's frame time `nanos` nanoseconds later, at `rate` frames a second: at most MAX_PENDING_FRAMES whole frames, and the remainder.
// Above that many seconds a rate of one frame a second or more is at the limit anyway, so counting no further seconds changes nothing.
pub fn accrue(fraction: u64, nanos: u64, rate: u32) -> u64
    ensures { result ≡ accrue_of rate nanos fraction }
{
    let part = part_of_second(nanos % BILLION, rate, fraction);
    let seconds = (nanos / BILLION).min(MAX_PENDING_FRAMES);
    let frames = seconds * u64::from(rate) + part.whole;
    frames.min(MAX_PENDING_FRAMES) * BILLION + part.remainder
}

// The whole frames that are due.
pub fn whole_frames(fraction: u64) -> u64
    ensures { result ≡ whole_frames_of fraction }
{
    fraction / BILLION
}

// What a stream that stops keeps of its frame time: the part that is less than a frame.
pub fn remainder(fraction: u64) -> u64
    ensures { result ≡ remainder_of fraction }
{
    fraction % BILLION
}

// A count in billionths: whole ones, and what is left over.
#[derive(Clone, Copy, PartialEq, Eq, Debug)]
struct Amount {
    whole: u64,
    remainder: u64,
}

// The count after `nanos` more at `rate` a second, less than a second being added to `fraction`.
fn part_of_second(nanos: u64, rate: u32, fraction: u64) -> Amount
    requires { nanos < billion }
    ensures { result ≡ amount_of (total_of rate nanos fraction) }
{
    let part = nanos * u64::from(rate) + fraction % BILLION;
    let whole = fraction / BILLION + part / BILLION;
    Amount {
        whole,
        remainder: part % BILLION,
    }
}
