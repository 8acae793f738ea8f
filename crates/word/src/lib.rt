// Little-endian words in lent bytes, and bytes copied and moved down. Knows nothing of the device.
//
// The compiler makes one load or one store of each word.
#![tactic(auto)]

ghost use Rattle.std.specs.Prelude.{◌≡◌, ℕ, ◌+◌, ◌-◌, ◌≤◌, ◌<◌, ◌++◌, length, take, drop};
ghost use Rattle.word.specs.Place.{put_at, word_at, store_at};
ghost use Rattle.word.specs.Shift.{shift_of};

// A number of a fixed width, whose bytes stand in a slice with the lowest first.
pub trait Word: Sized {
    // How many bytes it has, and the number that it is.
    ghost width: { ℕ };

    ghost number: { Self → ℕ };

    fn get_from(s: &[u8], at: usize) -> Self
        requires { at + width ≤ length s.now }
        ensures { number result ≡ word_at width at s.now };

    fn put_into(self, s: &mut [u8], at: usize)
        requires { at + width ≤ length s.old }
        ensures { s.new ≡ store_at width at (number self) s.old };
}

impl Word for u16 {
    ghost width = { 2 };

    ghost number = { λ x. x };

    fn get_from(s: &[u8], at: usize) -> u16 {
        u16::from_le_bytes(bytes_at(s, at))
    }

    fn put_into(self, s: &mut [u8], at: usize) {
        put_bytes::<2>(s, at, self.to_le_bytes())
    }
}

impl Word for u32 {
    ghost width = { 4 };

    ghost number = { λ x. x };

    fn get_from(s: &[u8], at: usize) -> u32 {
        u32::from_le_bytes(bytes_at(s, at))
    }

    fn put_into(self, s: &mut [u8], at: usize) {
        put_bytes::<4>(s, at, self.to_le_bytes())
    }
}

impl Word for u64 {
    ghost width = { 8 };

    ghost number = { λ x. x };

    fn get_from(s: &[u8], at: usize) -> u64 {
        u64::from_le_bytes(bytes_at(s, at))
    }

    fn put_into(self, s: &mut [u8], at: usize) {
        put_bytes::<8>(s, at, self.to_le_bytes())
    }
}

// The word at `at`. `&[u8]` also lends an array, be it a field of a struct or behind a reference.
pub fn get<W: Word>(s: &[u8], at: usize) -> W
    requires { at + W.width ≤ length s.now }
    ensures { W.number result ≡ word_at W.width at s.now }
{
    W::get_from(s, at)
}

// The word to `at`. The contract gives the whole list at exit, so no byte beside the word changes.
pub fn put<W: Word + Drop>(s: &mut [u8], at: usize, v: W)
    requires { at + W.width ≤ length s.old }
    ensures { s.new ≡ store_at W.width at (W.number v) s.old }
{
    v.put_into(s, at)
}

// The N bytes at `at`.
fn bytes_at<const N: usize>(s: &[u8], at: usize) -> [u8; N]
    requires { at + N ≤ length s.now }
    ensures { result ≡ take N (drop at s.now) }
{
    let mut bytes = [0; N];
    bytes.copy_from_slice(&s[at..at + N]);
    bytes
}

// The bytes to `at`, over as many.
#[tactic(auto, unfolding(crate::specs::Place::put_at))]
fn put_bytes<const N: usize>(s: &mut [u8], at: usize, bytes: [u8; N])
    requires { at + N ≤ length s.old }
    ensures { s.new ≡ put_at at bytes.entry s.old }
{
    s[at..at + N].copy_from_slice(&bytes);
}

// One of the device's two 256-byte files: its registers, its configuration space.
pub type File = [u8; 256];

// Moves the `count` bytes from `from` on to the front, in one pass. With from = 0 nothing moves.
#[tactic(auto, unfolding(crate::specs::Shift::shift_of))]
pub fn shift(s: &mut [u8], from: usize, count: usize)
    requires { from + count ≤ length s.old }
    ensures { s.new ≡ shift_of from count s.old }
{
    if from > 0 {
        s.copy_within(from..from + count, 0);
    }
}

// Copies all of `from` over the front of `into`; the rest of `into` stays.
pub fn copy(from: &[u8], into: &mut [u8])
    requires { length from.now ≤ length into.old }
    ensures { into.new ≡ take (length from.now) from.now ++ drop (length from.now) into.old }
{
    into[..from.len()].copy_from_slice(from);
}
