// A stream's completion list: little-endian 64-bit positions in lent bytes. How many are pending the caller knows; the functions
// take that count. The contracts of push and retire give the whole lent list at exit, so nothing else of the lent space changes.
#![tactic(auto)]

ghost use Rattle.std.specs.Prelude.{◌≡◌, ◌+◌, ◌*◌, ◌≤◌, length};
ghost use Rattle.word.specs.Place.{word_at};
ghost use Rattle.positions.specs.Positions.{positions_of, rises_of, spaced_of, up_to_of, push_of, retire_of};

// The position at place i.
pub fn get(list: &[u8], i: usize) -> u64
    requires { 8 * i + 8 ≤ length list.now }
    ensures { result ≡ word_at 8 (8 * i) list.now }
{
    word::get::<u64>(list, 8 * i)
}

// Whether the first n positions rise from above lo up to at most hi.
pub fn rises(list: &[u8], n: usize, lo: u64, hi: u64) -> bool
    requires { 8 * n ≤ length list.now }
    ensures { result ≡ rises_of lo (positions_of n list.now) hi }
{
    let mut last = lo;
    for i in 0..n {
        let x = get(list, i);
        if x <= last {
            return false;
        }
        last = x;
    }
    // Of positions that rise, the last is the highest.
    n == 0 || last <= hi
}

// Whether the first n positions are 4 apart or more, and the last is offset or more below hi. No sum is made, so that none can wrap.
pub fn spaced(list: &[u8], n: usize, offset: u64, hi: u64) -> bool
    requires { 8 * n ≤ length list.now }
    ensures { result ≡ spaced_of offset hi (positions_of n list.now) }
{
    if n == 0 {
        return true;
    }
    let mut last = get(list, 0);
    for i in 1..n {
        let x = get(list, i);
        if x.saturating_sub(last) < 4 {
            return false;
        }
        last = x;
    }
    last <= hi && offset <= hi - last
}

// How many of the first n positions, from the front, are at most c.
pub fn up_to(list: &[u8], n: usize, c: u64) -> usize
    requires { 8 * n ≤ length list.now }
    ensures { (result ≡ up_to_of c (positions_of n list.now)) × (result ≤ n) }
{
    for i in 0..n {
        if get(list, i) > c {
            return i;
        }
    }
    n
}

// Puts v behind the first n positions.
#[tactic(auto, unfolding(crate::specs::Positions::push_of))]
pub fn push(list: &mut [u8], n: usize, v: u64)
    requires { 8 * n + 8 ≤ length list.old }
    ensures { list.new ≡ push_of n v list.old }
{
    word::put::<u64>(list, 8 * n, v)
}

// Takes the first k of n positions away: the n - k others move to the front, once. With k = 0 nothing moves.
#[tactic(auto, unfolding(crate::specs::Positions::retire_of))]
pub fn retire(list: &mut [u8], n: usize, k: usize)
    requires { (k ≤ n) × (8 * n ≤ length list.old) }
    ensures { list.new ≡ retire_of k n list.old }
{
    word::shift(list, 8 * k, 8 * (n - k))
}
