// A digest of bytes, and that of all that is held after a call: a polynomial modulo a prime, so that one byte that differs always shows.
ghost use Rattle.std.specs.Prelude.{◌≡◌};
ghost use Rattle.rehearse.specs.Digest.{step_of, digest_of, number_of, part_of, pending_of, queued_of, held_of};

use stream::Stream;

fn step(sum: u32, byte: u8) -> u32
    ensures { result ≡ step_of sum byte }
{
    ((u64::from(sum) * 16777619 + u64::from(byte)) % 4294967291) as u32
}

// The digest of bytes behind those that gave `start`.
pub fn digest(start: u32, bytes: &[u8]) -> u32
    ensures { result ≡ digest_of start bytes.now }
{
    let mut sum = start;
    for byte in bytes {
        sum = step(sum, *byte);
    }
    sum
}

// A number in a record, 0 where it has none.
#[tactic(auto, unfolding(crate::specs::Digest::number_of))]
fn number(bytes: &[u8], at: usize) -> u32
    ensures { result ≡ number_of at bytes.now }
{
    if bytes.len() < 4 || bytes.len() - 4 < at {
        return 0;
    }
    word::get::<u32>(bytes, at)
}

// `count` bytes of a space, where it has them.
#[tactic(auto, unfolding(crate::specs::Digest::part_of))]
fn part(start: u32, space: &[u8], from: usize, count: usize) -> u32
    ensures { result ≡ part_of from count start space.now }
{
    if space.len() < from || space.len() - from < count {
        return start;
    }
    let end = from + count;
    digest(start, &space[from..end])
}

// The positions that are pending, by their counts in the device record.
fn pending(start: u32, device: &[u8], lists: &[u8]) -> u32
    ensures { result ≡ pending_of device.now lists.now start }
{
    let capture = number(device, 710);
    let playback = number(device, 744);
    let sum = part(start, lists, 0, 8 * (capture as usize));
    part(sum, lists, Stream::LIST, 8 * (playback as usize))
}

// The bytes that are queued, by their counts in the host end's record.
fn queued(start: u32, host: &[u8], queues: &[u8]) -> u32
    ensures { result ≡ queued_of host.now queues.now start }
{
    let capture = number(host, 7);
    let playback = number(host, 12);
    let sum = part(start, queues, 0, capture as usize);
    part(sum, queues, 2048, playback as usize)
}

// What a call gave, then all that device and host end hold.
pub fn held(into: &[u8], device: &[u8], host: &[u8], lists: &[u8], queues: &[u8]) -> u32
    ensures { result ≡ held_of into.now device.now host.now lists.now queues.now }
{
    let given = digest(1, into);
    let records = digest(digest(given, device), host);
    queued(pending(records, device, lists), host, queues)
}
