// The host end as bytes (docs/LAYOUT.md): the record that crosses the C boundary.
#![tactic(auto)]

ghost use Rattle.std.specs.Prelude.{◌≡◌, ◌+◌, ◌≤◌, length};
ghost use Rattle.word.specs.Place.{put_at};
ghost use Rattle.stream.specs.Box.{streams};
ghost use Rattle.host_record.specs.Hosts.{host_size, queue_bytes, queues_bytes, host_bytes, queue_at, queues_at, host_at, queues_flagged, is_host};

use host::Host;
use queue::Queue;
use std::array;
use stream::STREAMS;

// Bytes of a host end record before its queues, of a queue in it, and of the record.
const SETTINGS: usize = 6;

const QUEUE: usize = 5;

pub const HOST: usize = SETTINGS + QUEUE * STREAMS;

fn put_queue(q: Queue, into: &mut [u8], at: usize)
    requires { at + 5 ≤ length into.old }
    ensures { into.new ≡ put_at at (queue_bytes q) into.old }
{
    let live = [record::flag_byte(q.live)];
    record::put(into, at, &live);
    word::put::<u32>(into, at + 1, q.length);
}

fn put_queues(host: Host, into: &mut [u8])
    requires { host_size ≤ length into.old }
    ensures { into.new ≡ put_at 6 (queues_bytes streams 0 host) into.old }
{
    for index in 0..STREAMS {
        put_queue(host.queues[index], into, SETTINGS + QUEUE * index);
    }
}

// The host end into its record.
pub fn store_host(host: Host, into: &mut [u8])
    requires { length into.old ≡ host_size }
    ensures { into.new ≡ host_bytes host }
{
    let flags = [
        record::flag_byte(host.playback),
        record::flag_byte(host.capture),
    ];
    record::put(into, 0, &flags);
    word::put::<u32>(into, 2, host.downstream);
    put_queues(host, into);
}

fn load_queue(from: &[u8], at: usize) -> Queue
    requires { at + 5 ≤ length from.now }
    ensures { result ≡ queue_at at from.now }
{
    Queue {
        live: from[at] == 1,
        length: word::get::<u32>(from, at + 1),
    }
}

fn load_queues(from: &[u8]) -> [Queue; STREAMS]
    requires { host_size ≤ length from.now }
    ensures { result ≡ queues_at streams 0 from.now }
{
    array::from_fn(|index| load_queue(from, SETTINGS + QUEUE * index))
}

// The host end in a record.
pub fn load_host(from: &[u8]) -> Host
    requires { host_size ≤ length from.now }
    ensures { result ≡ host_at from.now }
{
    Host {
        playback: from[0] == 1,
        capture: from[1] == 1,
        downstream: word::get::<u32>(from, 2),
        queues: load_queues(from),
    }
}

// Whether every queue's flag is 0 or 1.
fn queues_flagged(from: &[u8]) -> bool
    requires { host_size ≤ length from.now }
    ensures { result ≡ queues_flagged streams 0 from.now }
{
    (0..STREAMS).all(|index| from[SETTINGS + QUEUE * index] <= 1)
}

// Whether bytes are a host end record: as many as it has, and flags that are 0 or 1.
#[tactic(auto, unfolding(crate::specs::Hosts::is_host))]
pub fn is_host(from: &[u8]) -> bool
    ensures { result ≡ is_host from.now }
{
    from.len() == HOST && from[0] <= 1 && from[1] <= 1 && queues_flagged(from)
}
