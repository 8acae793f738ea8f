// A stream's host queue (document 01, "Host end, added"). Its bytes stand from the start of the stream's part of the lent space.
#![tactic(auto)]

ghost use Rattle.std.specs.Prelude.{◌≡◌, ◌≤◌, length};
ghost use Rattle.queue.specs.Queues.{capacity, valid_queue, latency_of, fitting_of, reserve_of, moved_of, put_of, taken_of, take_into_of};

use stream::Stream;

// One stream's queue: whether the stream is open, and how many bytes are queued. No Option: a record may say bytes of a closed stream, and `valid` has to see them to refuse it.
#[derive(Clone, Copy, PartialEq, Eq, Debug)]
pub struct Queue {
    pub live: bool,
    pub length: u32,
}

// What a queue's reserve, put and take answer: the bytes moved, and the queue.
#[derive(Clone, Copy, PartialEq, Eq, Debug)]
pub struct QueueMoved {
    pub count: u32,
    pub queue: Queue,
}

impl Queue {
    // Bytes of a queue, at most: two periods.
    pub const CAPACITY: u32 = Stream::QUEUE as u32;

    // A closed stream's queue, which is empty.
    pub const CLOSED: Queue = Queue {
        live: false,
        length: 0,
    };

    // At most 2,048 bytes, whole frames, none on a closed stream.
    pub fn valid(self) -> bool
        ensures { result ≡ valid_queue self }
    {
        self.length <= Queue::CAPACITY && self.length % 4 == 0 && (self.live || self.length == 0)
    }

    // Bytes not yet heard: those queued and those downstream; a capture stream, and a closed one, has none.
    #[tactic(auto, unfolding(crate::specs::Queues::latency_of))]
    pub fn latency(self, capture: bool, downstream: u32) -> u64
        ensures { result ≡ latency_of self capture downstream }
    {
        if self.live && !capture {
            u64::from(self.length) + u64::from(downstream)
        } else {
            0
        }
    }

    // How many of n bytes fit behind those queued; a closed stream takes none.
    fn fitting(self, n: usize) -> u32
        requires { self.length ≤ capacity }
        ensures { result ≡ fitting_of self n }
    {
        if self.live {
            n.min((Queue::CAPACITY - self.length) as usize) as u32
        } else {
            0
        }
    }

    // Room for n bytes behind those queued, as many as fit: how many these are, and the queue with them. The caller writes them.
    #[tactic(auto, using(crate::proofs::Moves::fitting))]
    pub fn reserve(self, n: usize) -> QueueMoved
        requires { self.length ≤ capacity }
        ensures { result ≡ reserve_of self n }
    {
        let count = self.fitting(n);
        QueueMoved {
            count,
            queue: Queue {
                length: self.length + count,
                ..self
            },
        }
    }

    // Bytes go behind those queued, as many as fit.
    #[tactic(auto, using(crate::proofs::Moves::reserved))]
    pub fn put(self, part: &mut [u8], bytes: &[u8]) -> QueueMoved
        requires { (self.length ≤ capacity) × (capacity ≤ length part.old) }
        ensures { moved_of result.count result.queue part.new ≡ put_of self part.old bytes.now (length bytes.now) }
    {
        let moved = self.reserve(bytes.len());
        let n = moved.count as usize;
        let at = self.length as usize;
        part[at..at + n].copy_from_slice(&bytes[..n]);
        moved
    }

    // Bytes leave the front for the start of a buffer, as many as it holds or as there are; the others move down.
    #[tactic(auto, unfolding(crate::specs::Queues::take_into_of, crate::specs::Queues::take_of))]
    pub fn take(self, part: &mut [u8], into: &mut [u8]) -> QueueMoved
        requires { (self.length ≤ capacity) × (capacity ≤ length part.old) }
        ensures { taken_of (moved_of result.count result.queue part.new) into.new ≡ take_into_of self part.old into.old }
    {
        let n = into.len().min(self.length as usize);
        let count = n as u32;
        let left = self.length - count;
        into[..n].copy_from_slice(&part[..n]);
        word::shift(part, n, left as usize);
        QueueMoved {
            count,
            queue: Queue {
                length: left,
                ..self
            },
        }
    }
}
