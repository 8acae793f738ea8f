// The host end: opening switches, downstream count, and a queue for each stream in lent space, with its check and a stream's opening and closing
// (document 01, "Host end, added").
#![tactic(auto)]

ghost use Rattle.std.specs.Prelude.{◌≡◌, ◌<◌};
ghost use Rattle.std.specs.List.{list_all};
ghost use Rattle.queue.specs.Queues.{valid_queue};
ghost use Rattle.stream.specs.Box.{streams};
ghost use Rattle.refusal.specs.Refusals.{outcome_of};
ghost use Rattle.host.specs.Hosts.{fresh_of, valid_downstream, valid_of, check_of, fails_of, opening_of, open_of, close_of};

use queue::Queue;
use refusal::Refusal;
use stream::{STREAMS, Stream};

// Bytes that the host holds beyond the queue, at most.
pub const DOWNSTREAM: u32 = 14336;

// The host end. `playback` and `capture` make openings of that direction fail; `downstream` counts bytes that the host holds beyond the queue.
#[derive(Clone, Copy, PartialEq, Eq, Debug)]
pub struct Host {
    pub playback: bool,
    pub capture: bool,
    pub downstream: u32,
    pub queues: [Queue; STREAMS],
}

// Number 12's condition on a downstream count.
pub fn downstream_valid(n: u32) -> bool
    ensures { result ≡ valid_downstream n }
{
    n <= DOWNSTREAM && n % 4 == 0
}

// Whether each queue keeps its conditions.
fn all_valid(queues: &[Queue]) -> bool
    ensures { result ≡ list_all valid_queue queues.now }
{
    queues.iter().all(|q| q.valid())
}

impl Host {
    // A new host end: both switches off, downstream 0, every stream closed.
    #[tactic(auto, unfolding(crate::specs::Hosts::fresh_of))]
    pub fn fresh() -> Host
        ensures { result ≡ fresh_of }
    {
        Host {
            playback: false,
            capture: false,
            downstream: 0,
            queues: [Queue::CLOSED; STREAMS],
        }
    }

    // What a host end record must meet, else number 9.
    #[tactic(auto, unfolding(crate::specs::Hosts::valid_of))]
    pub fn valid(self) -> bool
        ensures { result ≡ valid_of self }
    {
        downstream_valid(self.downstream) && all_valid(&self.queues)
    }

    // Refuses short queue space first, then a record that breaks a condition.
    #[tactic(auto, unfolding(crate::specs::Hosts::check_of))]
    pub fn check(self, space: usize) -> Result<(), Refusal>
        ensures { outcome_of result ≡ check_of self space }
    {
        if space < Stream::QUEUE * STREAMS {
            return Err(Refusal::LentSpace);
        }
        if self.valid() {
            Ok(())
        } else {
            Err(Refusal::State)
        }
    }

    // The switch that makes a stream's opening fail.
    pub fn fails(self, stream: usize) -> bool
        ensures { result ≡ fails_of self stream }
    {
        if stream::is_capture(stream) {
            self.capture
        } else {
            self.playback
        }
    }

    // Opens a stream, and says whether it is open. One that is open stays so, its queue too; else the switch decides, and opening empties the queue.
    #[tactic(auto, unfolding(crate::specs::Hosts::open_of))]
    pub fn open(&mut self, stream: usize) -> bool
        requires { stream < streams }
        ensures { opening_of result self.new ≡ open_of self.old stream }
    {
        if self.queues[stream].live {
            return true;
        }
        if self.fails(stream) {
            return false;
        }
        self.queues[stream] = Queue {
            live: true,
            length: 0,
        };
        true
    }

    // Closing empties the queue.
    #[tactic(auto, unfolding(crate::specs::Hosts::close_of))]
    pub fn close(&mut self, stream: usize)
        requires { stream < streams }
        ensures { self.new ≡ close_of self.old stream }
    {
        self.queues[stream] = Queue::CLOSED;
    }
}
