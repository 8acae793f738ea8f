// A stream: its record, its direction, and its position update (document 01, "Stream transfer"; the Rust's `Stream`, `update_position`).
#![tactic(auto)]

ghost use Rattle.std.specs.Prelude.{◌≡◌, ◌*◌, ◌≤◌, length};
ghost use Rattle.stream.specs.Box.{captures};
ghost use Rattle.stream.specs.Streams.{places, list_size, fresh_of, valid_of, uncrowded_of, emptied_of};
ghost use Rattle.stream.specs.Update.{left_of, update_of};

// Streams of the box: the first half captures, the second half plays.
pub const STREAMS: usize = 2;

#[derive(Clone, Copy, PartialEq, Eq, Debug)]
pub struct Stream {
    pub descriptor: u32,
    pub offset: u32,
    pub consumed: u64,
    // Between two that a transfer leaves as they are: so they are not moved as one, right after each was stored alone.
    pub submitted: u64,
    // Frame time in billionths of a frame.
    pub fraction: u64,
    // How many completion positions are pending in the stream's part of the lent list space.
    pub pending: u32,
}

// What a stream's registers say of its cyclic buffer: its direction, the descriptor list's address, the last descriptor's index, and the length in bytes.
#[derive(Clone, Copy, PartialEq, Eq, Debug)]
pub struct Cyclic {
    pub capture: bool,
    pub bdl: u64,
    pub lvi: u32,
    pub cbl: u32,
}

// What a position update left beside the list. No Option: the stream is there whether or not completions retired.
#[derive(Clone, Copy, PartialEq, Eq, Debug)]
pub struct Updated {
    pub stream: Stream,
    pub completed: bool,
}

impl Stream {
    // Bytes of a period: 256 frames of 4 bytes.
    pub const PERIOD: usize = 1024;

    // Bytes of a host queue.
    pub const QUEUE: usize = 2048;

    // Completions pending at most.
    pub const PLACES: usize = 4352;

    // Bytes of a stream's part of the lent list space: 8 for each place.
    pub const LIST: usize = 34_816;

    // A stream made or reset.
    #[tactic(auto, unfolding(crate::specs::Streams::fresh_of))]
    pub fn fresh() -> Stream
        ensures { result ≡ fresh_of }
    {
        Stream {
            descriptor: 0,
            offset: 0,
            submitted: 0,
            consumed: 0,
            fraction: 0,
            pending: 0,
        }
    }

    // Whether the stream and its list keep the conditions of document 01's numbers 6, 7 and 8. The count is tested first: the list is
    // read no further than its places.
    #[tactic(auto, unfolding(crate::specs::Streams::valid_of))]
    pub fn valid(self, list: &[u8]) -> bool
        requires { list_size ≤ length list.now }
        ensures { result ≡ valid_of self list.now }
    {
        let pending = self.pending as usize;
        pending <= Stream::PLACES
            && positions::rises(list, pending, self.consumed, self.submitted)
            && self.descriptor <= 255
            && self.consumed <= self.submitted
            && self.fraction < 8_193_000_000_000
    }

    // Whether the stream's list is not crowded: number 20 refuses a saved state where it is.
    pub fn uncrowded(self, list: &[u8]) -> bool
        requires { 8 * self.pending ≤ length list.now }
        ensures { result ≡ uncrowded_of self list.now }
    {
        positions::spaced(
            list,
            self.pending as usize,
            u64::from(self.offset),
            self.submitted,
        )
    }

    // The stream with an empty list.
    pub fn emptied(self) -> Stream
        ensures { result ≡ emptied_of self }
    {
        Stream { pending: 0, ..self }
    }

    // Moves consumed up to submitted less `latency`, and retires the completions up to it.
    #[tactic(auto, unfolding(crate::specs::Update::update_of))]
    pub fn update(self, list: &mut [u8], latency: u64) -> Updated
        requires { (self.pending ≤ places) × (list_size ≤ length list.old) }
        ensures { left_of result list.new ≡ update_of self list.old latency }
    {
        let consumed = self.consumed.max(self.submitted.saturating_sub(latency));
        let pending = self.pending as usize;
        let retired = positions::up_to(list, pending, consumed);
        positions::retire(list, pending, retired);
        Updated {
            stream: Stream {
                consumed,
                pending: (pending - retired) as u32,
                ..self
            },
            completed: retired > 0,
        }
    }
}

// Whether a stream captures.
pub fn is_capture(index: usize) -> bool
    ensures { result ≡ captures index }
{
    index < STREAMS / 2
}
