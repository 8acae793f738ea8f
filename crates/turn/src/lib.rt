// A stream's turn in `advance`: its format, its opening, its position update and the transfers that are due (document 01, "Stream transfer"; the Rust's
// `update_position`, `stream_error` and the loop body of `advance`).
#![tactic(auto)]

ghost use Rattle.std.specs.Prelude.{◌≡◌, ◌*◌, ◌<◌, ◌≤◌, length};
ghost use Rattle.stream.specs.Box.{streams};
ghost use Rattle.codec.specs.Codecs.{amplifier_byte_of};
ghost use Rattle.word.specs.Value.{bytes_of};
ghost use Rattle.clock.specs.Billionths.{billion};
ghost use Rattle.memory.specs.Memory.{access_of, write_of};
ghost use Rattle.registers.specs.Places.{size};
ghost use Rattle.host.specs.Hosts.{opening_of};
ghost use Rattle.transfer.specs.Transfers.{told};
ghost use Rattle.turn.specs.Setups.{cyclic_of, setup_of};
ghost use Rattle.turn.specs.Engines.{work_of, stopped_of, position_of, status_of, position_at, published_of, publish_of, moved_on, update_out, updated_of, frames_of, transferred_of, failed_of, settled_of, round_of, rounds_of, due_of, served_of};
ghost use Rattle.turn.specs.Turns.{open_stream_of, engine_of, store_engine, turned_of, turn_out, opened_of, turn_of, UpdateNeeds, WorkNeeds, TurnNeeds};
ghost use Rattle.turn.specs.Failures.{attached_of, channel_of, error_of};

use codec::Codec;
use host::Host;
use queue::Queue;
use stream::{Cyclic, Stream};
use transfer::Transferred;

// What a turn reads of the registers, the codec and the host end.
#[derive(Clone, Copy, PartialEq, Eq, Debug)]
pub struct Setup {
    pub cyclic: Cyclic,
    pub connected: bool,
    pub left: u8,
    pub right: u8,
    pub downstream: u32,
    // Bytes that the queue may hold.
    pub limit: u32,
    // The position buffer's register: bit 0 turns its writes on.
    pub dplbase: u64,
    pub index: usize,
}

// A stream's DMA engine: whether it runs, its status and position registers, its stream and the host's queue.
#[derive(Clone, Copy, PartialEq, Eq, Debug)]
pub struct Engine {
    pub stream: Stream,
    pub queue: Queue,
    pub position: u32,
    pub status: u8,
    pub running: bool,
}

// A stream and the host end that serves it.
#[derive(Clone, Copy, PartialEq, Eq, Debug)]
pub struct Attached {
    pub stream: Stream,
    pub host: Host,
}

// What a turn answers: whether its opening was refused, the stream and the host end. No Result: a refused opening leaves both too.
#[derive(Clone, Copy, PartialEq, Eq, Debug)]
pub struct Turned {
    pub stream: Stream,
    pub host: Host,
    pub refused: bool,
}

// The amplifier byte of a side of the converter that serves a direction.
fn amplifier_byte(codec: Codec, input: bool, side: usize) -> u8
    requires { side < 2 }
    ensures { result ≡ amplifier_byte_of codec input side }
{
    if input {
        codec.nodes[4].bytes[side]
    } else {
        codec.nodes[2].bytes[2 + side]
    }
}

// What the registers say of a stream's cyclic buffer.
fn cyclic(regs: &[u8], index: usize) -> Cyclic
    requires { (size ≤ length regs.now) × (index < streams) }
    ensures { result ≡ cyclic_of regs.now index }
{
    let base = registers::STREAM_BASE + registers::STREAM_SIZE * index;
    Cyclic {
        capture: stream::is_capture(index),
        bdl: word::get::<u64>(regs, base + registers::BDPL),
        lvi: u32::from(word::get::<u16>(regs, base + registers::LVI)),
        cbl: word::get::<u32>(regs, base + registers::CBL),
    }
}

// What the registers, the codec and the host end say of stream `index`.
#[tactic(auto, unfolding(crate::specs::Setups::setup_of))]
fn setup_of(regs: &[u8], codec: Codec, index: usize, downstream: u32, limit: u32) -> Setup
    requires { (size ≤ length regs.now) × (index < streams) }
    ensures { result ≡ setup_of regs.now codec index downstream limit }
{
    let base = registers::STREAM_BASE + registers::STREAM_SIZE * index;
    let capture = stream::is_capture(index);
    let tag = regs[base + registers::TAG] / 16;
    let format = word::get::<u16>(regs, base + registers::FMT);
    Setup {
        cyclic: cyclic(regs, index),
        connected: codec.connected(capture, tag, format),
        left: amplifier_byte(codec, capture, 0),
        right: amplifier_byte(codec, capture, 1),
        downstream,
        limit,
        dplbase: word::get::<u64>(regs, registers::DPLBASE),
        index,
    }
}

// The position register: consumed modulo the cyclic length.
fn position_of(consumed: u64, cbl: u32) -> u32
    ensures { result ≡ position_of consumed cbl }
{
    if cbl == 0 {
        0
    } else {
        (consumed % u64::from(cbl)) as u32
    }
}

// The status after a position update: completions that retired set status 4.
fn status_of(status: u8, completed: bool) -> u8
    ensures { result ≡ status_of status completed }
{
    if completed { status | 4 } else { status }
}

// Writes a position into a stream's place of the position buffer, and says whether it did. An address past 64 bits is outside any memory.
fn write_position(memory: &mut [u8], dplbase: u64, index: usize, position: u32) -> bool
    requires { index < streams }
    ensures { access_of result memory.new ≡ write_of memory.old (position_at dplbase index) (bytes_of 8 position) }
{
    let base = dplbase / 128 * 128;
    let Some(address) = base.checked_add(8 * index as u64) else {
        return false;
    };
    memory::write(memory, address, &u64::from(position).to_le_bytes())
}

impl Engine {
    // A failure: descriptor error, RUN cleared, only the time remainder kept, the host stream closed.
    #[tactic(auto, unfolding(crate::specs::Engines::stopped_of))]
    fn stopped(self) -> Engine
        ensures { result ≡ stopped_of self }
    {
        Engine {
            running: false,
            status: self.status | 0x10,
            stream: Stream {
                fraction: clock::remainder(self.stream.fraction),
                ..self.stream
            },
            queue: Queue::CLOSED,
            ..self
        }
    }

    // The position into the position buffer, where that is on; a write that fails stops the stream.
    #[tactic(auto, unfolding(crate::specs::Engines::publish_of))]
    fn publish(self, g: Setup, memory: &mut [u8]) -> Engine
        requires { g.index < streams }
        ensures { published_of result memory.new ≡ publish_of g self memory.old }
    {
        if g.dplbase % 2 == 0 {
            return self;
        }
        if write_position(memory, g.dplbase, g.index, self.position) {
            return self;
        }
        self.stopped()
    }

    // The engine with a stream whose consumed has moved, and the registers that follow it.
    fn moved_on(self, g: Setup, s: Stream, completed: bool) -> Engine
        ensures { result ≡ moved_on g self s completed }
    {
        Engine {
            status: status_of(self.status, completed),
            position: position_of(s.consumed, g.cyclic.cbl),
            stream: s,
            ..self
        }
    }

    // The position update: consumed and the completions up to it, status, position register, position buffer.
    #[tactic(auto, unfolding(crate::specs::Engines::updated_of))]
    fn updated(self, g: Setup, list: &mut [u8], memory: &mut [u8]) -> Engine
        requires { UpdateNeeds g self.stream list.old }
        ensures { update_out result list.new memory.new ≡ updated_of g self list.old memory.old }
    {
        let latency = self.queue.latency(g.cyclic.capture, g.downstream);
        let u = self.stream.update(list, latency);
        let e = self.moved_on(g, u.stream, u.completed);
        e.publish(g, memory)
    }

    // Frames of the next transfer: those due, at most a period, and for a playback no more than the queue may still take.
    #[tactic(auto, unfolding(crate::specs::Engines::frames_of))]
    fn frames(self, g: Setup) -> u32
        ensures { result ≡ frames_of g self }
    {
        let due = clock::whole_frames(self.stream.fraction).min(256) as u32;
        if g.cyclic.capture {
            return due;
        }
        due.min(g.limit.saturating_sub(self.queue.length) / 4)
    }

    // After a transfer of n frames that succeeded: FIFO ready in the status, and its frames no longer due.
    fn transferred(self, s: Stream, q: Queue, n: u32) -> Engine
        requires { n * billion ≤ s.fraction }
        ensures { result ≡ transferred_of self s q n }
    {
        Engine {
            status: self.status | 0x20,
            stream: Stream {
                fraction: s.fraction - u64::from(n) * clock::BILLION,
                ..s
            },
            queue: q,
            ..self
        }
    }

    // After a transfer that failed.
    fn failed(self, s: Stream, q: Queue) -> Engine
        ensures { result ≡ failed_of self s q }
    {
        let e = Engine {
            stream: s,
            queue: q,
            ..self
        };
        e.stopped()
    }

    // After a transfer of n frames: the position update, or the stop.
    #[tactic(auto, unfolding(crate::specs::Engines::settled_of))]
    fn settled(self, g: Setup, t: Transferred, n: u32, list: &mut [u8], memory: &mut [u8]) -> Engine
        requires { UpdateNeeds g t.stream list.old × (n * billion ≤ t.stream.fraction) }
        ensures { update_out result list.new memory.new ≡ settled_of g self (told t) n list.old memory.old }
    {
        if t.stop.is_some() {
            return self.failed(t.stream, t.queue);
        }
        let e = self.transferred(t.stream, t.queue, n);
        e.updated(g, list, memory)
    }

    // One transfer of the frames that are due and fit, and what follows it.
    #[tactic(auto, unfolding(crate::specs::Engines::round_of))]
    fn round(self, g: Setup, list: &mut [u8], part: &mut [u8], memory: &mut [u8]) -> Engine
        requires { WorkNeeds g self list.old part.old }
        ensures { work_of result list.new part.new memory.new ≡ round_of g (work_of self list.old part.old memory.old) }
    {
        let n = self.frames(g);
        let t = transfer::transfer(
            g.cyclic,
            self.stream,
            self.queue,
            g.connected,
            g.left,
            g.right,
            list,
            part,
            memory,
            4 * n,
        );
        self.settled(g, t, n, list, memory)
    }

    // Transfers until none are due or the queue takes no more: no count of them is known before.
    fn rounds(self, g: Setup, list: &mut [u8], part: &mut [u8], memory: &mut [u8]) -> Engine
        requires { WorkNeeds g self list.old part.old }
        ensures { work_of result list.new part.new memory.new ≡ rounds_of (due_of self) g (work_of self list.old part.old memory.old) }
    {
        let mut e = self;
        while e.frames(g) != 0 {
            e = e.round(g, list, part, memory);
        }
        e
    }

    // An open stream's turn: the position update first; where its write failed, nothing more is moved or added.
    #[tactic(auto, unfolding(crate::specs::Engines::served_of))]
    fn served(
        self,
        g: Setup,
        rate: u32,
        nanos: u64,
        list: &mut [u8],
        part: &mut [u8],
        memory: &mut [u8],
    ) -> Engine
        requires { WorkNeeds g self list.old part.old }
        ensures { work_of result list.new part.new memory.new ≡ served_of g rate nanos (work_of self list.old part.old memory.old) }
    {
        let mut e = self.updated(g, list, memory);
        if !e.running {
            return e;
        }
        e.stream.fraction = clock::accrue(e.stream.fraction, nanos, rate);
        e.rounds(g, list, part, memory)
    }

    // The engine of a stream that runs, as the registers and the host end have it.
    fn load(regs: &[u8], host: Host, index: usize, s: Stream) -> Engine
        requires { (size ≤ length regs.now) × (index < streams) }
        ensures { result ≡ engine_of regs.now host index s }
    {
        let base = registers::STREAM_BASE + registers::STREAM_SIZE * index;
        Engine {
            running: true,
            status: regs[base + registers::STS],
            position: word::get::<u32>(regs, base + registers::LPIB),
            stream: s,
            queue: host.queues[index],
        }
    }

    // Status and position into the registers, and RUN cleared where the engine stopped.
    #[tactic(auto, unfolding(crate::specs::Turns::store_engine))]
    fn store(self, regs: &mut [u8], index: usize)
        requires { (size ≤ length regs.old) × (index < streams) }
        ensures { regs.new ≡ store_engine index self regs.old }
    {
        let base = registers::STREAM_BASE + registers::STREAM_SIZE * index;
        regs[base + registers::STS] = self.status;
        word::put::<u32>(regs, base + registers::LPIB, self.position);
        if !self.running {
            regs[base] &= 0xfd;
        }
    }

    // The end of a turn: the engine back into the registers and its queue back into the host end.
    fn finish(self, regs: &mut [u8], mut host: Host, index: usize, refused: bool) -> Turned
        requires { (size ≤ length regs.old) × (index < streams) }
        ensures value { result ≡ turned_of refused host index self }
        ensures regs_after { regs.new ≡ store_engine index self regs.old }
    {
        self.store(regs, index);
        host.queues[index] = self.queue;
        Turned {
            stream: self.stream,
            host,
            refused,
        }
    }
}

// An input stream opens only on a device with a microphone; without one it stays closed, and that is no refusal.
#[tactic(auto, unfolding(crate::specs::Turns::open_stream_of))]
pub fn open_stream(host: &mut Host, microphone: bool, index: usize) -> bool
    requires { index < streams }
    ensures { opening_of result host.new ≡ open_stream_of host.old microphone index }
{
    if stream::is_capture(index) && !microphone {
        return true;
    }
    host.open(index)
}

// The turn of a stream at a supported rate, where `opening` says whether it opened: a refusal stops it, else it is served.
fn opened(
    regs: &mut [u8],
    codec: Codec,
    host: Host,
    opening: bool,
    index: usize,
    rate: u32,
    nanos: u64,
    limit: u32,
    s: Stream,
    list: &mut [u8],
    part: &mut [u8],
    memory: &mut [u8],
) -> Turned
    requires { (size ≤ length regs.old) × TurnNeeds host index limit s list.old part.old }
    ensures { turn_out result regs.new list.new part.new memory.new ≡ opened_of regs.old codec index rate nanos limit s list.old part.old memory.old (opening_of opening host) }
{
    let e = Engine::load(regs, host, index, s);
    if !opening {
        let stopped = e.stopped();
        return stopped.finish(regs, host, index, true);
    }
    let g = setup_of(regs, codec, index, host.downstream, limit);
    let next = e.served(g, rate, nanos, list, part, memory);
    next.finish(regs, host, index, false)
}

// The turn of stream `index`; `limit` is what its queue may hold, 2,048 bytes for a lone device.
#[tactic(auto, unfolding(crate::specs::Turns::turn_of))]
pub fn turn(
    regs: &mut [u8],
    codec: Codec,
    mut host: Host,
    microphone: bool,
    index: usize,
    nanos: u64,
    limit: u32,
    s: Stream,
    list: &mut [u8],
    part: &mut [u8],
    memory: &mut [u8],
) -> Turned
    requires { (size ≤ length regs.old) × TurnNeeds host index limit s list.old part.old }
    ensures { turn_out result regs.new list.new part.new memory.new ≡ turn_of regs.old codec host microphone index nanos limit s list.old part.old memory.old }
{
    let base = registers::STREAM_BASE + registers::STREAM_SIZE * index;
    let Some(rate) = format::decode(word::get::<u16>(regs, base + registers::FMT)) else {
        let e = Engine::load(regs, host, index, s);
        let stopped = e.stopped();
        return stopped.finish(regs, host, index, false);
    };
    let opening = open_stream(&mut host, microphone, index);
    opened(
        regs, codec, host, opening, index, rate, nanos, limit, s, list, part, memory,
    )
}

// A stream's failure outside a turn, the same as in one.
#[tactic(auto, unfolding(crate::specs::Failures::error_of))]
pub fn stream_error(regs: &mut [u8], s: Stream, host: Host, index: usize) -> Attached
    requires { (size ≤ length regs.old) × (index < streams) }
    ensures { channel_of regs.new result ≡ error_of index (channel_of regs.old (attached_of s host)) }
{
    let e = Engine::load(regs, host, index, s);
    let stopped = e.stopped();
    let t = stopped.finish(regs, host, index, false);
    Attached {
        stream: t.stream,
        host: t.host,
    }
}
