// A recorded call as bytes: 0 tag (1), 1 count of the bytes that it hands over (2), 3 room for bytes to come (4), 7 first number (8), 15 second
// number (8), 23 what it returned (8), 31 digest of what was then held (4); the bytes handed over follow. The tag is the kind, and 128 more where the
// amended Rust answered, the one with the differences, since the unchanged Rust had parted from it.
ghost use Rattle.std.specs.Prelude.{◌≡◌, ◌+◌, ◌≤◌, length};
ghost use Rattle.rehearse.specs.Recorded.{call_at};
ghost use Rattle.rehearse.specs.Kinds.{Numbered};

#[derive(Clone, Copy, PartialEq, Eq, Debug)]
pub struct Call {
    pub tag: u8,
    pub kind: u8,
    pub count: u16,
    pub room: u32,
    pub first: u64,
    pub second: u64,
    pub reply: u64,
    pub digest: u32,
}

// What a call does. A byte that is none of these is `Unknown`: that call does nothing.
#[derive(Clone, Copy, PartialEq, Eq, Debug)]
pub enum Kind {
    // A new device and a new host end.
    Fresh,
    // What reaches guest memory: noise, bytes at an address, a look at all of it.
    Noise,
    Poke,
    Look,
    // What changes the device.
    Advance,
    Write,
    BarWrite,
    ConfigWrite,
    PinPresence,
    Pause,
    Restore,
    RestoreEmptied,
    // What reads it.
    Read,
    BarRead,
    ConfigRead,
    Save,
    // What is the host end's.
    Feed,
    Pull,
    PlaybackFails,
    CaptureFails,
    Downstream,
    Unknown,
}

impl From<u8> for Kind {
    ghost from_gives = { λ byte kind. Numbered kind byte };

    fn from(byte: u8) -> Kind {
        match byte {
            0 => Kind::Fresh,
            1 => Kind::Noise,
            2 => Kind::Poke,
            3 => Kind::Look,
            10 => Kind::Advance,
            11 => Kind::Write,
            12 => Kind::BarWrite,
            13 => Kind::ConfigWrite,
            14 => Kind::PinPresence,
            15 => Kind::Pause,
            16 => Kind::Restore,
            17 => Kind::RestoreEmptied,
            20 => Kind::Read,
            21 => Kind::BarRead,
            22 => Kind::ConfigRead,
            23 => Kind::Save,
            30 => Kind::Feed,
            31 => Kind::Pull,
            32 => Kind::PlaybackFails,
            33 => Kind::CaptureFails,
            34 => Kind::Downstream,
            _ => Kind::Unknown,
        }
    }
}

// Bytes of a call without those that it hands over.
pub const HEAD: usize = 35;

pub fn load(all: &[u8], at: usize) -> Call
    requires { at + 35 ≤ length all.now }
    ensures { result ≡ call_at at all.now }
{
    let tag = all[at];
    Call {
        tag,
        kind: tag % 128,
        count: word::get::<u16>(all, at + 1),
        room: word::get::<u32>(all, at + 3),
        first: word::get::<u64>(all, at + 7),
        second: word::get::<u64>(all, at + 15),
        reply: word::get::<u64>(all, at + 23),
        digest: word::get::<u32>(all, at + 31),
    }
}
