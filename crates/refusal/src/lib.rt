// Why a call is refused, and the number that a reply gives for it (document 01, "Numbers returned").
#![tactic(auto)]

ghost use Rattle.std.specs.Prelude.{◌≡◌};
ghost use Rattle.refusal.specs.Refusals.{number_of, outcome_of};

// The reasons, each with its number and by the word that include/hda.h has for it. 0 is no refusal.
#[derive(Clone, Copy, PartialEq, Eq, Debug)]
pub enum Refusal {
    HostClosed = 1,
    ShortState = 2,
    WrongMark = 3,
    Microphone = 4,
    Format = 5,
    ListLength = 6,
    ListOrder = 7,
    Stream = 8,
    State = 9,
    LentSpace = 10,
    OddFrames = 11,
    Latency = 12,
    Wav = 13,
    ShortSpace = 14,
    Crowded = 20,
    Reversed = 21,
}

impl Refusal {
    // The number that a reply gives.
    pub fn number(self) -> u32
        ensures { result ≡ number_of self }
    {
        self as u32
    }
}

// The number of a call that has no other answer: 0 where it was carried out.
pub fn outcome_number(outcome: Result<(), Refusal>) -> u32
    ensures { result ≡ outcome_of outcome }
{
    match outcome {
        Ok(()) => 0,
        Err(refusal) => refusal.number(),
    }
}
