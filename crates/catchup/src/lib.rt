// How soon a stall is over (request T-10): a host that pulls 256 frames or more before each `advance` by 0 ns empties the deferred whole frames of a running playback stream in at most 32 of these.
// specs/Callbacks.antt says what such a host does and what must hold, specs/Claim.antt is the claim, specs/Corollaries.antt the formula for any pull and that it is met; proofs/ proves both.
#![tactic(auto)]

ghost use Rattle.catchup.specs.Claim.{CatchUp};
ghost use Rattle.catchup.specs.Corollaries.{Corollaries};

// The claim, so that the gate proves it.
pub fn catch_up()
    ensures { CatchUp }
{}

// What follows from it, and from what a turn moves.
pub fn corollaries()
    ensures { Corollaries }
{}
