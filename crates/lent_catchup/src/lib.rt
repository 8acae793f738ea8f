// How soon a stall is over (request T-10), on the bytes that a caller lends: the deferred whole frames that stand in a device's record are gone after at most 32 times hda_pull of 256 frames or more and
// hda_advance by 0 ns. specs/Callbacks.antt says what such a host calls and what must hold, specs/Claim.antt is the claim, specs/Corollaries.antt the formula for any pull and that it is met;
// proofs/ proves both from crate catchup, since a callback on bytes is the callback on the machine in them.
#![tactic(auto)]

ghost use Rattle.lent_catchup.specs.Claim.{CatchUpBytes};
ghost use Rattle.lent_catchup.specs.Corollaries.{CorollariesBytes};

// The claim, so that the gate proves it.
pub fn catch_up_bytes()
    ensures { CatchUpBytes }
{}

// What follows from it, and from what a turn moves.
pub fn corollaries_bytes()
    ensures { CorollariesBytes }
{}
