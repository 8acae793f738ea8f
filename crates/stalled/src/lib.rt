// A machine for which the bound of request T-10 is met: after 31 callbacks of 256 frames 256 of its 8,192 deferred frames are left. specs/Stalled.antt has the machine and the callbacks; proofs/ computes
// each of them. A crate of its own, since that takes longer than the claim's proof.
#![tactic(auto)]

ghost use Rattle.stalled.specs.Stalled.{Met};

// The claim, so that the gate proves it.
pub fn met()
    ensures { Met }
{}
