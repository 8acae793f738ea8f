// Demand 3 on the bytes that a caller lends: after any list of C calls (crate port) the counts and pending completions that stand in the bytes are the book's. specs/Lists.antt has lists of
// these calls, each by the definition that its C function's contract cites (crate lent_calls), and the book on them; specs/Claim.antt is the claim, specs/Corollaries.antt what follows from it.
// proofs/ proves both from demand 3's own steps, since every call on a typed machine leaves a typed one (proofs/Typed.antt).
#![tactic(auto)]

ghost use Rattle.lent_book.specs.Claim.{Demand3Bytes};
ghost use Rattle.lent_book.specs.Corollaries.{CorollariesBytes};

// The claim, so that the gate proves it.
pub fn demand3_bytes()
    ensures { Demand3Bytes }
{}

// What follows from it.
pub fn corollaries_bytes()
    ensures { CorollariesBytes }
{}
