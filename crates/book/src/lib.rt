// Demand 3 (document 01, "The book of demand 3"): after any list of calls, each stream's counts and pending completions are the book's. specs/Events.antt says what
// happens to a stream in a call, specs/Book.antt what that does to the book, specs/Claim.antt is the claim, specs/Corollaries.antt what
// follows from it; proofs/ proves both.
#![tactic(auto)]

ghost use Rattle.book.specs.Claim.{Demand3};
ghost use Rattle.book.specs.Corollaries.{Corollaries};

// The claim, so that the gate proves it.
pub fn demand3()
    ensures { Demand3 }
{}

// What follows from it and from the definition of a turn.
pub fn corollaries()
    ensures { Corollaries }
{}
