// Document 01's worked examples, "Worked by hand": the marked lines, as one theorem over the definitions that the contracts of gain, clock
// and codec cite. specs/Marked.antt is the table, proofs/Worked.antt proves it; there is no code.
#![tactic(auto)]
