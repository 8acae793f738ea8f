// What the submitted counts after `advance` depend on: of elapsed time the frames that each stream can move in it, of guest memory the descriptor lists and the command ring, of the lists what is pending. A timer
// with jitter (crate jitter) runs one `advance` for all times that no count tells apart, on scratch that holds no more than that. specs/Counts.antt has what two machines have in common; proofs/ the
// theorem, `advance-alike`; there is no code.
#![tactic(auto)]
