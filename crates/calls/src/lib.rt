// Every call on a machine as one type, the machine after it, and what every call keeps: a valid machine stays valid. specs/Calls.antt has the calls, built from the
// definitions that their contracts cite; proofs/ has the theorems; there is no code.
#![tactic(auto)]
