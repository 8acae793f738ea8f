// Where the codec does what HDA 1.0a says, and where not: HDA's parameters and verbs, the named exceptions, and the theorems over both. There is no code.
#![tactic(auto)]
