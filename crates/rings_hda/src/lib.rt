// Where the rings do what HDA 1.0a says, and where it leaves open what comes next: HDA's rings, the named exceptions, and the theorems over both. There is no code.
#![tactic(auto)]
