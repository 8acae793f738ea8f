// Where unsolicited responses and the immediate command do what HDA 1.0a says, and where not: HDA's rules, the named exceptions, and the theorems over both. There is no code.
#![tactic(auto)]
