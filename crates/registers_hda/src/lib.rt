// HDA 1.0a's register table, and where the device's registers agree with it: the table, the named exceptions, and the theorems over both. There is no code.
#![tactic(auto)]
