// Every C function on a device or a host end (crate port) as one type of call, and the one definition of what each returns and leaves of all that a caller lends: the functions' contracts cite it, and demand 3 on
// bytes (crate lent_book) is about it. There is no code.
#![tactic(auto)]
