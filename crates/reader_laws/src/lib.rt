// No code: the read of all ranges as a call of the book, and demand 3 over lists of every call.
#![tactic(auto)]
