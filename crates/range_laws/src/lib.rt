// No code: one range's read as a call of the book, so that the claim about lists of calls covers it.
#![tactic(auto)]
