// Changing over to the compacted file in mid-run: the board list that it goes on with. This crate has definitions and theorems, and no code.
// Nothing is asked of a caller.
#![tactic(auto)]
