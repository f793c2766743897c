// Compacting: a file with the records that still count, and no others. This crate has definitions and theorems, and no code.
// Nothing is asked of a caller.
#![tactic(auto)]
