// The examples of 01 as theorems. This crate has a table and a theorem over it, and no code.
// Nothing is asked of a caller.
#![tactic(auto)]
