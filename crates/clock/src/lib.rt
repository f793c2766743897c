// Clocking: the values of a cycle, the states that follow it, and the reset states. This crate has definitions and theorems, and no code.
// Nothing is asked of a caller.
#![tactic(auto)]
