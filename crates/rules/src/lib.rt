// When a netlist file is accepted. This crate has definitions and theorems, and no code.
// Nothing is asked of a caller.
#![tactic(auto)]
