// What two whole runs have in common. This crate has no code of its own: it is theory about what the operations of the others do.
// Nothing is asked of a caller.
#![tactic(auto)]
