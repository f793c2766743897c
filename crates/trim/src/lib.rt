// Trimming: a file whose keep words are cut by its masks. This crate has definitions and theorems, and no code.
// Nothing is asked of a caller.
#![tactic(auto)]
