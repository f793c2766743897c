// The netlist file: what a record is, where it stands in the file, and the numbers of the refusals.
// Nothing is asked of a caller but that what is read lies within the file. When a file is accepted is said in the crate `rules`.
#![tactic(auto)]

pub mod layout;
pub mod record;
pub mod refusal;
