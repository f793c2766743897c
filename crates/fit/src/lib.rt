// The rules within a record, each as a test that answers what its definition says.
// A caller has records within the file and the number of a kind. `checker::check` tries these tests in the paper's order.
#![tactic(auto)]

pub mod operands;
pub mod widths;
pub mod words;
