// The care masks: the smallest under the care rules, and their tally. This crate has definitions and theorems, and no code but the type
// that they are about. Nothing is asked of a caller.
#![tactic(auto)]

// The sum of all widths, and the count of ones over all masks.
#[derive(Clone, Copy)]
pub struct Tally {
    pub widths: u64,
    pub ones: u64,
}
