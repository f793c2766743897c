// One record's meaning: its result, what it asks of its operands, and the laws that join the two. This crate has definitions and theorems,
// and no code but the type that they are about. Nothing is asked of a caller.
#![tactic(auto)]

// A mask that is asked of an operand.
#[derive(Clone, Copy)]
pub struct Ask {
    pub operand: usize,
    pub mask: u64,
}
