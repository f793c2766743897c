// Words of 64 bits: masks, and arithmetic modulo a power of two.
// Each function is total, or asks for a width of at most 64.
#![tactic(auto)]

pub mod arith;
pub mod mask;
