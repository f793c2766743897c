// The words of board and next lists: the values of a cycle, the states that follow it, the reset states, and words that are too wide.
// A caller has an accepted file and lists of n words. No kind is looked at here.
#![tactic(auto)]

pub mod load;
pub mod reset;
pub mod values;
pub mod words;
