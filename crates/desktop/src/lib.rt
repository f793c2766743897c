// The functions for C that check a file or work out its masks; check, masks and trim are the desktop's, on byte buffers.
// A caller in C is checked by nothing: include/pcn.h says what it must pass.
#![tactic(auto)]

pub mod changing;
pub mod checking;
pub mod compacting;
pub mod masking;
pub mod trimming;
pub mod words;
