// Blocks of 512 bytes (document 01, "Blocks"): the numbers in their bytes, and the check that their last four bytes hold.
#![tactic(auto)]

pub mod check;
pub mod numbers;
