// The check on site: the lines that it says, and its cases that need no book.
#![tactic(auto)]

pub mod leaves;
pub mod line;
