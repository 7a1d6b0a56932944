// What a sound book asks of one block: the ranges of its fields, the day block, a sender block, a series block, a rights block.
#![tactic(auto)]

pub mod areas;
pub mod capacity;
pub mod day;
pub mod entries;
pub mod ranges;
pub mod right;
pub mod sender;
pub mod series;
