// Rules 3 to 19 of a submission. A rule is the test that it is broken; d is the day block, h the message's first block, y a series of the
// message, x what the book holds of a series, r the right that a series names and `known` what the book holds of the sender, the empty block where it holds
// nothing. Which series have the same id or the same key, and on which right each is, is found once, before the rules are judged, and handed in by places.
#![tactic(auto)]

pub mod form;
pub mod head;
pub mod rights;
pub mod values;
pub mod whole;
