// The form of a stream of calls and of its answers (docs/REPLAY.md): records read, fields of a body, lines made; and the records that set or show the buffer.
#![tactic(auto)]

pub mod buffer;
pub mod fields;
pub mod input;
pub mod line;
pub mod tag;
pub mod told;
