// The text of the desk program: what it says in answer to each call, and how it reads its arguments. Whatever of a line would fall
// past the end of the buffer that it is put into is left out.
#![tactic(auto)]

pub mod arguments;
pub mod commands;
pub mod numbers;
pub mod pieces;
pub mod put;
pub mod replies;
pub mod words;
