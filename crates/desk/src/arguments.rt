// The arguments that the program is started with, as words: one behind the other, a zero byte after each.
// Buffers have a fixed length here, since the desk has no heap.
ghost use Rattle.std.specs.Prelude.{◌≤◌};

use desk_text::put::put;
use std::env::FillError;
use std::rt::Env;

// An argument that is longer than any path counts as an empty one.
fn take(rt: &impl Env, i: usize, words: &mut [u8], at: usize) -> usize {
    let mut room = [0u8; 4096];
    let n = rt.arg(i, &mut room).unwrap_or(0);
    let end = put(words, at, &room[..n]);
    put(words, end, b"\0")
}

// No command has more than eleven. What is missing is an empty word.
pub fn take_all(rt: &impl Env, words: &mut [u8]) {
    let mut at = 0;
    for i in 0..11 {
        at = take(rt, i, words, at);
    }
}

fn is_given(rt: &impl Env, i: usize) -> bool {
    let mut room = [0u8; 1];
    !matches!(rt.arg(i, &mut room), Err(FillError::NotPresent))
}

// How many arguments there are, the program's own name among them: twelve stands for more than eleven.
pub fn count(rt: &impl Env) -> usize
    ensures { result ≤ 12 }
{
    (0..12).position(|i| !is_given(rt, i)).unwrap_or(12)
}
