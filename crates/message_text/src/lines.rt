// A text, line by line.
ghost use Rattle.message_text.specs.MessageText.{FirstLine};

use message_words::{line_at, next_line};

// The first line, and the text behind it. There is none of an empty text.
pub fn first_line(text: &[u8]) -> Option<(&[u8], &[u8])>
    ensures { FirstLine text.now result }
{
    if text.is_empty() {
        return None;
    }
    Some((line_at(text, 0), &text[next_line(text, 0)..]))
}
