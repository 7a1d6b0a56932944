// The words of an opening behind its parameters: by which rule the book settles, and whether a file that is there is replaced.
ghost use Rattle.std.specs.Prelude.{◌≡◌, ◌<◌};
ghost use Rattle.desk_answers.specs.Answers.{names_rule, rule_named, replace_place, replaces, opening_words};

use desk_text::words::word;
use field::same;
use paper::{LESSER, Rule, SELLERS};

fn names_rule(word: &[u8]) -> bool
    ensures { result ≡ names_rule word.now }
{
    same(word, b"seller") | same(word, b"lesser")
}

// The lesser rule where no word names one.
pub fn rule_named(words: &[u8]) -> Rule
    ensures { result ≡ rule_named words.now }
{
    if same(word(words, 9), b"seller") {
        return SELLERS;
    }
    LESSER
}

fn replace_place(words: &[u8]) -> usize
    ensures { (result ≡ replace_place words.now) × (result < 11) }
{
    if names_rule(word(words, 9)) {
        return 10;
    }
    9
}

// A file that is there is replaced by a new book only on purpose, by the last word of the command.
pub fn replaces(words: &[u8]) -> bool
    ensures { result ≡ replaces words.now }
{
    let k = replace_place(words);
    same(word(words, k), b"replace")
}

// How many words an opening has, the program's name and the command among them.
pub fn opening_words(words: &[u8]) -> usize
    ensures { result ≡ opening_words words.now }
{
    let k = replace_place(words);
    if replaces(words) {
        return k + 1;
    }
    k
}
