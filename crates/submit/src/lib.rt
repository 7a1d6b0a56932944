// A submission: the call the desk exists for.
#![tactic(auto)]

ghost use Rattle.std.specs.Prelude.{◌≡◌};
ghost use Rattle.paper.specs.Acceptance.{submitted};
ghost use Rattle.paper.specs.Looks.{submit_answer};

use accept::accept;
use judge::judge_book;
use judge::order::fine;
use paper::SubmitAnswer;

// The message is judged whole before a byte of the book is written, so a refusal changes nothing. What the judgement has found is handed on to the
// acceptance, which seeks the counterparts alone and tells at how many slots it looked.
pub fn submit(book: &mut [u8], message: &[u8]) -> SubmitAnswer
    ensures { (result ≡ submit_answer book.old message.now) × (book.new ≡ submitted book.old message.now) }
{
    let mut places = [0u16; 1000];
    let mut numbers = [0u16; 1000];
    match judge_book(book, message, &mut places, &mut numbers) {
        Ok(judged) => {
            let looked = accept(book, message, judged.used, judged.slot, &places, &numbers);
            SubmitAnswer {
                verdict: fine(),
                looked,
            }
        }
        Err(verdict) => SubmitAnswer { verdict, looked: 0 },
    }
}
