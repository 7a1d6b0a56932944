// The walk over a message's series, by the reader.
ghost use Rattle.std.specs.Prelude.{◌≡◌};
ghost use Rattle.paper.specs.Check.{check_from};
ghost use Rattle.stream.specs.Told.{numbers_of};
ghost use Rattle.replay_answers.specs.Answers.{walk_numbers};

use block::check::check_step;
use reader::{readable, series_at};
use stream::told::Told;

fn sum_on(sum: u32, series: &[u8]) -> u32
    ensures { result ≡ check_from sum series.now }
{
    let mut s = sum;
    for x in series {
        s = check_step(s, *x);
    }
    s
}

// How many series there are up to the first empty part, and the sum over their bytes. No message has more than 200 series, and rule 2 is judged once for
// all of them.
pub fn walk_told(message: &[u8]) -> Told
    ensures { numbers_of result ≡ walk_numbers message.now }
{
    let read = readable(message);
    let mut sum = 0u32;
    for count in 0..200 {
        let series = series_at(read, count + 1);
        if series.is_empty() {
            return Told::of([count, sum as usize]);
        }
        sum = sum_on(sum, series);
    }
    Told::of([200, sum as usize])
}
