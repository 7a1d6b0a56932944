// The clock of a day book, and the day's state that it hands back ("Other calls").
#![tactic(auto)]

ghost use Rattle.std.specs.Prelude.{◌≡◌};
ghost use Rattle.paper.specs.Clock.{day_state, advanced, clock_answer, clock_moved};

use field::part_of;
use layout::write::write_clock;
use layout::{lead, n_of};
use paper::{ClockAnswer, DayState, Minute};
use sound::sound;
use sound_blocks::ranges::clock_allowed;

// n, lead and clock as the day block keeps them.
fn day_state(d: &[u8]) -> DayState
    ensures { result ≡ day_state d.now }
{
    DayState {
        n: n_of(d),
        lead: lead(d),
        clock: layout::clock(d),
    }
}

// ClockAnswer is the C interface's, and a refusal its number: 22 if the minute is lower than the kept one or out of range; an equal one is accepted.
pub fn advanced(day: DayState, minute: Minute) -> ClockAnswer
    ensures { result ≡ advanced day minute.0 }
{
    if (minute.0 < day.clock.0) | !clock_allowed(minute) {
        return ClockAnswer {
            number: 22,
            state: day,
        };
    }
    ClockAnswer {
        number: 0,
        state: DayState {
            clock: minute,
            ..day
        },
    }
}

// On 1 there is no state to hand back.
pub fn clock(book: &mut [u8], minute: Minute) -> ClockAnswer
    ensures { (result ≡ clock_answer book.old minute.0) × (book.new ≡ clock_moved book.old minute.0) }
{
    if !sound(book) {
        return ClockAnswer {
            number: 1,
            state: DayState {
                n: 0,
                lead: 0,
                clock: Minute(0),
            },
        };
    }
    let answer = advanced(day_state(part_of(book, 0, 512)), minute);
    if answer.number != 0 {
        return answer;
    }
    write_clock(&mut book[..512], minute);
    answer
}
