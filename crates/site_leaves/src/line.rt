// A line for each case. What is promised is the answer on which the desk's fitness is decided; no contract can speak of what is written.
ghost use Rattle.std.specs.Prelude.{◌≡◌, cond};
ghost use Rattle.laws.specs.Tests.{◌and◌, is};
ghost use Rattle.laws.specs.Lists.{same, every};
ghost use Rattle.paper.specs.Listing.{text};
ghost use Rattle.desk_text.specs.Put.{Put};

use desk_text::put::put;

// What cannot be written is not said, and the case is judged all the same.
pub fn say(rt: &impl Print, text: &[u8]) {
    let _ = rt.write_all(text);
}

// In decimal.
fn say_number(rt: &impl Print, x: u32) {
    let _ = rt.print(x);
}

fn verdict(rt: &impl Print, right: bool) -> bool
    ensures { result ≡ right }
{
    if right {
        say(rt, b": right\n");
    } else {
        say(rt, b": WRONG\n");
    }
    right
}

// Cases are joined so: all of them must have come as expected.
pub fn both(a: bool, b: bool) -> bool
    ensures { result ≡ (a and b) }
{
    a & b
}

// The same of more than two.
pub fn all(cases: &[bool]) -> bool
    ensures { result ≡ every (λ right. right) cases.now }
{
    cases.iter().all(|right| *right)
}

// The last line, on which the desk is put into service.
pub fn put_fitness(line: &mut [u8], right: bool) -> usize
    ensures { Put 0 (cond right (text "every case came as expected: this desk may be put into service\n") (text "a case came otherwise than expected: this desk may not be put into service\n")) result line.old line.new }
{
    if right {
        return put(
            line,
            0,
            b"every case came as expected: this desk may be put into service\n",
        );
    }
    put(
        line,
        0,
        b"a case came otherwise than expected: this desk may not be put into service\n",
    )
}

// A case whose answer is a number.
pub fn number(rt: &impl Print, what: &[u8], expected: u32, came: u32) -> bool
    ensures { result ≡ is expected came }
{
    say(rt, what);
    say(rt, b": expected ");
    say_number(rt, expected);
    say(rt, b", came ");
    say_number(rt, came);
    verdict(rt, expected == came)
}

// A case whose answer is a text of one line.
pub fn text(rt: &impl Print, what: &[u8], expected: &[u8], came: &[u8]) -> bool
    ensures { result ≡ same expected.now came.now }
{
    say(rt, what);
    say(rt, b": expected ");
    say(rt, expected);
    say(rt, b", came ");
    say(rt, came);
    verdict(rt, field::same(expected, came))
}

// Two texts of several lines, one under the other.
fn show(rt: &impl Print, expected: &[u8], came: &[u8]) {
    say(rt, b": expected\n");
    say(rt, expected);
    say(rt, b"came\n");
    say(rt, came);
}

// A case whose answer is a text of several lines, which is shown where it is wrong.
pub fn page(rt: &impl Print, what: &[u8], expected: &[u8], came: &[u8]) -> bool
    ensures { result ≡ same expected.now came.now }
{
    let right = field::same(expected, came);
    say(rt, what);
    if !right {
        show(rt, expected, came);
    }
    verdict(rt, right)
}
