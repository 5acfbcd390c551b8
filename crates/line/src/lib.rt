// The lines that the bench program prints, added at the end of a text or put in a lent buffer: that of a set, of at most 67 bytes, and that of a refusal,
// of at most 12.

#![tactic(auto)]

ghost use Rattle.std.specs.Prelude.{◌+◌, ◌≤◌, length};
ghost use Rattle.refusal.specs.Refusals.{told_of};
ghost use Rattle.line.specs.Line.{currents, columns, line, line_of, refused, AddsFew, PutsFew};

use refusal::Refusal;
use relay::Answer;
use state::Trip;
use text::Text;

// Three D.
fn add_currents<const N: usize>(text: &mut Text<N>, d1: u32, d2: u32, d3: u32)
    requires { length text.old + 33 ≤ N }
    ensures { AddsFew 33 (currents d1 d2 d3) text.old text.new }
{
    text.put_field(u64::from(d1));
    text.put_field(u64::from(d2));
    text.put_field(u64::from(d3));
}

// F or M, and the three D; they are 0 while the window fills.
fn add_answer<const N: usize>(text: &mut Text<N>, answer: Answer)
    requires { length text.old + 35 ≤ N }
    ensures { AddsFew 35 (columns answer) text.old text.new }
{
    let Answer::Measured(m, _) = answer else {
        text.put(b" F");
        add_currents(text, 0, 0, 0);
        return;
    };
    text.put(b" M");
    add_currents(text, m.a.reading.d, m.b.reading.d, m.c.reading.d);
}

// A set's line: its number, F or M, the three D, and the sum for the systems latched.
pub fn add_line<const N: usize>(text: &mut Text<N>, number: u64, answer: Answer, trip: Trip)
    requires { length text.old + 67 ≤ N }
    ensures { AddsFew 67 (line number answer trip) text.old text.new }
{
    text.put_number(number);
    add_answer(text, answer);
    text.put_field(u64::from(state::latched(trip)));
    text.put(b"\n");
}

// `refused` and the number of a refusal.
pub fn add_refused<const N: usize>(text: &mut Text<N>, r: Refusal)
    requires { length text.old + 12 ≤ N }
    ensures { AddsFew 12 (refused (told_of r)) text.old text.new }
{
    let number = u8::from(r);
    text.put(b"refused");
    text.put_field(u64::from(number));
    text.put(b"\n");
}

// A set's line, put in a lent buffer; F where the set was refused.
pub fn put_line(
    buffer: &mut [u8],
    at: usize,
    number: u64,
    answer: Result<Answer, Refusal>,
    trip: Trip,
) -> usize
    requires { at + 67 ≤ length buffer.old }
    ensures { PutsFew 67 (line_of number answer trip) buffer.old at buffer.new result }
{
    let mut text = Text::<67>::new();
    let answer = answer.unwrap_or(Answer::Filling(0));
    add_line(&mut text, number, answer, trip);
    text::put(buffer, at, text.as_bytes())
}

// `refused` and the number of a refusal, put in a lent buffer.
pub fn put_refused(buffer: &mut [u8], at: usize, r: Refusal) -> usize
    requires { at + 12 ≤ length buffer.old }
    ensures { PutsFew 12 (refused (told_of r)) buffer.old at buffer.new result }
{
    let mut text = Text::<12>::new();
    add_refused(&mut text, r);
    text::put(buffer, at, text.as_bytes())
}
