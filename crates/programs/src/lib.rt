// What the programs of the tests share: numbers of eight bytes, and numbers, refusals and readings written to standard output one by one.

#![tactic(auto)]

ghost use Rattle.std.specs.Prelude.{◌+◌, ◌<◌, length};

use measuring::Reading;
use refusal::Refusal;
use std::fmt::{self, Display, Write};

// Standard output, to which text is written in pieces. A piece that fails holds back none of those after it.
#[derive(Drop)]
struct Output;

impl Write for Output {
    fn write_str(&mut self, s: &str) -> fmt::Result {
        io::write_all(1, s.as_bytes());
        Ok(())
    }
}

// The number of eight bytes from a place on, little-endian.
pub fn u64_at(bytes: &[u8], at: usize) -> u64
    requires { at + 7 < length bytes.now }
{
    u64::from_le_bytes(bytes[at..at + 8].try_into().unwrap())
}

// Writes a value.
pub fn print<T: Display + Drop>(x: T) {
    let _ = write!(Output, "{x}");
}

// Writes a space and a value.
pub fn print_field<T: Display + Drop>(x: T) {
    let _ = write!(Output, " {x}");
}

// Writes numbers, a space before each.
pub fn print_numbers(numbers: &[i32]) {
    for x in numbers {
        print_field(*x);
    }
}

// Writes a space and a test as 0 or 1.
pub fn print_flag(b: bool) {
    print(if b { " 1" } else { " 0" });
}

// Writes a line's end.
pub fn end_line() {
    print("\n");
}

// Writes the rest of a line: the number of a refusal, and with 5 the offset.
pub fn print_told(r: Refusal) {
    print_field(u8::from(r));
    if let Refusal::Field(offset) = r {
        print_field(offset);
    }
    end_line();
}

// Writes the line of a refused call.
pub fn print_refused(r: Refusal) {
    print("refused");
    print_told(r);
}

// Writes the rest of a line: 0, or what a refusal tells.
pub fn print_verdict(v: Result<(), Refusal>) {
    match v {
        Ok(()) => print(" 0\n"),
        Err(r) => print_told(r),
    }
}

// Writes the line of a call that answers with no value: a word of its own where it is done, or the refusal.
pub fn print_done(v: Result<(), Refusal>, word: &[u8]) {
    match v {
        Ok(()) => {
            io::write_all(1, word);
            end_line();
        }
        Err(r) => print_refused(r),
    }
}

// Writes what is measured of a system: D, R (twice the restraint), H2, H5, start and blocked.
pub fn print_reading(m: Reading) {
    print(format_args!(" {} {} {} {}", m.d, m.r, m.h2, m.h5));
    print_flag(m.start);
    print_flag(m.blocked);
}
