// Text put together in a lent buffer, or in fixed memory of its own, so that a program writes it in large pieces: a caller shows that there is room for
// what is put.

#![tactic(auto)]

ghost use Rattle.std.specs.Prelude.{◌≡◌, ◌+◌, ◌≤◌, [], ◌++◌, length};
ghost use Rattle.text.specs.Text.{FewestPlaces, decimal, field, Room, Puts};

use std::marker::Model;

// Puts s at a place of the buffer, and answers the place after it.
pub fn put(buffer: &mut [u8], at: usize, s: &[u8]) -> usize
    requires { Room buffer.old at s.now }
    ensures { Puts s.now buffer.old at buffer.new result }
{
    let end = at + s.len();
    buffer[at..end].copy_from_slice(s);
    end
}

// Puts a number in decimal.
pub fn put_number(buffer: &mut [u8], at: usize, n: u64) -> usize
    requires { Room buffer.old at (decimal n) }
    ensures { Puts (decimal n) buffer.old at buffer.new result }
{
    let mut digits = [0u8; 20];
    let k = io::decimal(n, &mut digits);
    put(buffer, at, &digits[..k])
}

// Puts a space and a number.
pub fn put_field(buffer: &mut [u8], at: usize, n: u64) -> usize
    requires { Room buffer.old at (field n) }
    ensures { Puts (field n) buffer.old at buffer.new result }
{
    let after = put(buffer, at, b" ");
    put_number(buffer, after, n)
}

// Writes the first `at` bytes of the buffer to standard output.
pub fn flush(buffer: &[u8], at: usize)
    requires { at ≤ length buffer.now }
{
    io::write_all(1, &buffer[..at]);
}

// A text of at most N bytes; zeros stand after it.
#[derive(Clone, Copy)]
pub struct Text<const N: usize> {
    bytes: [u8; N],
    len: usize,
}

// Contracts see a text as the list of its bytes.
impl<const N: usize> Model for Text<N> {
    ghost use Rattle.std.specs.Prelude.{◌≡◌, ℕ, ◌-◌, ◌≤◌, List, ◌++◌, length, take, drop, replicate};
    ghost use Rattle.std.proofs.Common.{arith, sym, ap, ◌∙◌, length-take-le, take-append-drop};

    ghost Value = { List ℕ };

    ghost view = { λ t. take t.len t.bytes };

    ghost invariant = { λ t. (t.len ≤ N) × (length t.bytes ≡ N) × (drop t.len t.bytes ≡ replicate (N - t.len) 0) };

    ghost inverse = { λ s. record { bytes = s ++ replicate (N - length s) 0; len = length s } };

    ghost inverse_ok = { λ t h i.
        let held = take t.len t.bytes in
        let long = length-take-le t.len t.bytes (omega (arith, h.0, h.1)) in
        record {
          bytes = (ap (λ n. held ++ replicate (N - n) 0) long ∙ ap (λ z. held ++ z) (sym h.2) ∙ take-append-drop t.len t.bytes) i;
          len = long i;
        } };
}

impl<const N: usize> Text<N> {
    // No text.
    pub fn new() -> Self
        ensures { result ≡ [] }
    {
        Text {
            bytes: [0; N],
            len: 0,
        }
    }

    // Puts s at its end.
    pub fn put(&mut self, s: &[u8])
        requires { length self.old + length s.now ≤ N }
        ensures { self.new ≡ self.old ++ s.now }
    {
        self.len = put(&mut self.bytes, self.len, s);
    }

    // Puts a number in decimal.
    pub fn put_number(&mut self, n: u64)
        requires { length self.old + length (decimal n) ≤ N }
        ensures { self.new ≡ self.old ++ decimal n }
    {
        self.len = put_number(&mut self.bytes, self.len, n);
    }

    // Puts a space and a number.
    pub fn put_field(&mut self, n: u64)
        requires { length self.old + length (field n) ≤ N }
        ensures { self.new ≡ self.old ++ field n }
    {
        self.len = put_field(&mut self.bytes, self.len, n);
    }

    // Its bytes.
    pub fn as_bytes(&self) -> &[u8]
        ensures { result.now ≡ self.now }
    {
        &self.bytes[..self.len]
    }

    // Writes it to standard output.
    pub fn flush(&self) {
        flush(&self.bytes, self.len);
    }
}

// A number's text has the fewest digits that hold it.
pub fn fewest()
    ensures { FewestPlaces }
{}
