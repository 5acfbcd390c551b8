// The register page, read and written a byte at a time. Both take the record by value and hand it back beside the answer.

ghost use Rattle.std.specs.Prelude.{◌≡◌, ◌||◌, eqb};
ghost use Rattle.refusal.specs.Refusals.{outcome_of};
ghost use Rattle.relay.specs.Page.{read_reply, resets as resets_of, written as written_of, Reads, Writes};

use crate::{Relay, Returned, accepting, calls};
use refusal::Refusal;

// 1 written to byte 7.
fn resets(offset: usize, byte: u8) -> bool
    ensures { result ≡ resets_of offset byte }
{
    offset == 7 && byte == 1
}

// What a write leaves.
#[tactic(auto, unfolding(crate::specs::Page::written))]
fn written(r: Relay, offset: usize, byte: u8) -> Relay
    ensures { result ≡ written_of r offset byte }
{
    if resets(offset, byte) {
        return calls::cleared(r);
    }
    Relay {
        events: page::written(offset, byte, r.events),
        ..r
    }
}

// Whether the byte at an offset is written: 3, 4 and 7.
fn writable(offset: usize) -> bool
    ensures { result ≡ (eqb offset 3 || (eqb offset 4 || eqb offset 7)) }
{
    matches!(offset, 3 | 4 | 7)
}

// The byte of the register page at an offset: 15, 12.
#[tactic(auto, unfolding(crate::specs::Page::read_rows))]
fn byte_at(r: Relay, offset: usize) -> Result<u8, Refusal>
    ensures { outcome_of result ≡ read_reply r offset }
{
    if 64 <= offset {
        return Err(Refusal::Offset);
    }
    if !accepting::admissible(r) {
        return Err(Refusal::Record);
    }
    Ok(page::showing::byte_at(r.setting, r.window, r.trip, r.events, offset))
}

impl Relay {
    // The byte of the register page at an offset, or the refusal, with the record as before.
    pub fn read(self, offset: usize) -> Returned<u8>
        ensures { Reads self offset result }
    {
        Returned {
            answer: byte_at(self, offset),
            relay: self,
        }
    }

    // A byte written to the register page: 15, 16, 12. Bytes 3, 4 and 7 are written.
    #[tactic(auto, unfolding(crate::specs::Page::write_rows))]
    pub fn write(self, offset: usize, byte: u8) -> Returned<()>
        ensures { Writes self offset byte result }
    {
        if 64 <= offset {
            return calls::declined(self, Refusal::Offset);
        }
        if !writable(offset) {
            return calls::declined(self, Refusal::Fixed);
        }
        if !accepting::admissible(self) {
            return calls::declined(self, Refusal::Record);
        }
        Returned {
            answer: Ok(()),
            relay: written(self, offset, byte),
        }
    }
}
