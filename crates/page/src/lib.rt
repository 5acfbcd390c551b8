// The register page of the bay controller: event flags, the interrupt mask, and the byte at each offset.

#![tactic(auto)]

pub mod noting;
pub mod showing;

ghost use Rattle.std.specs.Prelude.{◌≡◌, ◌≤◌, get_or};
ghost use Rattle.lists.specs.Tests.{hold};
ghost use Rattle.page.specs.Events.{within as within_of, new, raised as raised_by, lowered as lowered_by, masked as masked_by, written as written_at};
ghost use Rattle.page.specs.Events.{interrupt as interrupt_of};
ghost use Rattle.page.specs.Page.{starts_of, blocks_of, currents, nothing as nothing_shown, page, measured_at};

use bits::Bits;
use measuring::{Reading, Readings};
use state::Trip;

// Event flags (bit 0 new start, bit 1 new trip, bit 2 refused set), and the interrupt mask.
#[derive(Clone, Copy)]
pub struct Events {
    pub flags: u8,
    pub mask: u8,
}

// Neither is above 7.
pub fn within(e: Events) -> bool
    ensures { result ≡ hold (within_of e) }
{
    e.flags <= 7 && e.mask <= 7
}

// Whether a bit is set that was not before: so a start or a trip is new.
fn is_new(before: Bits, after: Bits) -> bool
    ensures { result ≡ new before after }
{
    (after - before).some()
}

// The events with some flags raised.
pub fn raised(new: Bits, e: Events) -> Events
    ensures { result ≡ raised_by new e }
{
    Events {
        flags: u8::from(Bits::from(e.flags) | new),
        ..e
    }
}

// With the flags cleared that are written as 1.
fn lowered(x: u8, e: Events) -> Events
    ensures { result ≡ lowered_by x e }
{
    Events {
        flags: u8::from(Bits::from(e.flags) - Bits::from(x)),
        ..e
    }
}

// With the low three bits written to the mask.
fn masked(x: u8, e: Events) -> Events
    ensures { result ≡ masked_by x e }
{
    Events { mask: x % 8, ..e }
}

// With a byte written at an offset of the page: 3 and 4 change them.
pub fn written(at: usize, x: u8, e: Events) -> Events
    ensures { result ≡ written_at at x e }
{
    match at {
        3 => lowered(x, e),
        4 => masked(x, e),
        _ => e,
    }
}

// 1 while a flag and its mask bit are both set.
fn interrupt(e: Events) -> u8
    ensures { result ≡ interrupt_of e }
{
    u8::from((Bits::from(e.flags) & Bits::from(e.mask)).some())
}

// The systems that start, and those that are blocked.
fn starts(m: Readings) -> Bits
    ensures { result ≡ starts_of m }
{
    Bits::from(m.map(|r| r.start))
}

fn blocks(m: Readings) -> Bits
    ensures { result ≡ blocks_of m }
{
    Bits::from(m.map(|r| r.blocked))
}

// D1, R1, D2, R2, D3, R3 in turn, with R twice the restraint.
fn current(m: Readings, k: usize) -> u32
    ensures { result ≡ get_or (currents m) k 0 }
{
    let currents = [m.a.d, m.a.r, m.b.d, m.b.r, m.c.d, m.c.r];
    currents.get(k).copied().unwrap_or(0)
}

// The byte at an offset from 6 on.
fn current_byte(t: Trip, m: Readings, e: Events, at: usize) -> u8
    requires { 6 ≤ at }
    ensures { result ≡ get_or (page t m e) at 0 }
{
    if at < 8 || 32 <= at {
        return 0;
    }
    let i = at - 8;
    let bytes = block::bytes_32(current(m, i / 4));
    bytes[i % 4]
}

// The byte at an offset, zero past the end.
fn byte(t: Trip, m: Readings, e: Events, at: usize) -> u8
    ensures { result ≡ get_or (page t m e) at 0 }
{
    match at {
        0 => u8::from(state::latches(t)),
        1 => u8::from(starts(m)),
        2 => u8::from(blocks(m)),
        3 => e.flags,
        4 => e.mask,
        5 => interrupt(e),
        _ => current_byte(t, m, e, at),
    }
}

// Whether the byte at an offset shows what is measured.
fn shows_measured(at: usize) -> bool
    ensures { result ≡ measured_at at }
{
    matches!(at, 1 | 2 | 8..=31)
}

// What is shown where the window is not full.
fn nothing() -> Readings
    ensures { result ≡ nothing_shown }
{
    Readings::same(Reading {
        d: 0,
        r: 0,
        h2: 0,
        h5: 0,
        start: false,
        blocked: false,
    })
}
