// What the page shows of a window, and its bytes by the parts of a relay record.

ghost use Rattle.std.specs.Prelude.{◌≡◌, get_or};
ghost use Rattle.page.specs.Page.{page, shown as shown_of};
ghost use Rattle.page.specs.PageInput.{Held};

use crate::Events;
use measuring::Readings;
use setting::Setting;
use state::{Trip, Window};

// Masks and currents of the last accepted set, zero unless the window is full.
fn shown(v: Setting, w: Window) -> Readings
    requires { Held v w }
    ensures { result ≡ shown_of v w }
{
    if w.fill < 12 {
        return crate::nothing();
    }
    measuring::measure(v, &w.values)
}

// The byte at an offset; nothing is measured where the byte does not show it.
pub fn byte_at(v: Setting, w: Window, t: Trip, e: Events, offset: usize) -> u8
    requires { Held v w }
    ensures { result ≡ get_or (page t (shown_of v w) e) offset 0 }
{
    if crate::shows_measured(offset) {
        return crate::byte(t, shown(v, w), e, offset);
    }
    crate::byte(t, crate::nothing(), e, offset)
}
