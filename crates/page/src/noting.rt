// The event flags after a measured set. What started before the set is worked out only where a system starts now and the flag is not raised yet.

ghost use Rattle.std.specs.Prelude.{◌≡◌, not, ◌&&◌, ◌||◌};
ghost use Rattle.matching.specs.Sets.{system};
ghost use Rattle.bits.specs.Bits.{bits_of};
ghost use Rattle.measuring.specs.Measuring.{start, readings_of};
ghost use Rattle.measuring.specs.WindowInput.{Measurable, SystemInput};
ghost use Rattle.state.specs.State.{latches_of};
ghost use Rattle.page.specs.Events.{new, new_flags, raised};
ghost use Rattle.page.specs.Page.{starts_of, shown};
ghost use Rattle.page.specs.PageInput.{Held, HeldWith, nothing_new};

use crate::Events;
use bits::Bits;
use measuring::Readings;
use setting::Setting;
use state::{Trip, Window};

// Whether system y starts now and did not in the window before.
fn starts_anew(v: Setting, win: &[i32], starts: bool, y: usize) -> bool
    requires { SystemInput v win.now y }
    ensures { result ≡ (starts && not (start v win.now (system y))) }
{
    starts && !measuring::started(v, win, y)
}

// Whether any system does.
fn one_starts_anew(v: Setting, win: &[i32], m: Readings) -> bool
    requires { Measurable v win.now }
    ensures { result ≡ new (starts_of (readings_of v win.now)) (starts_of m) }
{
    starts_anew(v, win, m.a.start, 0)
        || starts_anew(v, win, m.b.start, 1)
        || starts_anew(v, win, m.c.start, 2)
}

// Whether a system starts that did not at the last accepted set.
fn new_since(v: Setting, w: Window, m: Readings) -> bool
    requires { Held v w }
    ensures { result ≡ new (starts_of (shown v w)) (starts_of m) }
{
    if w.fill < 12 {
        return crate::starts(m).some();
    }
    one_starts_anew(v, &w.values, m)
}

// Whether the flag of a new start is to be raised. Where it is raised already nothing is looked at.
fn new_start(v: Setting, w: Window, e: Events, m: Readings) -> bool
    requires { Held v w }
    ensures { let flag = (bits_of e.flags).b0 in (flag || result) ≡ (flag || new (starts_of (shown v w)) (starts_of m)) }
{
    !Bits::from(e.flags).b0 && new_since(v, w, m)
}

// Whether a set raises no flag, without a look at what started before it: no system starts, and no latch is new.
fn nothing_new(m: Readings, before: Trip, after: Trip) -> bool
    ensures { result ≡ nothing_new m before after }
{
    !crate::starts(m).some() && !crate::is_new(state::latches(before), state::latches(after))
}

// The events after a set that measures m and leaves the latches after, from the setting, the window, the latches and the events before it.
fn events_now(v: Setting, w: Window, before: Trip, e: Events, m: Readings, after: Trip) -> Events
    requires { Held v w }
    ensures { result ≡ raised (new_flags (starts_of (shown v w)) (starts_of m) (latches_of before) (latches_of after)) e }
{
    let set = Bits {
        b0: new_start(v, w, e, m),
        b1: crate::is_new(state::latches(before), state::latches(after)),
        b2: false,
    };
    crate::raised(set, e)
}

// The same, with no look at the window where nothing is new.
pub fn events_after(
    v: Setting,
    w: Window,
    before: Trip,
    e: Events,
    m: Readings,
    after: Trip,
) -> Events
    requires { HeldWith v w e }
    ensures { result ≡ raised (new_flags (starts_of (shown v w)) (starts_of m) (latches_of before) (latches_of after)) e }
{
    if nothing_new(m, before, after) {
        return e;
    }
    events_now(v, w, before, e, m, after)
}
