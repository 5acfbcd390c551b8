// What a full window gives: the readings of the three systems, and the sums and trips of the four ends.

ghost use Rattle.overcurrent.specs.Watching.{WatchInput, Watches};

use crate::{Backup, Watched};
use setting::Setting;

// At curve 0 nothing but the readings is worked out, and sums and trips stay.
pub fn measured(v: Setting, win: &[i32], b: Backup) -> Watched
    requires { WatchInput v win.now b }
    ensures { Watches v win.now b result }
{
    let on = v.overcurrent.curve != 0;
    let m = measuring::measure_ends(v, win, on);
    if !on {
        return Watched {
            readings: m.readings,
            backup: b,
        };
    }
    Watched {
        readings: m.readings,
        backup: crate::backup_after(
            v.ends,
            v.overcurrent.curve,
            v.overcurrent.pickup,
            m.amplitudes,
            b,
        ),
    }
}
