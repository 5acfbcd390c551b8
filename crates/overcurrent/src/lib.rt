// Backup overcurrent: the inverse-time elements of the four ends, their sums and trips.

#![tactic(auto)]

pub mod watching;

ghost use Rattle.std.specs.Prelude.{◌≡◌, ◌<◌};
ghost use Rattle.lists.specs.Tests.{hold};
ghost use Rattle.inverse_time.specs.Timers.{idle};
ghost use Rattle.overcurrent.specs.Ends.{per_end, backup_after, trips_of, sums_within, largest_in, BackupInput};

use inverse_time::Timer;
use measuring::Readings;
use systems::Ends;

// The sums and trips of the four ends.
pub type Backup = Ends<Timer>;

// Which ends have tripped.
pub type Trips = Ends<bool>;

// What is measured of a full window, and sums and trips after it.
#[derive(Clone, Copy)]
pub struct Watched {
    pub readings: Readings,
    pub backup: Backup,
}

// A of end z: the largest amplitude of its three systems.
fn largest(a: [u32; 12], z: usize) -> u32
    requires { z < 4 }
    ensures { result ≡ largest_in a z }
{
    let at = 3 * z;
    a[at].max(a[at + 1].max(a[at + 2]))
}

// Sums and trips of the four ends after a measured set, by the ends' amplitudes; the curve is not 0.
pub fn backup_after(ends: u8, curve: u8, pickup: u16, a: [u32; 12], b: Backup) -> Backup
    requires { BackupInput curve pickup a b }
    ensures { result ≡ backup_after ends curve pickup (largest_in a) b }
{
    b.map_at(|z, t| {
        if z < usize::from(ends) {
            inverse_time::timer_after(curve, pickup, largest(a, z), t)
        } else {
            t
        }
    })
}

// Sums and trips that are clear.
pub fn untripped() -> Backup
    ensures { result ≡ per_end (λ z. idle) }
{
    Ends::same(Timer {
        sum: 0,
        trip: false,
    })
}

// No sum above 1,000,000,000.
pub fn within(b: Backup) -> bool
    ensures { result ≡ hold (sums_within b) }
{
    b.map(|t| t.sum <= 1000000000).all()
}

// The trips of the four ends.
pub fn tripped(b: Backup) -> Trips
    ensures { result ≡ trips_of b }
{
    b.map(|t| t.trip)
}
