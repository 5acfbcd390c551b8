// The whole record between calls: a part of it changed, and all of it printed.

use inverse_time::Timer;
use overcurrent::Backup;
use record_parts::changed::{self, Change, Part};
use record_parts::printed;
use relay::Relay;

// The overcurrent element of an end.
fn timer(b: &mut Backup, end: u8) -> &mut Timer {
    match end {
        0 => &mut b.e0,
        1 => &mut b.e1,
        2 => &mut b.e2,
        _ => &mut b.e3,
    }
}

// A change block. A matched number past the window is none, and then nothing changes.
pub fn change_block(start: Relay, block: &[u8; 512]) -> Relay {
    let mut relay = start;
    let Change { part, value } = block.into();
    match part {
        Part::Setting(at) => changed::change_setting(&mut relay.setting, at, value),
        Part::Fill => relay.window.fill = value.into(),
        Part::Number(place) => {
            if let Some(number) = relay.window.values.get_mut(usize::from(place)) {
                *number = value.into();
            }
        }
        Part::Counter(0) => relay.trip.a.count = value.into(),
        Part::Counter(1) => relay.trip.b.count = value.into(),
        Part::Counter(_) => relay.trip.c.count = value.into(),
        Part::Events(0) => relay.events.flags = value.into(),
        Part::Events(_) => relay.events.mask = value.into(),
        Part::Sum(end) => timer(&mut relay.backup, end).sum = value.into(),
        Part::Trip(end) => timer(&mut relay.backup, end).trip = value.into(),
    }
    relay
}

// A line of the whole record: the setting values, the fill, counter and latch of each system, flags and interrupt mask, sum and trip of each end, and the
// matched numbers.
pub fn print_record(r: Relay) {
    programs::print("record");
    printed::print_setting(r.setting);
    programs::print_field(r.window.fill);
    printed::print_trip(r.trip);
    printed::print_events(r.events);
    printed::print_backup(r.backup);
    printed::print_values(r.window);
    programs::end_line();
}
