// The parts of the record as fields of a line.

use overcurrent::Backup;
use page::Events;
use programs::{print, print_field, print_flag};
use setting::{End, Setting, Thresholds};
use state::{Trip, Window};

fn print_end(e: End) {
    print(format_args!(" {} {} {} {}", e.voltage, e.current, e.group, e.filter));
}

fn print_thresholds(t: Thresholds) {
    for x in [
        t.basic, t.high, t.slope1, t.slope2, t.knee, t.second, t.fifth,
    ] {
        print_field(x);
    }
}

// The setting values in the order of the setting block.
pub fn print_setting(v: Setting) {
    print(format_args!(" {} {} {} {}", v.ends, v.flags, v.confirm, v.power));
    for e in [v.e0, v.e1, v.e2, v.e3] {
        print_end(e);
    }
    print_thresholds(v.thresholds);
    print(format_args!(" {} {}", v.overcurrent.pickup, v.overcurrent.curve));
}

// Counter and latch of each system.
pub fn print_trip(t: Trip) {
    for e in [t.a, t.b, t.c] {
        print_field(e.count);
        print_flag(e.latch);
    }
}

// Flags and interrupt mask.
pub fn print_events(e: Events) {
    print(format_args!(" {} {}", e.flags, e.mask));
}

// Sum and trip of each end.
pub fn print_backup(b: Backup) {
    for t in [b.e0, b.e1, b.e2, b.e3] {
        print_field(t.sum);
        print_flag(t.trip);
    }
}

// The matched numbers.
pub fn print_values(w: Window) {
    programs::print_numbers(&w.values);
}
