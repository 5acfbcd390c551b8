// The answer to a sample call, in a line.

use overcurrent::{Backup, Trips};
use programs::{print, print_field, print_flag};
use refusal::Refusal;
use relay::{Answer, Measure};

// The four trips.
fn print_trips(t: Trips) {
    for trip in [t.e0, t.e1, t.e2, t.e3] {
        print_flag(trip);
    }
}

// The four sums.
pub fn print_sums(b: Backup) {
    for t in [b.e0, b.e1, b.e2, b.e3] {
        print_field(t.sum);
    }
}

// What is measured of a system, and whether it is latched.
fn print_measure(m: Measure) {
    programs::print_reading(m.reading);
    print_flag(m.latched);
}

// The line of an answer: F and the number of sets held; M, the three systems, the four trips and sums; or the refusal.
pub fn print_answer(answer: Result<Answer, Refusal>, sums: Backup) {
    match answer {
        Ok(Answer::Filling(n)) => print(format_args!("F {n}\n")),
        Ok(Answer::Measured(ms, t)) => {
            print("M");
            for m in [ms.a, ms.b, ms.c] {
                print_measure(m);
            }
            print_trips(t);
            print_sums(sums);
            programs::end_line();
        }
        Err(r) => programs::print_refused(r),
    }
}
