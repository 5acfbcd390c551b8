// Runs the roundings and `root` on numbers from standard input and prints the results, a line each. A record is 17 bytes: what to do ('n' nearest of
// a/b with a half up, 'm' the same of −a/b, 'a' and 'b' with a half away from zero, 'r' root of a and its turns), then a and b, eight bytes each,
// little-endian.
// second/numbers.c makes the input and the expected output.

#![tactic(auto)]

use programs::print;

// The quotient by what is to be done, where a and b are within reach of the roundings.
fn quotient(kind: u8, a: u64, b: u64) -> Option<i64> {
    if 1152921504606846976 < a || b == 0 || 1099511627776 < b {
        return None;
    }
    let n = a as i64;
    Some(match kind {
        b'm' => integer::nearest(-n, b),
        b'a' => integer::nearest_away(n, b),
        b'b' => integer::nearest_away(-n, b),
        _ => integer::nearest(n, b),
    })
}

fn print_root(a: u64) {
    let found = integer::root(a);
    print(format_args!("{} {}", found.root, found.turns));
}

// The line of a record.
fn print_result(kind: u8, a: u64, b: u64) {
    if kind == b'r' {
        print_root(a);
    } else if let Some(x) = quotient(kind, a, b) {
        print(x);
    }
    programs::end_line();
}

fn main() {
    for _ in 0..100000 {
        let mut record = [0u8; 17];
        if io::read_full(0, &mut record) < 17 {
            return;
        }
        let a = programs::u64_at(&record, 1);
        let b = programs::u64_at(&record, 9);
        print_result(record[0], a, b);
    }
}
