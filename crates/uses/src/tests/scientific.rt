//! Numbers in scientific notation, compared with what Rust writes.

ghost use Rattle.std.specs.Prelude.{◌<◌, ◌≤◌};

use super::{check, check_part, check_room, check_str};
use crate::float_parts::write_float;
use lexical_parts::{Part, Scientific};

// A generator of pseudorandom numbers, by multiplication and addition modulo 2^64.
#[derive(Drop)]
struct Numbers(u64);

// Returns a divisor that is a power of ten, 1 for half of the choices.
fn power(choice: u64) -> u64
    ensures { 0 < result }
{
    match choice % 8 {
        4 => 10,
        5 => 1000,
        6 => 10_000_000,
        7 => 1_000_000_000_000,
        _ => 1,
    }
}

impl Numbers {
    fn next(&mut self) -> u64 {
        self.0 = self
            .0
            .wrapping_mul(6364136223846793005)
            .wrapping_add(1442695040888963407);
        self.0 >> 32 ^ self.0
    }

    // Returns a number of any length, of which one in two has zeros at the end.
    fn number(&mut self) -> u64 {
        let bits = self.next();
        let choice = self.next();
        let number = bits >> (choice % 64);
        number - number % power(choice >> 8)
    }

    fn signed(&mut self) -> i64 {
        let number = self.number().cast_signed();
        if self.next() % 2 == 0 {
            number
        } else {
            number.wrapping_neg()
        }
    }
}

// Adds the text of a part to a sum (FNV-1a).
fn add<P: Part>(sum: u64, part: P) -> u64
    requires valid { P.is_valid part }
    requires room { P.room part ≤ 40 }
{
    let mut sum = sum;
    for byte in part.to_text(&mut [0; 40]) {
        sum = (sum ^ u64::from(*byte)).wrapping_mul(1099511628211);
    }
    sum
}

// Rust's own answers: `format!("{:e}", 1.234e-56)`, and so on. No float has the largest exponents.
#[test]
fn scientific_notation(rt: HostRuntime) {
    check_part(&rt, Scientific(1234, -59), b"1.234e-56");
    check_part(&rt, Scientific(-1000i16, 0), b"-1e3");
    check_part(&rt, Scientific(0u8, 0), b"0e0");
    check_part(&rt, Scientific(0, -77), b"0e0");
    check_part(&rt, Scientific(-5i64, -324), b"-5e-324");
    check_part(&rt, Scientific(i8::MIN, 0), b"-1.28e2");
    check_part(&rt, Scientific(u8::MAX, i32::MIN), b"2.55e-2147483646");
    let longest = Scientific(u64::MAX, i32::MIN);
    check_part(&rt, longest, b"1.8446744073709551615e-2147483629");
    check_room(&rt, longest, 33);
    let most = Scientific(10_000_000_000_000_000_000u64, i32::MAX);
    check_str(&rt, most, &mut [7; 33], "1e2147483666");
    check_room(&rt, Scientific(-1i8, 0), 17);
}

#[test]
fn floats(rt: HostRuntime) {
    check(&rt, write_float(-1, 1234, -59, &mut [7; 34]), "-1.234e-56");
    check(&rt, write_float(1, 5, 0, &mut [7; 34]), "5e0");
}

// These are sums of the texts that Rust's `{:e}` writes: the test of this name in `rust/repository_tests` makes the
// same 30,000 numbers, and compares its sums with these. The digits of the floats, of which there are at most 15, are
// their shortest.
#[test]
fn numbers_as_rust_writes_them(rt: HostRuntime) {
    let mut numbers = Numbers(1);
    let mut unsigned = 0;
    let mut signed = 0;
    let mut floats = 0;
    for _ in 0..10_000 {
        unsigned = add(unsigned, Scientific(numbers.number(), 0));
        signed = add(signed, Scientific(numbers.signed(), 0));
        let exponent = (numbers.next() % 591) as i32 - 300;
        floats = add(
            floats,
            Scientific(numbers.number() % 1_000_000_000_000_000, exponent),
        );
    }
    check(&rt, unsigned, 17568205989486067703);
    check(&rt, signed, 10332201674773152855);
    check(&rt, floats, 12453350763887842918);
}
