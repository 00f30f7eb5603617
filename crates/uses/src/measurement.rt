//! Writes a measurement: a date and time, a weight, and flags.

ghost use Rattle.std.specs.Prelude.{◌≤◌, length};
ghost use Rattle.lexical_write_integer.specs.Buffer.{Writes};
ghost use Rattle.uses.specs.Measurement.{IsMeasurement};

use crate::date_time::DateTime;
use lexical_parts::{Digits, Fixed, Part};
use lexical_write_integer::laws::digit_count_at_most;

/// Writes the date and time, the weight and the flags to the start of the buffer, and returns the
/// number of bytes written. The weight is in tenths of a kilogram, and the flags are written in
/// hexadecimal. The buffer must have room for 47 bytes.
pub fn write_measurement(at: DateTime, tenths: i32, flags: u32, buffer: &mut [u8]) -> usize
    requires { 47 ≤ length buffer.old }
    ensures { Writes (IsMeasurement at tenths flags) buffer.old buffer.new result }
{
    digit_count_at_most(16, u64::from(flags), 8);
    let weight = (Fixed(tenths, 1), " kg");
    (at, " ", weight, " 0x", Digits(16, flags), ";").write_to(buffer)
}
