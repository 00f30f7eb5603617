//! Writes amounts of money, with commas between groups of three digits and a point before the cents.

ghost use Rattle.std.specs.Prelude.{◌≡◌, List, ℕ, Some, length, pos};
ghost use Rattle.lexical_num.specs.Format.{standard};
ghost use Rattle.lexical_write_integer.specs.Buffer.{Writes};
ghost use Rattle.lexical_write_integer.specs.Text.{IsText};
ghost use Rattle.lexical_parts.specs.Fixed.{IsGroupedFixed};

use lexical_parts::{GroupedFixed, Part};
use lexical_write_integer::digit_count::DigitCount;
use lexical_write_integer::laws::text_length;
use lexical_write_integer::{NumberFormat, NumberFormatBuilder};

// Returns the decimal format with commas between groups of three digits.
fn in_thousands() -> NumberFormat
    ensures { result ≡ record standard { digit_grouping = Some (3, 44) } }
{
    NumberFormatBuilder::new()
        .digit_grouping(3, b',')
        .build_strict()
}

/// Writes an amount of cents in units of 100 cents, such as `-1,234.50`, to the start of the array, and
/// returns the number of bytes written. The bytes after them are unchanged.
pub fn write_amount(cents: i64, buffer: &mut [u8; 26]) -> usize
    ensures { Writes (IsGroupedFixed (Some (3, 44)) 2 cents) buffer.old buffer.new result }
{
    GroupedFixed(cents, 2, &in_thousands()).write_to(buffer)
}

/// Returns the length of the digits and commas of a number of units, by which a caller can align amounts in
/// a column.
pub fn width_of_amount(units: u64) -> usize
    ensures { (text : List ℕ)
        → IsText (pos units) (record standard { digit_grouping = Some (3, 44) }) text
        → length text ≡ result }
{
    let format = in_thousands();
    text_length(units, &format);
    format.grouped_len(units.digit_count(10))
}
