//! Writing the digits of a number in any radix, from the tables of digit pairs, and in radix 2 from 256 on without one.
//! In radix 10 and in powers of 2 the digits are counted first, and otherwise, by division, while they are written.

ghost use Rattle.std.specs.Prelude.{true, ◌≡◌, ◌*◌, ◌<◌, ◌≤◌, ◌++◌, length};
ghost use Rattle.lexical_num.specs.Format.{IsRadix};
ghost use Rattle.lexical_write_integer.specs.Buffer.{WritesDigits};
ghost use Rattle.lexical_write_integer.specs.DigitCount.{digit_count};
ghost use Rattle.lexical_write_integer.specs.LoopTurns.{has_fast_count, table_notes};
ghost use Rattle.lexical_write_integer.specs.Table.{BeginsWithPairs};

pub mod algorithm;
mod binary_words;
mod by_radix;
pub mod compact;
mod count_then_write;
mod count_while_writing;
mod steps;

use crate::digits::count::has_fast_count;
use crate::digits::pairs::RadixTable;
use crate::laws::digit_count_within_bits;
use crate::turns::Turns;
use binary_words::write_binary;
use by_radix::by_radix;
use count_then_write::{count_then_write, write_one_or_two_digits};
use count_while_writing::{
    count_and_write_above_eight, count_and_write_five_to_eight, count_and_write_up_to_four,
    eighth_power,
};
use lexical_num::num::UnsignedInteger;
use lexical_tables::get_table;
use steps::fourth_power;

// Writes a number in the radix `R`, whose digits are counted without division, with a table that begins with the digit
// pairs of that radix.
fn write_by_fast_count<const R: u32>(
    number: u64,
    table: &[u8],
    buffer: &mut [u8],
    turns: &mut Turns,
) -> usize
    requires radix { IsRadix R }
    requires fast_count { has_fast_count R ≡ true }
    requires table { BeginsWithPairs R table.now }
    requires room { digit_count R number ≤ length buffer.old }
    ensures digits { WritesDigits R number buffer.old buffer.new result }
    ensures notes { turns.new ≡ turns.old ++ table_notes R number }
{
    let table = RadixTable::<R> { pairs: table };
    if R == 2 && number >= 256 {
        write_binary(number, buffer, turns)
    } else if number < u64::from(R * R) {
        write_one_or_two_digits(number, table, buffer, turns)
    } else {
        count_then_write(number, table, buffer, turns)
    }
}

// Writes a number in the radix `R`, with a table that begins with the digit pairs of that radix: after the count of
// the digits if that needs no division, and otherwise while they are counted.
fn write_digits<T: UnsignedInteger, const R: u32>(
    value: T,
    table: &[u8],
    buffer: &mut [u8],
    turns: &mut Turns,
) -> usize
    requires radix { IsRadix R }
    requires table { BeginsWithPairs R table.now }
    requires room { digit_count R (T.magnitude value) ≤ length buffer.old }
    ensures digits { WritesDigits R (T.magnitude value) buffer.old buffer.new result }
    // The notes of the count precede those of the writer.
    ensures notes { turns.new ≡ turns.old ++ table_notes R (T.magnitude value) }
{
    value.fits_bits();
    let number = value.as_u64();
    if has_fast_count(R) {
        return write_by_fast_count::<R>(number, table, buffer, turns);
    }
    let table = RadixTable::<R> { pairs: table };
    let mut loop_turns = Turns::new();
    let count = if number < fourth_power(R) {
        // This is known of each number of 8 bits from radix 4 on, so their code has nothing else.
        count_and_write_up_to_four(number as u32, table, buffer, turns, &mut loop_turns)
    } else if number < eighth_power(R) {
        count_and_write_five_to_eight(number, table, buffer, turns, &mut loop_turns)
    } else {
        count_and_write_above_eight(number, table, buffer, turns, &mut loop_turns)
    };
    turns.append(&loop_turns);
    count
}

// Writes a number with the table of the radix.
fn write_by_table<T: UnsignedInteger, const R: u32>(
    value: T,
    buffer: &mut [u8],
    turns: &mut Turns,
) -> usize
    requires radix { IsRadix R }
    requires room { digit_count R (T.magnitude value) ≤ length buffer.old }
    ensures digits { WritesDigits R (T.magnitude value) buffer.old buffer.new result }
    ensures notes { turns.new ≡ turns.old ++ table_notes R (T.magnitude value) }
{
    write_digits::<T, R>(value, get_table(R), buffer, turns)
}

// Writes a number as `write_by_table` does, by a call: its code is too long for each caller.
#[cold]
fn write_by_table_out_of_line<T: UnsignedInteger, const R: u32>(
    value: T,
    buffer: &mut [u8],
    turns: &mut Turns,
) -> usize
    requires radix { IsRadix R }
    requires room { digit_count R (T.magnitude value) ≤ length buffer.old }
    ensures digits { WritesDigits R (T.magnitude value) buffer.old buffer.new result }
    ensures notes { turns.new ≡ turns.old ++ table_notes R (T.magnitude value) }
{
    write_by_table::<T, R>(value, buffer, turns)
}

// Writes a number as `write_by_table` does. One or two digits, which are frequent, and each number of a type of 8 or 16
// bits, whose code is short, are written in the caller. A longer number is written by a call.
fn write_with_short_inline<T: UnsignedInteger, const R: u32>(
    value: T,
    buffer: &mut [u8],
    turns: &mut Turns,
) -> usize
    requires radix { IsRadix R }
    requires room { digit_count R (T.magnitude value) ≤ length buffer.old }
    ensures digits { WritesDigits R (T.magnitude value) buffer.old buffer.new result }
    ensures notes { turns.new ≡ turns.old ++ table_notes R (T.magnitude value) }
{
    value.fits_bits();
    let number = value.as_u64();
    if number < u64::from(R * R) {
        return write_one_or_two_digits(number, RadixTable::<R>::new(), buffer, turns);
    }
    if T::BITS < 32 {
        return write_by_table::<T, R>(value, buffer, turns);
    }
    write_by_table_out_of_line::<T, R>(value, buffer, turns)
}

// Writes the digits by the code of the radix, which names the table. In a power of 2 this code is short enough to be in
// each caller.
#[cold]
pub(crate) fn write_in_radix<T: UnsignedInteger>(
    value: T,
    radix: u32,
    buffer: &mut [u8],
    turns: &mut Turns,
) -> usize
    requires radix { IsRadix radix }
    requires room { digit_count radix (T.magnitude value) ≤ length buffer.old }
    ensures digits { WritesDigits radix (T.magnitude value) buffer.old buffer.new result }
    ensures notes { turns.new ≡ turns.old ++ table_notes radix (T.magnitude value) }
{
    by_radix!(radix, write_by_table or write_with_short_inline::<T>(value, buffer, turns))
}

// Writes the digits as `write_in_radix` does, but by a call. Only in a radix that is no power of 2, one or two digits and
// the numbers of a type of 8 or 16 bits are written in the caller. So a caller whose radix is constant has little code.
fn write_in_radix_out_of_line<T: UnsignedInteger>(
    value: T,
    radix: u32,
    buffer: &mut [u8],
    turns: &mut Turns,
) -> usize
    requires radix { IsRadix radix }
    requires room { digit_count radix (T.magnitude value) ≤ length buffer.old }
    ensures digits { WritesDigits radix (T.magnitude value) buffer.old buffer.new result }
    ensures notes { turns.new ≡ turns.old ++ table_notes radix (T.magnitude value) }
{
    by_radix!(radix, write_by_table_out_of_line or write_with_short_inline::<T>(value, buffer, turns))
}

/// Writes the digits of the number as `Radix::radix` does, by code that rustc has in each caller: the radix is to be
/// constant there. It must be from 2 to 36, and the buffer must have room for the digits.
///
/// # Panics
///
/// If the radix is not from 2 to 36, or if the buffer is [too short](crate::conditions).
pub fn write_in_constant_radix<T: UnsignedInteger>(value: T, radix: u32, buffer: &mut [u8]) -> usize
    requires radix { IsRadix radix }
    requires room { digit_count radix (T.magnitude value) ≤ length buffer.old }
    ensures digits { WritesDigits radix (T.magnitude value) buffer.old buffer.new result }
    ensures at_most { result ≤ T.BITS }
{
    digit_count_within_bits(radix, value);
    write_in_radix(value, radix, buffer, &mut Turns::new())
}

/// An unsigned integer type whose digits are written in every radix.
pub trait Radix: UnsignedInteger {
    /// Writes the digits of the number to the start of the buffer, and returns how many there are. The
    /// radix must be from 2 to 36, and the buffer must have room for the digits.
    ///
    /// # Panics
    ///
    /// If the radix is not from 2 to 36, or if the buffer is [too short](crate::conditions).
    fn radix(self, radix: u32, buffer: &mut [u8]) -> usize
        requires radix { IsRadix radix }
        requires room { digit_count radix (Self.magnitude self) ≤ length buffer.old }
        ensures digits { WritesDigits radix (Self.magnitude self) buffer.old buffer.new result }
        ensures at_most { result ≤ Self.BITS }
    {
        digit_count_within_bits(radix, self);
        write_in_radix_out_of_line(self, radix, buffer, &mut Turns::new())
    }
}

impl<T: UnsignedInteger> Radix for T {}
