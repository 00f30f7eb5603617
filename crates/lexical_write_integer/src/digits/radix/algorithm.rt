//! Writing the digits of a number with a table of digit pairs that the caller passes. `Radix` writes them with the
//! table of this library.

// `crates/tests/src/integers/digits_in_each_radix.rt` has examples.
ghost use Rattle.std.specs.Prelude.{◌≡◌, ◌+◌, ◌≤◌, ◌++◌, IsTrue, length};
ghost use Rattle.lexical_num.specs.Format.{IsRadix};
ghost use Rattle.lexical_write_integer.specs.Buffer.{WritesDigits};
ghost use Rattle.lexical_write_integer.specs.DigitCount.{digit_count};
ghost use Rattle.lexical_write_integer.specs.Table.{BeginsWithPairs};
ghost use Rattle.lexical_write_integer.specs.LoopTurns.{table_notes, table_turns};

use super::by_radix::by_radix;
use super::write_digits;
use crate::digits::count::DigitCount;
use crate::turns::Turns;
use lexical_num::num::UnsignedInteger;

// Calls `write_digits` for a radix that is known only at run time.
fn write_digits_in_radix<T: UnsignedInteger>(
    value: T,
    radix: u32,
    table: &[u8],
    buffer: &mut [u8],
    turns: &mut Turns,
) -> usize
    requires radix { IsRadix radix }
    requires table { BeginsWithPairs radix table.now }
    requires room { digit_count radix (T.magnitude value) ≤ length buffer.old }
    ensures digits { WritesDigits radix (T.magnitude value) buffer.old buffer.new result }
    ensures notes { turns.new ≡ turns.old ++ table_notes radix (T.magnitude value) }
{
    by_radix!(radix, write_digits::<T>(value, table, buffer, turns))
}

// Returns whether the table is long enough for the radix, and has the pair `10` for the number that is the radix, which
// no table of another radix has.
fn begins_with_pairs(radix: u32, table: &[u8]) -> bool
    requires radix { IsRadix radix }
    requires table { BeginsWithPairs radix table.now }
    ensures { IsTrue result }
{
    let pair = 2 * radix as usize;
    table.len() >= pair * radix as usize && table[pair] == b'1' && table[pair + 1] == b'0'
}

/// Writes the digits of the number to the start of the buffer, and returns how many there are. The radix is
/// from 2 to 36, the table begins with the digit pairs of the radix, and the buffer has room for the digits.
pub fn algorithm_counted<T: DigitCount>(
    value: T,
    radix: u32,
    table: &[u8],
    buffer: &mut [u8],
    turns: &mut Turns,
) -> usize
    requires radix { IsRadix radix }
    requires table { BeginsWithPairs radix table.now }
    requires room { digit_count radix (T.magnitude value) ≤ length buffer.old }
    ensures digits { WritesDigits radix (T.magnitude value) buffer.old buffer.new result }
    // The notes are the quotients of the digit count, and then those of the writer.
    ensures notes { turns.new ≡ turns.old ++ table_notes radix (T.magnitude value) }
    ensures turns { length turns.new ≡ length turns.old + table_turns radix result }
    ensures few_turns { length turns.new ≤ length turns.old + 21 }
    ensures at_most { result ≤ T.BITS }
{
    prove!(
        begins_with_pairs(radix, table),
        "the table does not begin with the digit pairs of the radix"
    );
    value.fits_bits();
    write_digits_in_radix(value, radix, table, buffer, turns)
}

/// Writes the digits of the number to the start of the buffer, and returns how many there are. The radix is
/// from 2 to 36, the table begins with the digit pairs of the radix, and the buffer has room for the
/// digits.
///
/// # Panics
///
/// If the radix is not from 2 to 36, or if the table does not begin with the digit pairs of the radix, or if the buffer
/// is [too short](crate::conditions).
///
/// # Not checked
///
/// Rust checks only the length and one pair of the table. With a table that is otherwise wrong the digits may be wrong.
pub fn algorithm<T: DigitCount>(value: T, radix: u32, table: &[u8], buffer: &mut [u8]) -> usize
    requires radix { IsRadix radix }
    requires table { BeginsWithPairs radix table.now }
    requires room { digit_count radix (T.magnitude value) ≤ length buffer.old }
    ensures digits { WritesDigits radix (T.magnitude value) buffer.old buffer.new result }
    ensures at_most { result ≤ T.BITS }
{
    algorithm_counted(value, radix, table, buffer, &mut Turns::new())
}
