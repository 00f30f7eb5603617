//! What single calls note in a counter, a ghost value of the type `Turns`.
//!
//! A test cannot read a ghost value, so each function makes some calls, each with a new `Turns`, and returns them, and
//! its contract says what was noted.
#![tactic(auto, unfolding(lexical_write_integer::specs::DigitCount::digit_count, lexical_write_integer::specs::DigitCount::least_exponent, lexical_write_integer::specs::LoopTurns::quotients, lexical_write_integer::specs::LoopTurns::compact_notes, lexical_write_integer::specs::LoopTurns::loop_notes, lexical_write_integer::specs::LoopTurns::slow_notes, lexical_write_integer::specs::LoopTurns::count_notes, lexical_write_integer::specs::LoopTurns::table_notes))]

ghost use Rattle.std.specs.Prelude.{◌≡◌, ◌-◌, ◌^◌, ◌<◌, ◌≤◌, [], ◌∷◌, length};
ghost use Rattle.lexical_num.specs.Format.{IsRadix};
ghost use Rattle.lexical_write_integer.specs.DecimalTurns.{write_notes, write_turns};
ghost use Rattle.lexical_write_integer.specs.LoopTurns.{compact_notes, compact_turns, slow_notes};
ghost use Rattle.lexical_write_integer.specs.LoopTurns.{slow_turns, table_notes, table_turns};
ghost use Rattle.uses.specs.RecordedTurns.{HasTurns};

use lexical_num::{LexicalInteger, UnsignedInteger};
use lexical_write_integer::algorithm::algorithm_counted;
use lexical_write_integer::compact::compact_counted;
use lexical_write_integer::decimal::Decimal;
use lexical_write_integer::digit_count::{DigitCount, slow_digit_count_counted};
use lexical_write_integer::jeaiii::{from_u32_counted, from_u64_counted};
use lexical_write_integer::laws::{digit_count_is, digit_count_is_least};
use lexical_write_integer::table::get_table;
use lexical_write_integer::turns::Turns;
use lexical_write_integer::write::write_integer_counted;

/// What four calls record: the writer that `write_integer` chooses, the writer that uses tables, together with
/// the digit count that it makes, the slow digit count, and the compact writer.
#[derive(Drop)]
pub struct Recorded {
    pub written: Turns,
    pub table: Turns,
    pub slow: Turns,
    pub compact: Turns,
}

/// Returns what four calls record for a number that has `digits` digits in the radix.
pub fn turns_of<T: Decimal + DigitCount>(value: T, radix: u32, digits: usize) -> Recorded
    requires radix { IsRadix radix }
    requires some { 1 ≤ digits }
    requires enough { T.magnitude value < radix ^ digits }
    requires needed { 1 < digits → radix ^ (digits - 1) ≤ T.magnitude value }
    requires decimal { T.DECIMAL_WIDTH ≤ 128 }
    ensures written { result.written ≡ write_notes T.BITS radix (T.magnitude value) }
    ensures table { result.table ≡ table_notes radix (T.magnitude value) }
    ensures slow { result.slow ≡ slow_notes radix (T.magnitude value) }
    ensures compact { result.compact ≡ compact_notes radix (T.magnitude value) }
    ensures turns { HasTurns result (write_turns radix digits) (table_turns radix digits)
        (slow_turns digits) (compact_turns digits) }
{
    digit_count_is(radix, value.as_u64(), digits);
    digit_count_is_least(radix, value.as_u64());
    let mut written = Turns::new();
    write_integer_counted(value, radix, &mut [0; 128], &mut written);
    let mut table = Turns::new();
    algorithm_counted(value, radix, get_table(radix), &mut [0; 128], &mut table);
    let mut slow = Turns::new();
    slow_digit_count_counted(value, radix, &mut slow);
    let mut compact = Turns::new();
    compact_counted(value, radix, &mut [0; 128], &mut compact);
    Recorded {
        written,
        table,
        slow,
        compact,
    }
}

/// Returns what is recorded for 1234: the product by which its second pair of digits is found.
#[tactic(auto, unfolding(lexical_write_integer::specs::DecimalTurns::decimal_notes_32, lexical_write_integer::specs::DecimalTurns::decimal_notes_64))]
pub fn notes_of_four_digits() -> Turns
    ensures { result ≡ 146028893000 ∷ [] }
{
    let mut turns = Turns::new();
    from_u32_counted(1234, &mut [0; 128], &mut turns);
    turns
}

/// Returns what is recorded for 12345678901: its last five pairs of digits, the last pair first.
#[tactic(auto, unfolding(lexical_write_integer::specs::DecimalTurns::decimal_notes_32, lexical_write_integer::specs::DecimalTurns::decimal_notes_64))]
pub fn notes_of_eleven_digits() -> Turns
    ensures { result ≡ 1 ∷ 89 ∷ 67 ∷ 45 ∷ 23 ∷ [] }
{
    let mut turns = Turns::new();
    from_u64_counted(12345678901, &mut [0; 128], &mut turns);
    turns
}

/// Returns what is recorded for 255 in radix 3, which is `100110`.
pub fn notes_of_255_in_radix_3() -> Recorded
    ensures table { result.table ≡ 3 ∷ 1 ∷ 3 ∷ [] }
    ensures slow { result.slow ≡ 3 ∷ 1 ∷ [] }
    ensures compact { result.compact ≡ 85 ∷ 28 ∷ 9 ∷ 3 ∷ 1 ∷ [] }
{
    turns_of(255u8, 3, 6)
}

/// Returns what is recorded for 255 in radix 16, which is `FF`.
pub fn notes_of_255_in_radix_16() -> Recorded
    ensures compact { result.compact ≡ 15 ∷ [] }
{
    turns_of(255u8, 16, 2)
}

/// Returns what is recorded for 0, for the largest `u64` in decimal and in radix 2, for the largest `u8` in radix
/// 16, whose square does not fit in a byte, and for a number of 40 digits in radix 3. For no other `u64` does
/// `write_integer` make more iterations.
pub fn turns_by_digits() -> (Recorded, Recorded, Recorded, Recorded, Recorded)
    ensures zero { HasTurns result.0 0 0 0 0 }
    ensures largest_in_decimal { HasTurns result.1 9 5 6 19 }
    ensures largest_in_radix_2 { HasTurns result.2 16 16 17 63 }
    ensures byte_in_radix_16 { HasTurns result.3 0 0 1 1 }
    ensures most_in_radix_3 { HasTurns result.4 21 21 11 39 }
{
    (
        turns_of(0u8, 10, 1),
        turns_of(u64::MAX, 10, 20),
        turns_of(u64::MAX, 2, 64),
        turns_of(u8::MAX, 16, 2),
        turns_of(12157665459056928800u64, 3, 40),
    )
}

/// Returns what is recorded for 0 in radix 2, and for the largest numbers of three types.
pub fn turns_of_the_largest() -> (Recorded, Recorded, Recorded, Recorded)
    ensures zero_in_radix_2 { HasTurns result.0 0 0 0 0 }
    ensures byte_in_radix_2 { HasTurns result.1 2 2 3 7 }
    ensures u16_in_radix_16 { HasTurns result.2 1 1 2 3 }
    ensures u64_in_radix_36 { HasTurns result.3 6 6 3 12 }
{
    (
        turns_of(0u8, 2, 1),
        turns_of(255u8, 2, 8),
        turns_of(65535u16, 16, 4),
        turns_of(u64::MAX, 36, 13),
    )
}

/// Returns what is recorded for the largest numbers of two types, in radices in which the loop that divides by the
/// fourth power of the radix does not run for a `u8`.
pub fn turns_without_the_fourth_power() -> (Recorded, Recorded, Recorded)
    ensures byte_in_radix_4 { HasTurns result.0 1 1 2 3 }
    ensures byte_in_radix_15 { HasTurns result.1 2 2 1 2 }
    ensures u16_in_radix_15 { HasTurns result.2 2 2 1 4 }
{
    (
        turns_of(255u8, 4, 4),
        turns_of(255u8, 15, 3),
        turns_of(65535u16, 15, 5),
    )
}

/// Returns what is recorded in decimal for numbers of 3, 10 and 11 digits.
pub fn turns_in_decimal() -> (Recorded, Recorded, Recorded)
    ensures three_digits { HasTurns result.0 1 1 1 2 }
    ensures ten_digits { HasTurns result.1 4 2 3 9 }
    ensures eleven_digits { HasTurns result.2 5 3 3 10 }
{
    (
        turns_of(255u8, 10, 3),
        turns_of(u32::MAX, 10, 10),
        turns_of(10000000000u64, 10, 11),
    )
}
