//! The steps of the writers, each for two or four digits: removing them from a number, and writing them from a table of
//! digit pairs.

// `turns` is the counter for the notes of a count, and `loop_turns` that for the notes of the writing.
ghost use Rattle.std.specs.Prelude.{◌≡◌, ◌+◌, ◌*◌, ◌/◌, ◌%◌, ◌^◌, ◌<◌, ◌≤◌, ◌++◌, length};
ghost use Rattle.lexical_num.specs.Format.{IsRadix};
ghost use Rattle.lexical_write_integer.specs.Buffer.{WritesBlock, WritesDigits};
ghost use Rattle.lexical_write_integer.specs.DigitCount.{digit_count};
ghost use Rattle.lexical_write_integer.specs.LoopTurns.{loop_notes, slow_notes};

use crate::digits::pairs::RadixTable;
use crate::turns::Turns;

// Returns the fourth power of the radix: the divisor that removes four digits.
pub(super) fn fourth_power(radix: u32) -> u64
    requires { IsRadix radix }
    ensures power { result ≡ radix ^ 4 }
    ensures some { 0 < result }
{
    let square = u64::from(radix * radix);
    square * square
}

// Returns the last four digits of a number, as a number.
pub(super) fn last_four<const R: u32>(value: u64) -> u32
    requires { IsRadix R }
    ensures digits { result ≡ value % R ^ 4 }
    ensures below { result < R ^ 4 }
{
    (value % fourth_power(R)) as u32
}

// Returns the number without its last four digits.
pub(super) fn remove_four<const R: u32>(value: u64, loop_turns: &mut Turns) -> u64
    requires radix { IsRadix R }
    requires long { R ^ 4 ≤ value }
    ensures left { result ≡ value / R ^ 4 }
    ensures smaller { result < value }
    ensures digits { digit_count R result + 4 ≡ digit_count R value }
    // The note is this quotient.
    ensures notes_in_loop { loop_turns.new ++ loop_notes R result ≡ loop_turns.old ++ loop_notes R value }
{
    let left = value / fourth_power(R);
    loop_turns.tick(left);
    left
}

// Returns a number of up to four digits without its last two.
pub(super) fn remove_two<const R: u32>(number: u64, loop_turns: &mut Turns) -> u64
    requires radix { IsRadix R }
    requires below { number < R ^ 4 }
    ensures left { result ≡ number / (R * R) }
    // The note is what is left, unless it is 0.
    ensures notes_in_loop { loop_turns.new ≡ loop_turns.old ++ loop_notes R number }
{
    let left = number / u64::from(R * R);
    if left > 0 {
        loop_turns.tick(left);
    }
    left
}

// Notes a number of up to four digits without its last two, unless that is 0. It does nothing else.
pub(super) fn note_up_to_four<const R: u32>(number: u64, loop_turns: &mut Turns)
    requires radix { IsRadix R }
    requires below { number < R ^ 4 }
    ensures notes_in_loop { loop_turns.new ≡ loop_turns.old ++ loop_notes R number }
{
    remove_two::<R>(number, loop_turns);
}

// Returns how many digits a number of one or two digits has, by a division.
pub(super) fn count_one_or_two_by_division(number: u32, radix: u32, turns: &mut Turns) -> usize
    requires radix { IsRadix radix }
    requires below { number < radix ^ 2 }
    ensures count { result ≡ digit_count radix number }
    ensures notes { turns.new ≡ turns.old ++ slow_notes radix number }
{
    let left = number / radix;
    if left > 0 {
        turns.tick(u64::from(left));
    }
    1 + usize::from(left > 0)
}

// Writes the one or two digits of a number, which are counted, to the start of the buffer: two characters, of which the
// first is written over if it is a leading zero.
pub(super) fn write_pair_by_bytes<const R: u32>(
    number: u32,
    digits: usize,
    table: RadixTable<'_, R>,
    buffer: &mut [u8],
)
    requires below { number < R * R }
    requires digits { digits ≡ digit_count R number }
    requires room { digits ≤ length buffer.old }
    ensures { WritesDigits R number buffer.old buffer.new digits }
{
    // So rustc tests the end of the buffer once.
    prove!(digits <= buffer.len(), "the buffer is too short");
    let pair = 2 * number as usize;
    buffer[0] = table.pairs[pair];
    buffer[digits - 1] = table.pairs[pair + 1];
}

// Writes the one or two digits of a number as `write_pair_by_bytes` does. It reads both characters as one word, in one
// instruction, but into one of few registers.
pub(super) fn write_pair_by_word<const R: u32>(
    number: u64,
    digits: usize,
    table: RadixTable<'_, R>,
    buffer: &mut [u8],
)
    requires below { number < R * R }
    requires digits { digits ≡ digit_count R number }
    requires room { digits ≤ length buffer.old }
    ensures { WritesDigits R number buffer.old buffer.new digits }
{
    // rustc tests the end of these bytes once.
    let written = &mut buffer[..digits];
    let index = 2 * number as u32 as usize;
    let mut pair = [0; 2];
    pair.copy_from_slice(&table.pairs[index..index + 2]);
    let characters = u16::from_le_bytes(pair);
    written[0] = (characters % 256) as u8;
    written[digits - 1] = (characters / 256) as u8;
}

// Writes a number of up to four digits at index `at`, with leading zeros, as two pairs.
pub(super) fn write_four<const R: u32>(
    number: u32,
    table: RadixTable<'_, R>,
    buffer: &mut [u8],
    at: usize,
)
    requires below { number < R ^ 4 }
    requires room { at + 4 ≤ length buffer.old }
    ensures { WritesBlock R 4 number at buffer.old buffer.new }
{
    let square = R * R;
    // rustc tests the end of these bytes once.
    let four = &mut buffer[at..at + 4];
    table.write(number % square, four, 2);
    table.write(number / square, four, 0);
}
