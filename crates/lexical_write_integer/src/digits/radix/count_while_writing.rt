//! Counting the digits of a number by division, and writing them from the same quotients: for the radices in which a
//! count needs divisions.

// `turns` is the counter for the notes of a count, and `loop_turns` that for the notes of the writing.
ghost use Rattle.std.specs.Prelude.{◌≡◌, ◌*◌, ◌^◌, ◌<◌, ◌≤◌, ◌++◌, length};
ghost use Rattle.lexical_num.specs.Format.{IsRadix};
ghost use Rattle.lexical_write_integer.specs.Buffer.{WritesDigits};
ghost use Rattle.lexical_write_integer.specs.DigitCount.{digit_count};
ghost use Rattle.lexical_write_integer.specs.LoopTurns.{loop_notes, slow_notes};

use super::steps::{
    count_one_or_two_by_division, fourth_power, last_four, remove_four, remove_two, write_four,
    write_pair_by_bytes,
};
use crate::digits::pairs::RadixTable;
use crate::turns::Turns;

// Returns the eighth power of the radix.
pub(super) fn eighth_power(radix: u32) -> u64
    requires { IsRadix radix }
    ensures { result ≡ radix ^ 8 }
{
    fourth_power(radix) * fourth_power(radix)
}

// Counts the one or two digits of a number by division, and writes them.
fn count_and_write_one_or_two<const R: u32>(
    number: u32,
    table: RadixTable<'_, R>,
    buffer: &mut [u8],
    turns: &mut Turns,
) -> usize
    requires below { number < R * R }
    requires room { digit_count R number ≤ length buffer.old }
    ensures digits { WritesDigits R number buffer.old buffer.new result }
    ensures notes { turns.new ≡ turns.old ++ slow_notes R number }
{
    let count = count_one_or_two_by_division(number, R, turns);
    write_pair_by_bytes(number, count, table, buffer);
    count
}

// Counts the one to four digits of a number by division, and writes them.
pub(super) fn count_and_write_up_to_four<const R: u32>(
    number: u32,
    table: RadixTable<'_, R>,
    buffer: &mut [u8],
    turns: &mut Turns,
    loop_turns: &mut Turns,
) -> usize
    requires below { number < R ^ 4 }
    requires room { digit_count R number ≤ length buffer.old }
    ensures digits { WritesDigits R number buffer.old buffer.new result }
    ensures notes { turns.new ≡ turns.old ++ slow_notes R number }
    ensures notes_in_loop { loop_turns.new ≡ loop_turns.old ++ loop_notes R number }
{
    let pair = remove_two::<R>(u64::from(number), loop_turns) as u32;
    if pair == 0 {
        return count_and_write_one_or_two(number, table, buffer, turns);
    }
    turns.tick(u64::from(pair));
    let head = count_and_write_one_or_two(pair, table, buffer, turns);
    table.write(number % (R * R), buffer, head);
    head + 2
}

// Counts five to eight digits by division, and writes them.
pub(super) fn count_and_write_five_to_eight<const R: u32>(
    value: u64,
    table: RadixTable<'_, R>,
    buffer: &mut [u8],
    turns: &mut Turns,
    loop_turns: &mut Turns,
) -> usize
    requires more { R ^ 4 ≤ value }
    requires below { value < R ^ 8 }
    requires room { digit_count R value ≤ length buffer.old }
    ensures digits { WritesDigits R value buffer.old buffer.new result }
    ensures notes { turns.new ≡ turns.old ++ slow_notes R value }
    ensures notes_in_loop { loop_turns.new ≡ loop_turns.old ++ loop_notes R value }
{
    let left = remove_four::<R>(value, loop_turns);
    turns.tick(left);
    let head = count_and_write_up_to_four(left as u32, table, buffer, turns, loop_turns);
    // With `last_four` LLVM would not inline this function for numbers of 8 bits.
    let last = value - left * fourth_power(R);
    write_four(last as u32, table, buffer, head);
    head + 4
}

// Counts up to eight digits by division, and writes them.
fn count_and_write_up_to_eight<const R: u32>(
    value: u64,
    table: RadixTable<'_, R>,
    buffer: &mut [u8],
    turns: &mut Turns,
    loop_turns: &mut Turns,
) -> usize
    requires below { value < R ^ 8 }
    requires room { digit_count R value ≤ length buffer.old }
    ensures digits { WritesDigits R value buffer.old buffer.new result }
    ensures notes { turns.new ≡ turns.old ++ slow_notes R value }
    ensures notes_in_loop { loop_turns.new ≡ loop_turns.old ++ loop_notes R value }
{
    if value < fourth_power(R) {
        count_and_write_up_to_four(value as u32, table, buffer, turns, loop_turns)
    } else {
        count_and_write_five_to_eight(value, table, buffer, turns, loop_turns)
    }
}

// Counts more than eight digits by division, and writes them: those before the last eight first, since only then the
// index of the last eight is known.
pub(super) fn count_and_write_above_eight<const R: u32>(
    value: u64,
    table: RadixTable<'_, R>,
    buffer: &mut [u8],
    turns: &mut Turns,
    loop_turns: &mut Turns,
) -> usize
    requires long { R ^ 8 ≤ value }
    requires room { digit_count R value ≤ length buffer.old }
    ensures digits { WritesDigits R value buffer.old buffer.new result }
    ensures notes { turns.new ≡ turns.old ++ slow_notes R value }
    ensures notes_in_loop { loop_turns.new ≡ loop_turns.old ++ loop_notes R value }
{
    let first = remove_four::<R>(value, loop_turns);
    let second = remove_four::<R>(first, loop_turns);
    turns.tick(first);
    turns.tick(second);
    let head = if second < eighth_power(R) {
        count_and_write_up_to_eight(second, table, buffer, turns, loop_turns)
    } else {
        count_and_write_above_eight(second, table, buffer, turns, loop_turns)
    };
    write_four(last_four::<R>(first), table, buffer, head);
    write_four(last_four::<R>(value), table, buffer, head + 4);
    head + 8
}
