//! Counting the digits of a number, and then writing them, four at a time: for numbers of one or two digits, and for
//! the radices in which a count needs no division.

// `turns` is the counter for the notes of a count, and `loop_turns` that for the notes of the writing.
ghost use Rattle.std.specs.Prelude.{◌≡◌, ◌*◌, ◌^◌, ◌<◌, ◌≤◌, ◌++◌, length};
ghost use Rattle.lexical_num.specs.Format.{IsRadix};
ghost use Rattle.lexical_write_integer.specs.Buffer.{WritesDigits};
ghost use Rattle.lexical_write_integer.specs.DigitCount.{digit_count};
ghost use Rattle.lexical_write_integer.specs.LoopTurns.{count_notes, loop_notes, table_notes};

use super::steps::{
    count_one_or_two_by_division, fourth_power, last_four, note_up_to_four, remove_four,
    remove_two, write_four, write_pair_by_bytes, write_pair_by_word,
};
use crate::digits::count::{DigitCount, fast_log2, has_fast_count};
use crate::digits::pairs::RadixTable;
use crate::turns::Turns;

// Returns how many digits a number of three or four digits has.
fn count_three_or_four(number: u64, radix: u32) -> usize
    requires radix { IsRadix radix }
    requires more { radix ^ 2 ≤ number }
    requires below { number < radix ^ 4 }
    ensures count { result ≡ digit_count radix number }
    ensures three { 3 ≤ result }
    ensures four { result ≤ 4 }
{
    3 + usize::from(number >= u64::from(radix * radix * radix))
}

// Writes the three or four digits of a number to the start of the buffer, and returns how many there are: the first
// pair as two characters, of which the first is written over if it is a leading zero, and then the last pair.
fn write_three_or_four<const R: u32>(
    number: u64,
    table: RadixTable<'_, R>,
    buffer: &mut [u8],
    loop_turns: &mut Turns,
) -> usize
    requires more { R ^ 2 ≤ number }
    requires below { number < R ^ 4 }
    requires room { digit_count R number ≤ length buffer.old }
    ensures digits { WritesDigits R number buffer.old buffer.new result }
    ensures notes_in_loop { loop_turns.new ≡ loop_turns.old ++ loop_notes R number }
{
    let count = count_three_or_four(number, R);
    // rustc tests the end of these bytes once.
    let written = &mut buffer[..count];
    write_pair_by_word(
        remove_two::<R>(number, loop_turns),
        count - 2,
        table,
        written,
    );
    let pair = 2 * (number as u32 % (R * R)) as usize;
    // Both bytes are read first, so a compiler moves them as one number.
    let (third, fourth) = (table.pairs[pair], table.pairs[pair + 1]);
    written[count - 1] = fourth;
    written[count - 2] = third;
    count
}

// Returns how many digits a number has that is not 0. Its logarithm is faster than that of a number that may be 0.
pub(super) fn count_of_nonzero(value: u64, radix: u32) -> usize
    requires radix { IsRadix radix }
    requires some { 0 < value }
    ensures count { result ≡ digit_count radix value }
    ensures at_most_64 { result ≤ 64 }
{
    let bits = fast_log2(radix);
    if radix == 1 << bits {
        let log2 = value.ilog2() as usize;
        // By 4, which is a shift, the sum first takes fewer instructions.
        if radix == 16 {
            (log2 + bits) / bits
        } else {
            log2 / bits + 1
        }
    } else {
        value.digit_count(radix)
    }
}

// Returns how many digits a number of one or two digits has: by a division unless the radix has
// a fast count.
fn count_one_or_two_digits(number: u64, radix: u32, turns: &mut Turns) -> usize
    requires radix { IsRadix radix }
    requires below { number < radix ^ 2 }
    ensures count { result ≡ digit_count radix number }
    ensures notes { turns.new ≡ turns.old ++ count_notes radix number }
{
    if has_fast_count(radix) {
        1 + usize::from(number >= u64::from(radix))
    } else {
        count_one_or_two_by_division(number as u32, radix, turns)
    }
}

// Counts the one or two digits of a number, and writes them.
pub(super) fn write_one_or_two_digits<const R: u32>(
    number: u64,
    table: RadixTable<'_, R>,
    buffer: &mut [u8],
    turns: &mut Turns,
) -> usize
    requires below { number < R * R }
    requires room { digit_count R number ≤ length buffer.old }
    ensures digits { WritesDigits R number buffer.old buffer.new result }
    ensures notes { turns.new ≡ turns.old ++ table_notes R number }
{
    let count = count_one_or_two_digits(number, R, turns);
    write_pair_by_word(number, count, table, buffer);
    count
}

// Writes the one to four digits of a number, which are counted, to the start of the buffer.
fn write_up_to_four<const R: u32>(
    number: u32,
    digits: usize,
    table: RadixTable<'_, R>,
    buffer: &mut [u8],
    loop_turns: &mut Turns,
)
    requires below { number < R ^ 4 }
    requires digits { digits ≡ digit_count R number }
    requires room { digits ≤ length buffer.old }
    ensures digits { WritesDigits R number buffer.old buffer.new digits }
    ensures notes_in_loop { loop_turns.new ≡ loop_turns.old ++ loop_notes R number }
{
    if digits > 2 {
        write_three_or_four(u64::from(number), table, buffer, loop_turns);
    } else {
        write_pair_by_bytes(number, digits, table, buffer);
    }
}

// Writes a number of three digits or more. First it counts them, and then it writes four per iteration while more than
// four are left. At last it writes the first one to four digits. In a power of 2 these are found before the loop.
#[cold]
pub(super) fn count_then_write<const R: u32>(
    value: u64,
    table: RadixTable<'_, R>,
    buffer: &mut [u8],
    loop_turns: &mut Turns,
) -> usize
    requires more { R ^ 2 ≤ value }
    requires room { digit_count R value ≤ length buffer.old }
    ensures digits { WritesDigits R value buffer.old buffer.new result }
    ensures notes_in_loop { loop_turns.new ≡ loop_turns.old ++ loop_notes R value }
{
    if value < fourth_power(R) {
        return write_three_or_four(value, table, buffer, loop_turns);
    }
    let count = count_of_nonzero(value, R);
    // So rustc tests the end of the buffer once.
    prove!(count <= buffer.len(), "the buffer is too short");
    let bits = fast_log2(R);
    let first = if R == 1 << bits {
        last_four::<R>(value >> (bits * (count - 4)))
    } else {
        0
    };
    let mut left = value;
    let mut at = count;
    while at > 4 {
        at -= 4;
        write_four(last_four::<R>(left), table, buffer, at);
        left = remove_four::<R>(left, loop_turns);
    }
    if R == 1 << bits {
        // Its digits are those of `first`.
        note_up_to_four::<R>(left, loop_turns);
        write_four(first, table, buffer, 0);
    } else {
        write_up_to_four(left as u32, at, table, buffer, loop_turns);
    }
    count
}
