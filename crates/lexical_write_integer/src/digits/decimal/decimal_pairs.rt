//! Writing pairs of decimal digits from the table of radix 10.

ghost use Rattle.std.specs.Prelude.{◌≡◌, ◌+◌, ◌-◌, ◌*◌, ◌/◌, ◌%◌, ◌^◌, ◌<◌, ◌≤◌, [], ◌∷◌, ◌++◌, length, drop};
ghost use Rattle.lexical_num.specs.Digit.{digit_char};
ghost use Rattle.lexical_write_integer.specs.Buffer.{WritesBlock, WritesDigits};
ghost use Rattle.lexical_write_integer.specs.Carries.{carried};
ghost use Rattle.lexical_write_integer.specs.DecimalTurns.{products, pairs_from_back};
ghost use Rattle.lexical_write_integer.specs.DigitCount.{digit_count};

use super::kernels::next2;
use crate::digits::pairs::RadixTable;
use crate::turns::Turns;

// The digits of each number below 100, with a zero after a single one.
const LEFT_ALIGNED_PAIRS: [u8; 200] = *b"\
    00102030405060708090\
    10111213141516171819\
    20212223242526272829\
    30313233343536373839\
    40414243444546474849\
    50515253545556575859\
    60616263646566676869\
    70717273747576777879\
    80818283848586878889\
    90919293949596979899";

// Returns the digits of a number below 100, and in the place of the second digit a zero if there is only one.
fn first_pair(pair: u32) -> (u8, u8)
    requires { pair < 100 }
    ensures one { pair < 10 → result.0 ≡ digit_char pair }
    ensures two { 10 ≤ pair → (result.0 ≡ digit_char (pair / 10)) × (result.1 ≡ digit_char (pair % 10)) }
{
    let index = 2 * pair as usize;
    (LEFT_ALIGNED_PAIRS[index], LEFT_ALIGNED_PAIRS[index + 1])
}

/// Writes the one or two digits of a number below 100 to the start of the buffer, and returns how many
/// there are.
pub(crate) fn write_below_100(pair: u32, buffer: &mut [u8]) -> usize
    requires pair { pair < 100 }
    requires room { digit_count 10 pair ≤ length buffer.old }
    ensures digits { WritesDigits 10 pair buffer.old buffer.new result }
    ensures some { 1 ≤ result }
    ensures at_most_2 { result ≤ 2 }
{
    // A single digit is written over the zero after it, to avoid a branch.
    let is_pair = pair >= 10;
    let (first, second) = first_pair(pair);
    buffer[is_pair as usize] = second;
    buffer[0] = first;
    1 + is_pair as usize
}

// Writes the one or two digits of a number below 100 to the start of the buffer, and returns how many there are. After
// a single digit it writes a zero, which the next digits replace.
fn write_first_pair(pair: u32, buffer: &mut [u8]) -> usize
    requires pair { pair < 100 }
    requires room { 2 ≤ length buffer.old }
    // The old buffer is not named, because the byte after a single digit changes.
    ensures digits { WritesDigits 10 pair buffer.new buffer.new result }
    ensures rest { drop 2 buffer.new ≡ drop 2 buffer.old }
    ensures some { 1 ≤ result }
    ensures at_most_2 { result ≤ 2 }
{
    let (first, second) = first_pair(pair);
    buffer[1] = second;
    buffer[0] = first;
    1 + (pair >= 10) as usize
}

/// Writes the digits of the number that a fraction carries to the start of the buffer, and returns how
/// many there are. They are the whole part of the fraction, which has one or two digits, and
/// `pair_count` pairs after it. Each of these pairs takes one iteration, in which `next2` computes a product.
pub(crate) fn write_pairs(
    fraction: u64,
    pair_count: usize,
    buffer: &mut [u8],
    turns: &mut Turns,
) -> usize
    requires some { 1 ≤ pair_count }
    requires first { 1 ≤ fraction / 2 ^ 32 }
    requires below { fraction / 2 ^ 32 < 100 }
    requires room { digit_count 10 (carried fraction pair_count) ≤ length buffer.old }
    ensures digits { WritesDigits 10 (carried fraction pair_count) buffer.old buffer.new result }
    ensures notes { turns.new ≡ turns.old ++ products fraction pair_count }
    ensures turns { length turns.new ≡ length turns.old + (result - 1) / 2 }
{
    let mut count = write_first_pair((fraction >> 32) as u32, buffer);
    let table = RadixTable::<10>::new();
    let mut rest = fraction;
    for _ in 0..pair_count {
        let pair = next2(&mut rest);
        turns.tick(rest);
        table.write(pair, buffer, count);
        count += 2;
    }
    count
}

// Writes the two digits of a number below 100 at index `at`.
fn write_pair_at(pair: u32, buffer: &mut [u8], at: usize, turns: &mut Turns)
    requires pair { pair < 100 }
    requires room { at + 2 ≤ length buffer.old }
    ensures block { WritesBlock 10 2 pair at buffer.old buffer.new }
    // The note is the number.
    ensures notes { turns.new ≡ turns.old ++ pair ∷ [] }
{
    RadixTable::<10>::new().write(pair, buffer, at);
    turns.tick(u64::from(pair));
}

// Writes a number below 10000 as four digits at index `at`, with leading zeros. The last pair is first.
fn write_four_at(number: u32, buffer: &mut [u8], at: usize, turns: &mut Turns)
    requires number { number < 10 ^ 4 }
    requires room { at + 4 ≤ length buffer.old }
    ensures block { WritesBlock 10 4 number at buffer.old buffer.new }
    // There is a note for each of its two pairs.
    ensures notes { turns.new ≡ turns.old ++ pairs_from_back number 2 }
{
    write_pair_at(number % 100, buffer, at + 2, turns);
    write_pair_at(number / 100, buffer, at, turns);
}

/// Writes the last ten digits of a number at index `at`. The last pair is first.
pub(crate) fn write_last_ten(number: u64, buffer: &mut [u8], at: usize, turns: &mut Turns)
    requires { at + 10 ≤ length buffer.old }
    ensures block { WritesBlock 10 10 (number % 10 ^ 10) at buffer.old buffer.new }
    // There is a note for each of their five pairs.
    ensures notes { turns.new ≡ turns.old ++ pairs_from_back number 5 }
{
    let low = number % 10_000_000_000;
    let front = (low / 10_000) as u32;
    write_four_at((low % 10_000) as u32, buffer, at + 6, turns);
    write_four_at(front % 10_000, buffer, at + 2, turns);
    write_pair_at(front / 10_000, buffer, at, turns);
}

/// Writes the digits of a number with leading zeros over the whole buffer, two at a time and the last ones first. The
/// number is below 10 to the power of the length of the buffer.
pub(crate) fn write_decimal_block(number: u64, buffer: &mut [u8])
    requires { number < 10 ^ length buffer.old }
    ensures { WritesBlock 10 (length buffer.old) number 0 buffer.old buffer.new }
{
    let table = RadixTable::<10>::new();
    let mut left = number;
    let mut at = buffer.len();
    while at > 1 {
        at -= 2;
        table.write((left % 100) as u32, buffer, at);
        left /= 100;
    }
    if at == 1 {
        buffer[0] = b'0' + left as u8;
    }
}
