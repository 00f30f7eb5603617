//! The decimal writers. A number of 3 to 10 digits is multiplied by the reciprocal of a power of 100,
//! which makes it a fixed-point fraction. Each multiplication of the fraction by 100 then yields two
//! digits, so no digit needs a division. The algorithm is James Anhalt's jeaiii
//! (<https://github.com/jeaiii/itoa>); Lemire, Kaser and Kurz, "Faster Remainder by Direct Computation"
//! (2019), describe how digits are obtained from the fraction of a product with a reciprocal.

// Each `_counted` function notes in `turns` what an iteration computes: one number for each pair of digits after the
// first, and at most 9. Examples of the writers are in `crates/tests/src/integers/decimal_values.rt`, and
// of the kernels in `crates/tests/src/integers/kernel_values.rt`.
#![tactic(auto, using(crate::proofs::OfDigits::Count::DigitCounts::widths, crate::proofs::Buffers::Prefixes::digits_in_part), unfolding(crate::specs::DecimalTurns::decimal_notes_32))]

ghost use Rattle.std.specs.Prelude.{◌≡◌, ◌+◌, ◌-◌, ◌/◌, ◌^◌, ◌<◌, ◌≤◌, ◌++◌, length};
ghost use Rattle.lexical_write_integer.specs.Buffer.{WritesDigits};
ghost use Rattle.lexical_write_integer.specs.DecimalTurns.{decimal_notes, decimal_notes_32, decimal_notes_64};
ghost use Rattle.lexical_write_integer.specs.DigitCount.{digit_count};

use super::decimal_pairs::{write_below_100, write_last_ten, write_pairs};
pub use super::kernels::{
    fixed_2, fixed_4, fixed_6, fixed_8_nine, fixed_8_ten, fixed_8_wide, next2,
};
use crate::turns::Turns;
use lexical_num::num::UnsignedInteger;

// Writes the digits of a number of up to 32 bits.
fn write_32(n: u32, buffer: &mut [u8], turns: &mut Turns) -> usize
    requires { digit_count 10 n ≤ length buffer.old }
    ensures digits { WritesDigits 10 n buffer.old buffer.new result }
    ensures notes { turns.new ≡ turns.old ++ decimal_notes_32 n }
    ensures turns { length turns.new ≡ length turns.old + (result - 1) / 2 }
{
    if n < 100 {
        write_below_100(n, buffer)
    } else if n < 10_000 {
        write_pairs(fixed_2(n), 1, buffer, turns)
    } else if n < 1_000_000 {
        write_pairs(fixed_4(n), 2, buffer, turns)
    } else if n < 100_000_000 {
        write_pairs(fixed_6(n), 3, buffer, turns)
    } else {
        // Both kernels share one call, so the compiler makes one copy of its body.
        let fraction = if n < 1_000_000_000 {
            fixed_8_nine(n)
        } else {
            fixed_8_ten(n)
        };
        write_pairs(fraction, 4, buffer, turns)
    }
}

// Writes the digits of a number of more than ten digits: the last ten by division, after the digits before them.
#[cold]
fn write_more_than_ten(n: u64, buffer: &mut [u8], turns: &mut Turns) -> usize
    requires long { 10 ^ 10 ≤ n }
    requires room { digit_count 10 n ≤ length buffer.old }
    ensures digits { WritesDigits 10 n buffer.old buffer.new result }
    ensures notes { turns.new ≡ turns.old ++ decimal_notes_64 n }
    ensures turns { length turns.new ≡ length turns.old + (result - 1) / 2 }
{
    let front = write_32((n / 10_000_000_000) as u32, buffer, turns);
    write_last_ten(n, buffer, front, turns);
    front + 10
}

// Writes the digits of a number of up to 64 bits.
#[tactic(auto, using(crate::proofs::OfDigits::Count::DigitCounts::widths), unfolding(crate::specs::DecimalTurns::decimal_notes_64))]
fn write_64(n: u64, buffer: &mut [u8], turns: &mut Turns) -> usize
    requires { digit_count 10 n ≤ length buffer.old }
    ensures digits { WritesDigits 10 n buffer.old buffer.new result }
    ensures notes { turns.new ≡ turns.old ++ decimal_notes_64 n }
    ensures turns { length turns.new ≡ length turns.old + (result - 1) / 2 }
{
    // Short numbers are tested first, as in `write_32`: that mispredicts the fewest branches.
    if n < 10_000 {
        if n < 100 {
            write_below_100(n as u32, buffer)
        } else {
            write_pairs(fixed_2(n as u32), 1, buffer, turns)
        }
    } else if n < 1_000_000_000 {
        write_32(n as u32, buffer, turns)
    } else if n < 10_000_000_000 {
        write_pairs(fixed_8_wide(n), 4, buffer, turns)
    } else {
        write_more_than_ten(n, buffer, turns)
    }
}

// Writes the digits of a number of up to 32 bits. `strip` has rustc inline `write_32` into each caller. When rustc
// optimizes for size, it can keep this copy as one function.
fn shared_write_32(n: u32, buffer: &mut [u8], turns: &mut Turns) -> usize
    requires { digit_count 10 n ≤ length buffer.old }
    ensures digits { WritesDigits 10 n buffer.old buffer.new result }
    ensures notes { turns.new ≡ turns.old ++ decimal_notes_32 n }
    ensures turns { length turns.new ≡ length turns.old + (result - 1) / 2 }
{
    write_32(n, buffer, turns)
}

// Writes the digits of a number of up to 64 bits, as `shared_write_32` does those of one of up to 32 bits.
fn shared_write_64(n: u64, buffer: &mut [u8], turns: &mut Turns) -> usize
    requires { digit_count 10 n ≤ length buffer.old }
    ensures digits { WritesDigits 10 n buffer.old buffer.new result }
    ensures notes { turns.new ≡ turns.old ++ decimal_notes_64 n }
    ensures turns { length turns.new ≡ length turns.old + (result - 1) / 2 }
{
    write_64(n, buffer, turns)
}

/// Writes the digits of a number to the start of the buffer, and returns how many there are. The buffer has
/// room for 3 bytes.
///
/// # Panics
///
/// If the buffer is [too short](crate::conditions).
pub fn from_u8(n: u8, buffer: &mut [u8]) -> usize
    requires { 3 ≤ length buffer.old }
    ensures digits { WritesDigits 10 n buffer.old buffer.new result }
    ensures at_most { result ≤ 3 }
{
    from_u8_counted(n, buffer, &mut Turns::new())
}

/// Writes the digits of a number to the start of the buffer, and returns how many there are. The buffer has
/// room for 5 bytes.
///
/// # Panics
///
/// If the buffer is [too short](crate::conditions).
pub fn from_u16(n: u16, buffer: &mut [u8]) -> usize
    requires { 5 ≤ length buffer.old }
    ensures digits { WritesDigits 10 n buffer.old buffer.new result }
    ensures at_most { result ≤ 5 }
{
    from_u16_counted(n, buffer, &mut Turns::new())
}

/// Writes the digits of a number to the start of the buffer, and returns how many there are. The buffer has
/// room for 10 bytes.
///
/// # Panics
///
/// If the buffer is [too short](crate::conditions).
pub fn from_u32(n: u32, buffer: &mut [u8]) -> usize
    requires { 10 ≤ length buffer.old }
    ensures digits { WritesDigits 10 n buffer.old buffer.new result }
    ensures at_most { result ≤ 10 }
{
    from_u32_counted(n, buffer, &mut Turns::new())
}

/// Writes the digits of a number to the start of the buffer, and returns how many there are. The buffer has
/// room for 20 bytes.
///
/// # Panics
///
/// If the buffer is [too short](crate::conditions).
pub fn from_u64(n: u64, buffer: &mut [u8]) -> usize
    requires { 20 ≤ length buffer.old }
    ensures digits { WritesDigits 10 n buffer.old buffer.new result }
    ensures at_most { result ≤ 20 }
{
    from_u64_counted(n, buffer, &mut Turns::new())
}

/// Writes the digits of a number to the start of the buffer, and returns how many there are. The number is
/// below 10^19, as is the magnitude of each `i64`, and the buffer has room for 19 bytes.
///
/// # Panics
///
/// If the number is 10^19 or above, or if the buffer is [too short](crate::conditions).
pub fn from_i64(n: u64, buffer: &mut [u8]) -> usize
    requires number { n < 10 ^ 19 }
    requires room { 19 ≤ length buffer.old }
    ensures digits { WritesDigits 10 n buffer.old buffer.new result }
    ensures at_most { result ≤ 19 }
{
    from_i64_counted(n, buffer, &mut Turns::new())
}

/// Writes the digits of a number to the start of the buffer, and returns how many there are. The buffer has room for 3
/// bytes, and `turns` gets the notes.
pub fn from_u8_counted(n: u8, buffer: &mut [u8], turns: &mut Turns) -> usize
    requires { 3 ≤ length buffer.old }
    ensures digits { WritesDigits 10 n buffer.old buffer.new result }
    ensures notes { turns.new ≡ turns.old ++ decimal_notes_32 n }
    ensures turns { length turns.new ≡ length turns.old + (result - 1) / 2 }
    ensures at_most { result ≤ 3 }
    ensures few_turns { length turns.new ≤ length turns.old + 9 }
{
    // Just the room for the longest number, so one test of a length takes the place of one at each write.
    shared_write_32(u32::from(n), &mut buffer[..3], turns)
}

/// Writes the digits of a number to the start of the buffer, and returns how many there are. The buffer has room for 5
/// bytes, and `turns` gets the notes.
pub fn from_u16_counted(n: u16, buffer: &mut [u8], turns: &mut Turns) -> usize
    requires { 5 ≤ length buffer.old }
    ensures digits { WritesDigits 10 n buffer.old buffer.new result }
    ensures notes { turns.new ≡ turns.old ++ decimal_notes_32 n }
    ensures turns { length turns.new ≡ length turns.old + (result - 1) / 2 }
    ensures at_most { result ≤ 5 }
    ensures few_turns { length turns.new ≤ length turns.old + 9 }
{
    shared_write_32(u32::from(n), &mut buffer[..5], turns)
}

/// Writes the digits of a number to the start of the buffer, and returns how many there are. The buffer has room for 10
/// bytes, and `turns` gets the notes.
pub fn from_u32_counted(n: u32, buffer: &mut [u8], turns: &mut Turns) -> usize
    requires { 10 ≤ length buffer.old }
    ensures digits { WritesDigits 10 n buffer.old buffer.new result }
    ensures notes { turns.new ≡ turns.old ++ decimal_notes_32 n }
    ensures turns { length turns.new ≡ length turns.old + (result - 1) / 2 }
    ensures at_most { result ≤ 10 }
    ensures few_turns { length turns.new ≤ length turns.old + 9 }
{
    shared_write_32(n, &mut buffer[..10], turns)
}

/// Writes the digits of a number to the start of the buffer, and returns how many there are. The buffer has room for 20
/// bytes, and `turns` gets the notes.
pub fn from_u64_counted(n: u64, buffer: &mut [u8], turns: &mut Turns) -> usize
    requires { 20 ≤ length buffer.old }
    ensures digits { WritesDigits 10 n buffer.old buffer.new result }
    ensures notes { turns.new ≡ turns.old ++ decimal_notes_64 n }
    ensures turns { length turns.new ≡ length turns.old + (result - 1) / 2 }
    ensures at_most { result ≤ 20 }
    ensures few_turns { length turns.new ≤ length turns.old + 9 }
{
    shared_write_64(n, &mut buffer[..20], turns)
}

/// Writes the digits of a number to the start of the buffer, and returns how many there are. The number is below 10^19,
/// the buffer has room for 19 bytes, and `turns` gets the notes.
pub fn from_i64_counted(n: u64, buffer: &mut [u8], turns: &mut Turns) -> usize
    requires number { n < 10 ^ 19 }
    requires room { 19 ≤ length buffer.old }
    ensures digits { WritesDigits 10 n buffer.old buffer.new result }
    ensures notes { turns.new ≡ turns.old ++ decimal_notes_64 n }
    ensures turns { length turns.new ≡ length turns.old + (result - 1) / 2 }
    ensures at_most { result ≤ 19 }
    ensures few_turns { length turns.new ≤ length turns.old + 9 }
{
    prove!(
        n < 10_000_000_000_000_000_000,
        "the number is 10^19 or above"
    );
    shared_write_64(n, &mut buffer[..19], turns)
}
