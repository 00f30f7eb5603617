//! Counting the digits of a number in any radix.

ghost use Rattle.std.specs.Prelude.{◌≡◌, ◌+◌, ◌/◌, ◌^◌, ◌<◌, ◌≤◌, ◌↔◌, ◌++◌, [], ◌∷◌, IsTrue, IfNone, IfSome, length, ℕ};
ghost use Rattle.lexical_num.specs.Format.{IsRadix};
ghost use Rattle.lexical_num.specs.BitWidth.{IsBitWidth};
ghost use Rattle.lexical_write_integer.specs.DigitCount.{digit_count};
ghost use Rattle.lexical_write_integer.specs.LoopTurns.{IsStep, RemovesDigits, count_notes, count_turns};
ghost use Rattle.lexical_write_integer.specs.LoopTurns.{has_fast_count, slow_notes, slow_turns};

pub mod decimal_count;
pub mod logarithm;

use crate::turns::Turns;
use decimal_count::DecimalCount;
use lexical_num::limits::is_radix;
use lexical_num::num::UnsignedInteger;
pub use logarithm::fast_log2;

// Returns `radix.pow(exponent)`, or `None` if it does not fit in the type. Then every number of the type is
// smaller, so nothing is left to divide by it.
fn power_of<T: UnsignedInteger>(radix: u32, exponent: u32) -> Option<T>
    requires radix { IsRadix radix }
    requires exponent { IsStep exponent }
    ensures power { IfSome result (λ power. T.magnitude power ≡ radix ^ exponent) }
    ensures too_great { IfNone result (2 ^ T.BITS ≤ radix ^ exponent) }
{
    let power = radix.pow(exponent);
    if T::BITS >= 32 || power >> T::BITS == 0 {
        Some(T::from_u32(power))
    } else {
        None
    }
}

// Returns the quotient of the number and a power of the radix.
fn quotient<T: UnsignedInteger>(number: T, power: T, turns: &mut Turns) -> T
    requires { 0 < T.magnitude power }
    ensures left { T.magnitude result ≡ T.magnitude number / T.magnitude power }
    // The note is the quotient.
    ensures notes { turns.new ≡ turns.old ++ T.magnitude result ∷ [] }
{
    let (left, _) = number.div_rem(power);
    turns.tick(left.as_u64());
    left
}

// Removes the last `step` digits of the number per iteration, while it has more than `step` digits.
// Returns the remaining quotient and the number of digits that were removed.
fn remove_digits_by<T: UnsignedInteger>(
    value: T,
    radix: u32,
    step: u32,
    turns: &mut Turns,
) -> (T, usize)
    requires radix { IsRadix radix }
    requires step { IsStep step }
    // The notes are the quotients.
    ensures { RemovesDigits radix (T.magnitude value) step result.1 (T.magnitude result.0)
        turns.old turns.new }
{
    value.fits_bits();
    let Some(power) = power_of::<T>(radix, step) else {
        return (value, 0);
    };
    let mut left = value;
    let mut removed = 0;
    while left.is_at_least(power) {
        left = quotient(left, power, turns);
        removed += step as usize;
    }
    (left, removed)
}

/// Returns how many digits the number has. They are counted by division: four per iteration while more
/// than four are left, then two, and then one. The radix is from 2 to 36.
#[tactic(auto, using(crate::proofs::OfDigits::Count::RadixPowers::steps))]
pub fn slow_digit_count_counted<T: UnsignedInteger>(x: T, radix: u32, turns: &mut Turns) -> usize
    requires { IsRadix radix }
    ensures count { result ≡ digit_count radix (T.magnitude x) }
    ensures some { 1 ≤ result }
    ensures at_most_64 { result ≤ 64 }
    // The notes are the quotients.
    ensures notes { turns.new ≡ turns.old ++ slow_notes radix (T.magnitude x) }
    ensures turns { length turns.new ≡ length turns.old + slow_turns result }
{
    prove!(is_radix(radix as u64), "the radix is not from 2 to 36");
    x.fits_bits();
    let (left, by_four) = remove_digits_by(x, radix, 4, turns);
    let (left, by_two) = remove_digits_by(left, radix, 2, turns);
    let (_, by_one) = remove_digits_by(left, radix, 1, turns);
    1 + by_four + by_two + by_one
}

// Returns whether the digits in the radix are counted without division: from the highest set bit or with a table.
pub(crate) fn has_fast_count(radix: u32) -> bool
    ensures { result ≡ has_fast_count radix }
{
    radix == 2 || radix == 4 || radix == 8 || radix == 10 || radix == 16 || radix == 32
}

/// Returns how many digits the number has. They are counted from the highest set bit if the radix is a
/// power of 2, by `decimal_count` in radix 10, and otherwise by division. The radix is from 2 to 36.
#[tactic(auto, using(crate::proofs::OfDigits::Radix::Loops::Notes::none_noted))]
pub fn digit_count_counted<T: DecimalCount>(x: T, radix: u32, turns: &mut Turns) -> usize
    requires { IsRadix radix }
    ensures count { result ≡ digit_count radix (T.magnitude x) }
    ensures some { 1 ≤ result }
    ensures at_most_64 { result ≤ 64 }
    // The notes are the quotients.
    ensures notes { turns.new ≡ turns.old ++ count_notes radix (T.magnitude x) }
    ensures turns { length turns.new ≡ length turns.old + count_turns radix result }
{
    prove!(is_radix(radix as u64), "the radix is not from 2 to 36");
    x.fits_bits();
    match radix {
        2 => fast_log2(x) + 1,
        // By 2 and by 4, which are shifts, the sum first takes fewer instructions.
        4 => (fast_log2(x) + 2) / 2,
        8 => fast_log2(x) / 3 + 1,
        16 => (fast_log2(x) + 4) / 4,
        32 => fast_log2(x) / 5 + 1,
        10 => x.decimal_count(),
        _ => slow_digit_count_counted(x, radix, turns),
    }
}

/// Returns a number of digits that is enough for each number of the type in the radix, which is from 2 to 36. It takes
/// fewer instructions than to count the digits of one number, and may be more than the longest number has.
///
/// ```
/// use lexical_write_integer::digit_count::most_digits;
///
/// assert_eq!(rt; (most_digits::<u64>(36), most_digits::<u8>(10)), (13, 3));
/// ```
#[doc(hidden)]
pub fn most_digits<T: UnsignedInteger>(radix: u32) -> usize
    requires { IsRadix radix }
    ensures enough { (number : ℕ) → number < 2 ^ T.BITS → digit_count radix number ≤ result }
    ensures at_most_64 { result ≤ 64 }
{
    prove!(is_radix(radix as u64), "the radix is not from 2 to 36");
    // A digit has at least as many bits as the logarithm of the radix.
    (T::BITS - 1) / fast_log2(radix) + 1
}

/// An unsigned integer type whose digits are counted in every radix.
pub trait DigitCount: DecimalCount {
    /// Returns how many digits the number has. The radix is from 2 to 36.
    ///
    /// # Panics
    ///
    /// If the radix is not from 2 to 36.
    fn digit_count(self, radix: u32) -> usize
        requires { IsRadix radix }
        ensures count { result ≡ digit_count radix (Self.magnitude self) }
        ensures some { 1 ≤ result }
        ensures at_most_64 { result ≤ 64 }
    {
        digit_count_counted(self, radix, &mut Turns::new())
    }

    /// Returns how many digits the number has, as `digit_count` does, but counts them by division.
    /// The radix is from 2 to 36.
    ///
    /// # Panics
    ///
    /// If the radix is not from 2 to 36.
    fn slow_digit_count(self, radix: u32) -> usize
        requires { IsRadix radix }
        ensures count { result ≡ digit_count radix (Self.magnitude self) }
        ensures some { 1 ≤ result }
        ensures at_most_64 { result ≤ 64 }
    {
        slow_digit_count_counted(self, radix, &mut Turns::new())
    }
}

impl<T: DecimalCount> DigitCount for T {}
