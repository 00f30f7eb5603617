//! Decimal digits without division. A kernel converts a number to a fixed-point fraction with 32 bits
//! after the point. The whole part of the fraction is the first pair of the number's digits. When the
//! rest is multiplied by 100, the next pair becomes the whole part.

ghost use Rattle.std.specs.Prelude.{◌≡◌, ℕ, ◌-◌, ◌*◌, ◌/◌, ◌%◌, ◌^◌, ◌<◌, ◌≤◌};
ghost use Rattle.lexical_write_integer.specs.Carries.{Carries};

/// Returns the fraction of a number below 10^4: its first pair of digits, and one pair after it.
///
/// # Panics
///
/// If the number is not in this range.
pub fn fixed_2(n: u32) -> u64
    requires { n < 10 ^ 4 }
    ensures number { result ≡ n * 42949673 }
    ensures carries { Carries n result 1 }
{
    prove!(n < 10_000);
    u64::from(n) * 42_949_673
}

/// Returns the fraction of a number below 10^6: its first pair of digits, and two pairs after it.
///
/// # Panics
///
/// If the number is not in this range.
pub fn fixed_4(n: u32) -> u64
    requires { n < 10 ^ 6 }
    ensures number { result ≡ n * 429497 }
    ensures carries { Carries n result 2 }
{
    prove!(n < 1_000_000);
    u64::from(n) * 429_497
}

/// Returns the fraction of a number from 10^6 to below 10^8: its first pair of digits, which is a single
/// digit below 10^7, and three pairs after it.
///
/// # Panics
///
/// If the number is not in this range.
pub fn fixed_6(n: u32) -> u64
    requires at_least { 10 ^ 6 ≤ n }
    requires below { n < 10 ^ 8 }
    ensures number { result ≡ n * 281474978 / 2 ^ 16 }
    ensures carries { Carries n result 3 }
{
    prove!(n >= 1_000_000);
    prove!(n < 100_000_000);
    (u64::from(n) * 281_474_978) >> 16
}

/// Returns the fraction of a number of nine digits: its first pair of digits, which is a single
/// digit, and four pairs after it.
///
/// # Panics
///
/// If the number is not in this range.
pub fn fixed_8_nine(n: u32) -> u64
    requires at_least { 10 ^ 8 ≤ n }
    requires below { n < 10 ^ 9 }
    ensures number { result ≡ n * 1441151882 / 2 ^ 25 }
    ensures carries { Carries n result 4 }
{
    prove!(n >= 100_000_000);
    prove!(n < 1_000_000_000);
    (u64::from(n) * 1_441_151_882) >> 25
}

/// Returns the fraction of a number of ten digits that fits in 32 bits: its first pair of digits, and
/// four pairs after it.
///
/// # Panics
///
/// If the number is not in this range.
pub fn fixed_8_ten(n: u32) -> u64
    requires { 10 ^ 9 ≤ n }
    ensures number { result ≡ n * 1441151881 / 2 ^ 25 }
    ensures carries { Carries n result 4 }
{
    prove!(n >= 1_000_000_000);
    // The multiplier for nine digits is 1 more: with it, 4,294,967,295 would end in 8.
    (u64::from(n) * 1_441_151_881) >> 25
}

/// Returns the fraction of a number of ten digits: its first pair of digits, and four pairs after it.
///
/// # Panics
///
/// If the number is not in this range.
pub fn fixed_8_wide(n: u64) -> u64
    requires at_least { 10 ^ 9 ≤ n }
    requires below { n < 10 ^ 10 }
    ensures number { result ≡ n * 11529215047 / 2 ^ 28 }
    ensures carries { Carries n result 4 }
{
    prove!(n >= 1_000_000_000);
    prove!(n < 10_000_000_000);
    // The product needs more than 64 bits.
    ((u128::from(n) * 11_529_215_047) >> 28) as u64
}

/// Returns the next pair of digits of a fraction. The part after the point is multiplied by 100, and
/// the whole part of the product is the pair.
pub fn next2(prod: &mut u64) -> u32
    ensures product { prod.new ≡ prod.old % 2 ^ 32 * 100 }
    ensures pair { result ≡ prod.new / 2 ^ 32 }
    ensures below { result < 100 }
    // If the old fraction carries a number, the new one carries the digits after its first pair, and
    // the result is the first pair of those.
    ensures carries { (n k : ℕ) → 1 ≤ k → Carries n prod.old k
        → Carries (n % 100 ^ k) prod.new (k - 1) }
    ensures next_pair { (n k : ℕ) → 1 ≤ k → Carries n prod.old k
        → result ≡ n % 100 ^ k / 100 ^ (k - 1) }
{
    *prod = (*prod & 0xFFFF_FFFF) * 100;
    (*prod >> 32) as u32
}
