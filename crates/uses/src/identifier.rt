//! Returns a counter as a short identifier, its digits in radix 36, or as one that sorts as its counter does.

ghost use Rattle.std.specs.Prelude.{◌≡◌, ◌≢◌, ◌^◌, ◌<◌, ◌↔◌, IsTrue, List, ℕ};
ghost use Rattle.lexical_write_integer.specs.Padded.{IsPadded};
ghost use Rattle.lexical_write_integer.specs.Text.{IsDigits};
ghost use Rattle.uses.specs.Link.{IsLink, IsUserLink};

use lexical_parts::{Digits, PaddedDigits, Part, same_parts};
use lexical_write_integer::laws::{
    different_digits, digit_count_at_most, digits_equal_iff, equal_digits, equal_padded,
    padded_order,
};
use lexical_write_integer::radix::Radix;
use std::cmp::Ordering;

/// Returns the identifier of the counter, which borrows the array. It has at most 13 digits.
pub fn identifier(counter: u64, buffer: &mut [u8; 13]) -> &[u8]
    ensures { IsDigits 36 counter result.now }
{
    digit_count_at_most(36, counter, 13);
    let count = counter.radix(36, buffer);
    &buffer[..count]
}

/// A law: two counters with equal identifiers are equal.
pub fn same_counter(a: u64, b: u64)
    ensures { (identifier : List ℕ) → IsDigits 36 a identifier → IsDigits 36 b identifier → a ≡ b }
{
    equal_digits(36, a, b);
}

/// Returns the link of the counter, such as `/l/RS` for 1000, which borrows the array.
pub fn link(counter: u64, buffer: &mut [u8; 16]) -> &str
    ensures { IsLink counter result.now }
{
    digit_count_at_most(36, counter, 13);
    ("/l/", Digits(36, counter)).to_str(buffer)
}

/// A law: two counters with equal links are equal.
pub fn same_link(first: u64, second: u64)
    ensures { (link : List ℕ) → IsLink first link → IsLink second link → first ≡ second }
{
    same_parts("/l/", "/l/", 3, Digits(36, first), Digits(36, second));
    equal_digits(36, first, second);
}

/// A law: two users with equal links, `/u/` and eight digits in radix 36, are equal.
pub fn same_user(first: u64, second: u64)
    ensures { (link : List ℕ) → IsUserLink first link → IsUserLink second link → first ≡ second }
{
    same_parts(
        "/u/",
        "/u/",
        3,
        PaddedDigits(36, first, 8),
        PaddedDigits(36, second, 8),
    );
    equal_padded(36, 8, first, second);
}

/// A law: two different orders have different codes, which are their digits in radix 32.
pub fn different_codes(a: u32, b: u32)
    ensures { a ≢ b → (code : List ℕ) → IsDigits 32 a code → ¬ (IsDigits 32 b code) }
{
    different_digits(32, a as u64, b as u64);
}

/// Returns whether two counters have the same identifier, which is the case if and only if they are
/// equal.
pub fn have_same_identifier(a: u64, b: u64) -> bool
    ensures { IsTrue result ↔ (a ≡ b) }
{
    let mut first = [0; 13];
    let mut second = [0; 13];
    let first = identifier(a, &mut first);
    let second = identifier(b, &mut second);
    digits_equal_iff(36, a, b, first, second);
    first == second
}

/// Returns the identifier of the counter in eight digits, with leading zeros, which borrows the array.
/// Identifiers that are sorted by their bytes are in the order of their counters.
pub fn sorted_identifier(counter: u64, buffer: &mut [u8; 8]) -> &[u8]
    requires { counter < 36 ^ 8 }
    ensures { IsPadded 36 8 counter result.now }
{
    PaddedDigits(36, counter, 8).to_text(buffer)
}

/// Returns whether the identifier of the first counter is earlier than that of the second in the order of
/// bytes, which is the case if and only if the first counter is smaller.
pub fn is_sorted_before(a: u64, b: u64) -> bool
    requires a { a < 36 ^ 8 }
    requires b { b < 36 ^ 8 }
    ensures { IsTrue result ↔ a < b }
{
    let mut first = [0; 8];
    let mut second = [0; 8];
    let first = sorted_identifier(a, &mut first);
    let second = sorted_identifier(b, &mut second);
    padded_order(36, 8, a, b, first, second);
    first.cmp(&second) == Ordering::Less
}
