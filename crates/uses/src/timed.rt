//! Returns an identifier that begins with a time, and sorts as its time does.

ghost use Rattle.std.specs.Prelude.{◌≡◌, ◌^◌, ◌<◌, List, ℕ};
ghost use Rattle.lexical_write_integer.specs.Order.{IsEarlier};
ghost use Rattle.uses.specs.Timed.{IsTimed};

use lexical_parts::{PaddedDigits, Part, equal_padded_pairs, padded_decides};

/// Returns the time in nine digits of radix 36, and the number in four, which borrow the array.
pub fn timed_identifier(time: u64, number: u32, buffer: &mut [u8; 13]) -> &[u8]
    requires time { time < 36 ^ 9 }
    requires number { number < 36 ^ 4 }
    ensures { IsTimed time number result.now }
{
    (PaddedDigits(36, time, 9), PaddedDigits(36, number, 4)).to_text(buffer)
}

/// A law: an identifier of an earlier time is earlier in the order of bytes.
pub fn sorts_by_time(a: u64, b: u64, m: u32, n: u32)
    ensures { a < b → (s t : List ℕ) → IsTimed a m s → IsTimed b n t → IsEarlier s t }
{
    padded_decides(36, 9, a, b, PaddedDigits(36, m, 4), PaddedDigits(36, n, 4));
}

/// A law: equal identifiers have the same time and the same number.
pub fn same_timed(a: u64, b: u64, m: u64, n: u64)
    ensures time { (text : List ℕ) → IsTimed a m text → IsTimed b n text → a ≡ b }
    ensures number { (text : List ℕ) → IsTimed a m text → IsTimed b n text → m ≡ n }
{
    equal_padded_pairs(36, 9, a, b, 4, m, n);
}
