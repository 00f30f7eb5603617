//! Writes prices with a unit, and shows by laws that equal texts are of equal prices.

ghost use Rattle.std.specs.Prelude.{◌≡◌, List, ℕ, pos};
ghost use Rattle.lexical_write_integer.specs.Buffer.{Writes};
ghost use Rattle.lexical_write_integer.specs.InCommon.{HaveInCommon};
ghost use Rattle.lexical_parts.specs.Fixed.{IsFixed};
ghost use Rattle.lexical_parts.specs.Sequence.{◌then◌, IsStr};

use lexical_parts::{Fixed, Part, equal_amounts, fixed_has_no, same_before, same_split};

/// Writes a price in cents with its unit, such as `19.95 EUR`, to the start of the array, and returns the
/// number of bytes written. The bytes after them are unchanged.
pub fn write_price(cents: u32, buffer: &mut [u8; 15]) -> usize
    ensures { Writes (IsFixed 2 (pos cents) then IsStr " EUR") buffer.old buffer.new result }
{
    (Fixed(cents, 2), " EUR").write_to(buffer)
}

/// A law: two prices with equal texts are equal.
pub fn same_price(a: u32, b: u32)
    ensures { (text : List ℕ) → (IsFixed 2 (pos a) then IsStr " EUR") text
        → (IsFixed 2 (pos b) then IsStr " EUR") text → a ≡ b }
{
    equal_amounts(a, b, 2, " EUR");
}

/// A law: if two rows begin with a price and a comma, and have equal texts, so have their prices.
pub fn same_first_price<P: Part, Q: Part>(a: u32, b: u32, p: P, q: Q)
    ensures { (text : List ℕ) → (IsFixed 2 (pos a) then IsStr "," then P.is_text p) text
        → (IsFixed 2 (pos b) then IsStr "," then Q.is_text q) text
        → HaveInCommon (IsFixed 2 (pos a)) (IsFixed 2 (pos b)) }
{
    fixed_has_no(a, 2, b',');
    fixed_has_no(b, 2, b',');
    same_split(Fixed(a, 2), Fixed(b, 2), b',', p, q);
}

/// A law: if two weights in kilograms have equal texts, so have their numbers, whatever parts they are.
pub fn same_weight<P: Part, Q: Part>(a: P, b: Q)
    ensures { (text : List ℕ) → (P.is_text a then IsStr " kg") text → (Q.is_text b then IsStr " kg") text
        → HaveInCommon (P.is_text a) (Q.is_text b) }
{
    same_before(a, b, " kg");
}
