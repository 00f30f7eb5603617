//! Laws on digits before a number with leading zeros, such as those of a number of several words.

ghost use Rattle.std.specs.Prelude.{◌+◌, ◌*◌, ◌^◌, ◌<◌, List, ℕ, pos};
ghost use Rattle.lexical_num.specs.Format.{standard};
ghost use Rattle.lexical_write_integer.specs.Padded.{IsPadded};
ghost use Rattle.lexical_write_integer.specs.Sequence.{Then};
ghost use Rattle.lexical_write_integer.specs.Text.{IsDigits, IsText};

/// A law: the digits of `high`, which is not 0, and then `low` in `width` digits, are the digits of one number.
pub fn digits_then_padded(radix: u32, high: u64, width: usize, low: u64)
    requires { 0 < high }
    ensures { (text : List ℕ) → Then (IsDigits radix high) (IsPadded radix width low) text
        → IsDigits radix (high * radix ^ width + low) text }
{}

/// A law: `high` in `first` digits and then `low` in `width` digits are one number with leading zeros.
pub fn padded_then_padded(radix: u32, first: usize, high: u64, width: usize, low: u64)
    ensures { (text : List ℕ) → Then (IsPadded radix first high) (IsPadded radix width low) text
        → IsPadded radix (first + width) (high * radix ^ width + low) text }
{}

/// A law: `high`, which is not 0, in decimal, and then `low` in `width` digits, are one number in decimal.
pub fn decimal_then_padded(high: u64, width: usize, low: u64)
    requires { 0 < high }
    ensures { (text : List ℕ) → Then (IsText (pos high) standard) (IsPadded 10 width low) text
        → IsText (pos (high * 10 ^ width + low)) standard text }
{}
