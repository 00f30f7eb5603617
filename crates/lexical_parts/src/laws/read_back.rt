//! Laws on texts of parts that std reads back.

ghost use Rattle.std.specs.Prelude.{◌≡◌, None};
ghost use Rattle.lexical_write_integer.specs.Read.{AreReadAs};
ghost use Rattle.lexical_write_integer.specs.Text.{IsText};
ghost use Rattle.lexical_parts.specs.Fixed.{IsFixed};
ghost use Rattle.lexical_parts.specs.Without.{IsWithout};
ghost use Rattle.lexical_parts.specs.ZeroPadded.{IsZeroPadded};

use lexical_num::format::NumberFormat;
use lexical_num::num::LexicalInteger;

/// A law: without its point the text of a `Fixed` is read back by std as its number of units: `-0.05` as -5.
pub fn fixed_read_back<T: LexicalInteger>(number: T, decimals: usize)
    ensures { AreReadAs 10 (T.number number) (IsWithout 46 (IsFixed decimals (T.number number))) }
{}

/// A law: std reads a number in a format without groups back also from its text in a `ZeroPadded`: `-00042` as -42.
pub fn zero_padded_read_back<T: LexicalInteger>(number: T, format: &NumberFormat, width: usize)
    requires { format.now.digit_grouping ≡ None }
    ensures { AreReadAs format.now.mantissa_radix (T.number number)
        (IsZeroPadded width (IsText (T.number number) format.now)) }
{
    format.in_range();
}
