//! Returns the two hexadecimal digits of a byte.

ghost use Rattle.std.specs.Prelude.{◌≡◌, ◌/◌, ◌%◌, [], ◌∷◌};
ghost use Rattle.lexical_num.specs.Digit.{digit_char};

use lexical_tables::get_table;

/// Returns the two digits of the byte in radix 16, with a leading zero if it is below 16.
pub fn digit_pair(byte: u8) -> [u8; 2]
    ensures { result ≡ digit_char (byte / 16) ∷ digit_char (byte % 16) ∷ [] }
{
    let table = get_table(16);
    let first = 2 * usize::from(byte);
    [table[first], table[first + 1]]
}
