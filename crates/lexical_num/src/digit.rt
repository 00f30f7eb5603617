//! The characters of digits.

ghost use Rattle.std.specs.Prelude.{◌≡◌, ◌<◌};
ghost use Rattle.lexical_num.specs.Digit.{digit_char};

// The characters of the digits, in order.
const CHARACTERS: [u8; 36] = *b"0123456789ABCDEFGHIJKLMNOPQRSTUVWXYZ";

/// Returns the character of a digit: `0` to `9` for a digit below ten, and `A` for 10 to `Z` for 35. The
/// digit is below 36.
///
/// # Panics
///
/// If the digit is 36 or above.
pub const fn digit_to_char(digit: u32) -> u8
    requires { digit < 36 }
    ensures { result ≡ digit_char digit }
{
    CHARACTERS[digit as usize]
}
