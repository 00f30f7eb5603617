//! Writes a number in radix 16 in lowercase.

ghost use Rattle.std.specs.Prelude.{◌≡◌, ◌/◌, ◌%◌, ◌<◌, ◌≤◌, ◌↔◌, length, map};
ghost use Rattle.std.specs.Char.{to_ascii_lowercase};
ghost use Rattle.lexical_num.specs.Digit.{digit_char};
ghost use Rattle.lexical_num.specs.Format.{standard};
ghost use Rattle.lexical_write_integer.specs.Buffer.{Writes};
ghost use Rattle.lexical_write_integer.specs.Computed.{padded_text, text_of};
ghost use Rattle.lexical_write_integer.specs.Lowercase.{IsLowercase};
ghost use Rattle.lexical_write_integer.specs.Text.{IsText};

use crate::integer::WideInteger;
use lexical_num::format::STANDARD;
use lexical_write_integer::digit_count::DigitCount;
use lexical_write_integer::sign_len;

// The characters of the last two digits of each number below 256.
const PAIRS: [u8; 512] = *b"\
    000102030405060708090a0b0c0d0e0f101112131415161718191a1b1c1d1e1f\
    202122232425262728292a2b2c2d2e2f303132333435363738393a3b3c3d3e3f\
    404142434445464748494a4b4c4d4e4f505152535455565758595a5b5c5d5e5f\
    606162636465666768696a6b6c6d6e6f707172737475767778797a7b7c7d7e7f\
    808182838485868788898a8b8c8d8e8f909192939495969798999a9b9c9d9e9f\
    a0a1a2a3a4a5a6a7a8a9aaabacadaeafb0b1b2b3b4b5b6b7b8b9babbbcbdbebf\
    c0c1c2c3c4c5c6c7c8c9cacbcccdcecfd0d1d2d3d4d5d6d7d8d9dadbdcdddedf\
    e0e1e2e3e4e5e6e7e8e9eaebecedeeeff0f1f2f3f4f5f6f7f8f9fafbfcfdfeff";

// Returns the characters of the last two digits of a number.
fn last_two(number: u64) -> (u8, u8)
    ensures first { result.0 ≡ to_ascii_lowercase (digit_char (number / 16 % 16)) }
    ensures second { result.1 ≡ to_ascii_lowercase (digit_char (number % 16)) }
{
    let index = 2 * (number % 256) as usize;
    (PAIRS[index], PAIRS[index + 1])
}

// Fills the text, which is not empty, with the last digits of a number, after zeros if it has fewer: the last two, and
// then the others by a call of itself, which rustc makes a loop.
fn fill_with_digits(number: u64, text: &mut [u8])
    requires { 1 ≤ length text.old }
    ensures { text.new ≡ map to_ascii_lowercase (padded_text 16 (length text.old) number) }
{
    // Both characters are read first, so a compiler moves them as one number.
    if text.len() > 2 {
        let start = text.len() - 2;
        let (first, second) = last_two(number);
        let pair = &mut text[start..];
        pair[0] = first;
        pair[1] = second;
        fill_with_digits(number / 256, &mut text[..start]);
    } else {
        // If there is only one digit, it is written over the first of these. This avoids a branch.
        let (first, second) = last_two(number);
        text[0] = first;
        text[text.len() - 1] = second;
    }
}

/// Writes a number in radix 16 in lowercase to the start of the buffer, and returns the length of its text. Returns 0
/// and leaves the buffer unchanged if the text does not fit.
pub fn write_hexadecimal<T: WideInteger>(value: T, buffer: &mut [u8]) -> usize
    ensures fits { 0 < result
        ↔ (length (text_of (T.number value) (record standard { mantissa_radix = 16 })) ≤ length buffer.old) }
    ensures text { 0 < result → Writes (IsLowercase (IsText (T.number value) (record standard { mantissa_radix = 16 })))
        buffer.old buffer.new result }
    ensures refused { result ≡ 0 → buffer.new ≡ buffer.old }
{
    value.in_range();
    let magnitude = value.magnitude();
    let sign = sign_len(value, &STANDARD);
    let end = sign + magnitude.digit_count(16);
    if end > buffer.len() {
        return 0;
    }
    // Without a sign the first digit is written over it.
    buffer[0] = b'-';
    fill_with_digits(magnitude, &mut buffer[sign..end]);
    end
}
