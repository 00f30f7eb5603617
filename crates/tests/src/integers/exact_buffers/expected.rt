//! Computes the expected texts by repeated division.

ghost use Rattle.std.specs.Prelude.{◌≤◌};

use lexical_write_integer::NumberFormat;

const DIGITS: &[u8; 36] = b"0123456789ABCDEFGHIJKLMNOPQRSTUVWXYZ";

// The length of the longest text: a sign, 64 digits, and a separator between adjacent digits.
const LONGEST: usize = 128;

// The expected text of a number, at the end of an array that is long enough for every text. `text` is the
// index at which the text begins, and `digits` the index at which its digits begin.
#[derive(Drop)]
pub(crate) struct Expected {
    bytes: [u8; LONGEST],
    text: usize,
    digits: usize,
    ghost text_within: { text ≤ 128 },
    ghost digits_within: { digits ≤ 128 },
}

impl Expected {
    // Returns the text of the number with this sign and magnitude.
    pub(crate) fn new(is_negative: bool, magnitude: u64, format: &NumberFormat) -> Expected {
        let mut bytes = [0; LONGEST];
        let digits = fill_digits(&mut bytes, magnitude, format);
        let mut text = digits;
        if is_negative {
            text -= 1;
            bytes[text] = b'-';
        } else if format.required_mantissa_sign() {
            text -= 1;
            bytes[text] = b'+';
        }
        Expected {
            bytes,
            text,
            digits,
        }
    }

    // Returns the sign and the digits.
    pub(crate) fn text(&self) -> &[u8] {
        &self.bytes[self.text..]
    }

    // Returns the digits without the sign.
    pub(crate) fn digits(&self) -> &[u8] {
        &self.bytes[self.digits..]
    }
}

// Writes the digits and the separators between their groups to the end of the array, the last digit first,
// and returns the index at which they begin.
fn fill_digits(bytes: &mut [u8; LONGEST], magnitude: u64, format: &NumberFormat) -> usize
    ensures after_sign { 1 ≤ result }
    ensures within { result ≤ 128 }
{
    let radix = u64::from(format.mantissa_radix());
    // No number has more than 64 digits, so with groups of 64 there is no separator.
    let (size, mark) = format.digit_grouping().unwrap_or((64, 0));
    let mut rest = magnitude;
    let mut start = LONGEST;
    for count in 0..64usize {
        if count > 0 && count % usize::from(size) == 0 {
            start -= 1;
            bytes[start] = mark;
        }
        start -= 1;
        bytes[start] = DIGITS[(rest % radix) as usize];
        rest /= radix;
        if rest == 0 {
            return start;
        }
    }
    start
}
