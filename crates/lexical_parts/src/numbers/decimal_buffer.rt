//! The text of a number as a `&str`, in a buffer of its own.

ghost use Rattle.std.specs.Fmt.{signed_decimal};
ghost use Rattle.std.specs.Prelude.{◌≡◌, ◌≤◌, length};
ghost use Rattle.lexical_num.specs.Format.{standard};
ghost use Rattle.lexical_write_integer.specs.Text.{IsText};

use crate::numbers::decimal::Decimal;
use crate::part::Part;
use lexical_write_integer::ToLexical;
use lexical_write_integer::laws::text_is_decimal;

/// A buffer for one number in decimal. It is long enough for every number of every type that this crate
/// writes.
///
/// ```
/// use lexical_parts::Buffer;
///
/// let mut buffer = Buffer::new();
/// assert_eq!(rt; buffer.format(-1234i32), "-1234");
/// assert_eq!(rt; buffer.format(u64::MAX), "18446744073709551615");
/// ```
#[derive(Debug, Clone, Copy, Drop)]
pub struct Buffer {
    bytes: [u8; 20],
}

impl Buffer {
    /// Returns a buffer of 20 bytes on the stack. It costs nearly nothing to make one for each number.
    pub fn new() -> Buffer {
        Buffer { bytes: [0; 20] }
    }

    /// Returns the number in decimal, with a `-` if it is negative.
    pub fn format<T: ToLexical>(&mut self, number: T) -> &str
        ensures text { IsText (T.number number) standard result.now }
        ensures decimal { result.now ≡ signed_decimal (T.number number) }
        ensures at_most { length result.now ≤ 20 }
    {
        let text = Decimal(number).to_str(&mut self.bytes);
        text_is_decimal(number, text.as_bytes());
        text
    }
}

impl Default for Buffer {
    fn default() -> Buffer {
        Buffer::new()
    }
}
