//! Returns a number in hexadecimal after `0x`.

ghost use Rattle.std.specs.Prelude.{◌≡◌, ◌++◌, codes};
ghost use Rattle.lexical_write_integer.specs.Computed.{digits_text};

use lexical_parts::{Hex, Part};
use lexical_write_integer::laws::digits_computed;

/// Returns `0x` and the number in radix 16, as a text that borrows the array.
pub fn hexadecimal(number: u32, buffer: &mut [u8; 10]) -> &[u8]
    ensures { result.now ≡ codes "0x" ++ digits_text 16 number }
{
    let text = ("0x", Hex(number)).to_text(buffer);
    digits_computed(16, u64::from(number), &text[2..]);
    text
}
