//! Texts whose bytes the contract states as an equation, or by words.

ghost use Rattle.std.specs.Prelude.{◌≡◌, ◌<◌, ◌++◌, codes, pos};
ghost use Rattle.lexical_num.specs.Format.{standard};
ghost use Rattle.lexical_write_integer.specs.Computed.{digits_text, text_of};
ghost use Rattle.lexical_write_integer.specs.Padded.{IsPadded};
ghost use Rattle.lexical_parts.specs.Sequence.{◌then◌, IsStr};

use lexical_parts::{Hex, Padded, Part};
use lexical_write_integer::laws::text_computed;
use lexical_write_integer::{NumberFormatBuilder, Options, ToLexicalWithOptions};

/// Returns a million in decimal, with its sign and in groups of three digits, which borrows the array.
pub fn million(buffer: &mut [u8; 14]) -> &[u8]
    ensures { result.now ≡ codes "+1,000,000" }
{
    let format = NumberFormatBuilder::new()
        .required_mantissa_sign(true)
        .digit_grouping(3, b',')
        .build_strict();
    let text = 1000000u32.to_lexical_with_options(buffer, &format, &Options::new());
    text_computed(1000000u32, &format, text);
    text
}

/// Returns the year and the month, such as `2026-11`, which borrows the array.
pub fn year_month(year: u16, month: u8, buffer: &mut [u8; 7]) -> &[u8]
    requires year { year < 10000 }
    requires month { month < 100 }
    ensures { (IsPadded 10 4 year then IsStr "-" then IsPadded 10 2 month) result.now }
{
    (Padded(year, 4), "-", Padded(month, 2)).to_text(buffer)
}

/// Returns the number and the mask, such as `7 0xFF`, which borrow the array.
pub fn number_and_mask(number: u32, mask: u16, buffer: &mut [u8; 17]) -> &[u8]
    ensures { result.now ≡ text_of (pos number) standard ++ (codes " 0x" ++ digits_text 16 mask) }
{
    (number, " 0x", Hex(mask)).to_text(buffer)
}
