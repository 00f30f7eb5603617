//! Writes numbers of any type in any format, and numbers of one type in a format of their own.

ghost use Rattle.std.specs.Prelude.{◌↔◌, ◌≤◌, IsSome, IfSome, Some, length, pos};
ghost use Rattle.lexical_num.specs.Format.{standard};
ghost use Rattle.lexical_num.specs.Size.{size_in};
ghost use Rattle.lexical_write_integer.specs.Text.{IsText};
ghost use Rattle.lexical_parts.specs.Sequence.{◌then◌, IsStr};

use lexical_parts::{Formatted, Part, formatted_room_suffices};
use lexical_write_integer::laws::size_suffices;
use lexical_write_integer::{
    BUFFER_SIZE, NumberFormat, NumberFormatBuilder, ToLexicalWithOptions, WriteOptions,
};

/// A number of bytes that is enough for a line with any number.
pub const LINE_SIZE: usize = BUFFER_SIZE + 1;

/// Returns a line with a number of any type in the format, which borrows the array.
pub fn line_of_any<'a, T: ToLexicalWithOptions>(
    number: T,
    format: &NumberFormat,
    buffer: &'a mut [u8; LINE_SIZE],
) -> &'a [u8]
    ensures { (IsText (T.number number) format.now then IsStr "\n") result.now }
{
    formatted_room_suffices(number, format);
    (Formatted(number, format), "\n").to_text(buffer)
}

/// Returns the text of the number in the format if the buffer has at least the length that
/// `buffer_size` returns, and `None` otherwise.
pub fn text_if_room<'a, T: ToLexicalWithOptions>(
    number: T,
    format: &NumberFormat,
    options: &T::Options,
    buffer: &'a mut [u8],
) -> Option<&'a [u8]>
    ensures some { IsSome result
        ↔ (size_in T.FORMATTED_SIZE T.FORMATTED_SIZE_DECIMAL format.now ≤ length buffer.old) }
    ensures text { IfSome result (λ text. IsText (T.number number) format.now text.now) }
{
    size_suffices(number, format);
    if buffer.len() < options.buffer_size::<T>(format) {
        return None;
    }
    Some(number.to_lexical_with_options(buffer, format, options))
}

/// Returns a number in radix 32, in groups of four digits with `_` between them, which borrows the array. No
/// number has a longer text than `3VV_VVVV`.
pub fn key(number: u32, buffer: &mut [u8; 8]) -> &str
    ensures { IsText (pos number) (record standard { mantissa_radix = 32; digit_grouping = Some (4, 95) })
        result.now }
{
    let format = NumberFormatBuilder::new()
        .mantissa_radix(32)
        .digit_grouping(4, b'_')
        .build_strict();
    Formatted(number, &format).to_str(buffer)
}
