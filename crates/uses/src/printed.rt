//! Returns the text of a number as a `&str`, and as a `String` that a format string makes.

ghost use Rattle.std.specs.Prelude.{◌≡◌, ◌^◌, ◌-◌, ◌++◌, IfOk, codes, false, [], string_bytes};
ghost use Rattle.std.specs.Fmt.{format_spec, padded_integral, signed_decimal};
ghost use Rattle.lexical_write_integer.specs.Computed.{digits_text, text_of};

use lexical_parts::{Formatted, Hex};
use lexical_write_integer::format::STANDARD;
use lexical_write_integer::laws::{text_is_ascii, text_is_decimal};
use lexical_write_integer::{NumberFormat, ToLexical};
use std::alloc::{AllocError, Global};

/// Returns the text that `{}` prints for the number, which borrows the array.
pub fn printed(number: i32, buffer: &mut [u8; 11]) -> &str
    ensures { result.now ≡ signed_decimal number }
{
    let text = number.to_lexical(buffer);
    text_is_ascii(number, &STANDARD, text);
    text_is_decimal(number, text);
    std::str::from_utf8(text).unwrap()
}

/// Returns the flags in radix 16, after `0x` and at the right of a column of eight characters with `*` before them.
/// The numbers of `format_spec` are the fill, the alignment to the right, no zeros, the width and no precision.
pub fn flags_in_column(alloc: Global, flags: u32) -> Result<String, AllocError>
    ensures { IfOk result (λ text. string_bytes text
        ≡ codes "0x" ++ padded_integral (format_spec 42 3 0 8 (2 ^ 64 - 1)) false [] (digits_text 16 flags)) }
{
    format!(in alloc; "0x{:*>8}", Hex(flags))
}

/// Returns an amount in a format.
pub fn amount_string(
    alloc: Global,
    amount: i64,
    format: &NumberFormat,
) -> Result<String, AllocError>
    ensures { IfOk result (λ text. string_bytes text ≡ text_of amount format.now) }
{
    Formatted(amount, format).to_string(alloc)
}
