//! A number in a column of a format string, such as `{:>20}`: its text with the fill before it, in one piece. The
//! standard library writes each character of the fill by itself.

ghost use Rattle.std.specs.Prelude.{false, [], IsTrue};
ghost use Rattle.std.specs.Fmt.{WritesStyledOnOk, formatter_spec, padded_integral};
ghost use Rattle.lexical_parts.specs.Cell.{IsShortCell};

use crate::layout::column::Right;
use crate::part::Part;
use std::fmt;

// Returns whether the format has the text, with the sign that it has, at the right of a column of at most 128
// characters of which each is a byte.
pub(crate) fn is_short_cell<W: fmt::Write>(f: &fmt::Formatter<W>, text: &str) -> bool
    ensures { IsTrue result → IsShortCell f.now text.now }
{
    let is_at_right = matches!(f.align(), None | Some(fmt::Alignment::Right));
    let has_only_ascii_fill = f.fill().is_ascii() && !f.sign_aware_zero_pad() && !f.sign_plus();
    is_at_right && has_only_ascii_fill && f.width().unwrap_or(0) <= 128 && text.len() <= 128
}

// Writes the text at the right of the column, as the standard library writes an integer.
pub(crate) fn write_cell<W: fmt::Write>(f: &mut fmt::Formatter<W>, text: &str) -> fmt::Result
    requires { IsShortCell f.old text.now }
    ensures { WritesStyledOnOk W.write_str_gives f.old result
        (padded_integral (formatter_spec f.old) false [] text.now) f.new }
{
    let mut buffer = [0; 128];
    let width = f.width().unwrap_or(0);
    let fill = f.fill() as u8;
    f.write_str(Right(text, width, fill).to_str(&mut buffer))
}
