//! Parts in a format string with the options of a `&str`: those whose text is not that of one number, and `Scientific`.

ghost use Rattle.std.specs.Fmt.{DisplaysOnOk, DisplaysStyledOnOk, HasWrittenStyled, IsFlush, WritesStyledOnOk, char_count, fill_text, formatter_spec};
ghost use Rattle.std.specs.Fmt.{padded, padding_before, styled_text, take_chars};
ghost use Rattle.std.specs.Prelude.{◌≡◌, ℕ, ◌-◌, ◌<◌, ◌≤◌, ◌^◌, IfOk, IsOk, IsTrue, List, Some};
ghost use Rattle.lexical_parts.specs.Column.{centered_text, left_text, right_text};
ghost use Rattle.lexical_parts.specs.HexBytes.{hex_bytes_text};
ghost use Rattle.lexical_parts.specs.Joined.{joined_text};
ghost use Rattle.lexical_parts.specs.Lower.{lower_text};
ghost use Rattle.lexical_parts.specs.Optional.{or_else_text};
ghost use Rattle.lexical_parts.specs.Scientific.{scientific_text};
ghost use Rattle.lexical_parts.specs.ShownParts.{IsAligned, ShowsSomeOnOk, aligned_text};
ghost use Rattle.lexical_parts.specs.ZeroPadded.{zero_padded_text};

use crate::formatting::cut::{Nowhere, write_first_chars};
use crate::layout::column::{Center, Left, Right};
use crate::layout::joined::Joined;
use crate::layout::zero_padded::ZeroPadded;
use crate::numbers::scientific::Scientific;
use crate::show::Show;
use crate::texts::hex_bytes::HexBytes;
use crate::texts::lower::Lower;
use crate::texts::option::OrElse;
use lexical_write_integer::ToLexical;
use std::fmt;

/// A tuple of parts, or another part, in a format string.
///
/// A width, a fill and a precision work as for a `&str`, even if the part is a number: `{:3}` of `Shown(5u8)` writes
/// `5` and two spaces, and `{:03}` does the same. For zeros write the number without `Shown`, such as `{:03}` of
/// `Hex(5u8)`.
///
/// # Errors
///
/// `fmt` returns an error, so `format!` and `println!` panic, if a part in it is not valid, or if it contains a byte
/// that `to_str` refuses. It also returns the error of the writer behind the format string, of the `Display` of a value
/// in a `Displayed`, and of `write_pieces` of a part of your own.
///
/// ```
/// use lexical_parts::{Hex, Shown};
///
/// let line = ("id=", 7u8, " flags=0x", Hex(255u16));
/// assert_eq!(rt; Shown(line).to_string(alloc)?, "id=7 flags=0xFF");
/// ```
#[derive(Clone, Copy, Debug, Drop)]
pub struct Shown<P>(pub P);

// A formatter as a writer, whatever its options are.
#[derive(Drop)]
struct Through<'a, W> {
    f: &'a mut fmt::Formatter<W>,
}

impl<W: fmt::Write> fmt::Write for Through<'_, W> {
    ghost write_str_gives = { λ s bytes t. (t.f.ghost_name ≡ s.f.ghost_name)
        × (IsFlush s.f.now → HasWrittenStyled W.write_str_gives s.f.now bytes t.f.now) };

    fn write_str(&mut self, text: &str) -> fmt::Result {
        self.f.write_str(text)
    }
}

// Writes the text to a formatter, whatever its options are.
fn write_through<P: Show, W: fmt::Write>(part: P, f: &mut fmt::Formatter<W>) -> fmt::Result
    ensures { IsFlush f.old → IsOk result
        → (text : List ℕ) × P.is_text part text × HasWrittenStyled W.write_str_gives f.old text f.new }
{
    let mut through = Through { f };
    let result = part.write_pieces(&mut through);
    // No effect at run time, but by this use it is known what the formatter is now.
    let Through { f } = through;
    let _ = &*f;
    result
}

impl<P: Show> Shown<P> {
    // Writes the text with the options of the formatter, or returns an error if the part is not valid.
    #[tactic(auto, using(crate::proofs::OfFormatting::ShownParts::displays_only, crate::proofs::OfFormatting::ShownParts::displays_styled_only))]
    fn show<W: fmt::Write>(self, f: &mut fmt::Formatter<W>) -> fmt::Result
        ensures some { ShowsSomeOnOk W.write_str_gives f.old result (P.is_text self.0) f.new }
        ensures writes { DisplaysOnOk W.write_str_gives f.old result (P.text self.0) f.new }
        ensures styled { DisplaysStyledOnOk W.write_str_gives f.old result
            (aligned_text (formatter_spec f.old).align (styled_text (formatter_spec f.old)) (P.text self.0)) f.new }
    {
        let part = self.0;
        if !part.is_showable() {
            return Err(fmt::Error);
        }
        if is_bare(f) {
            write_through(part, f)
        } else {
            pad_pieces(part, f)
        }
    }
}

// Returns whether the format has no width and no precision.
fn is_bare<W: fmt::Write>(f: &fmt::Formatter<W>) -> bool
    ensures width { IsTrue result → (formatter_spec f.now).width ≡ 0 }
    ensures precision { IsTrue result → (formatter_spec f.now).precision ≡ 2 ^ 64 - 1 }
    ensures bare { (formatter_spec f.now).width ≡ 0 → (formatter_spec f.now).precision ≡ 2 ^ 64 - 1 → IsTrue result }
{
    let width = f.width();
    let precision = f.precision();
    width.is_none() && precision.is_none()
}

// Writes the text with the width and the precision of the formatter, as std writes a `&str`. The text is written twice,
// the first time to count its characters. It is cold: most formats have neither.
#[cold]
fn pad_pieces<P: Show, W: fmt::Write>(part: P, f: &mut fmt::Formatter<W>) -> fmt::Result
    ensures { IsFlush f.old → IsAligned f.old → IsOk result
        → (text : List ℕ) × P.is_text part text
        × HasWrittenStyled W.write_str_gives f.old (padded (formatter_spec f.old) text) f.new }
{
    let most = f.precision().unwrap_or(usize::MAX);
    let count = most - write_first_chars(part, most, &mut Nowhere)?;
    let padding = f.width().unwrap_or(0).saturating_sub(count);
    let before = padding_before(f, padding);
    format_fill(before, f)?;
    let left = write_cut(part, most, f)?;
    // A part of a caller may have another text each time.
    if most.saturating_sub(left) != count {
        return Err(fmt::Error);
    }
    format_fill(padding - before, f)
}

// Writes the first `most` characters of the text, and returns how many fewer it has.
fn write_cut<P: Show, W: fmt::Write>(
    part: P,
    most: usize,
    f: &mut fmt::Formatter<W>,
) -> Result<usize, fmt::Error>
    ensures { IfOk result (λ left. IsFlush f.old → (text : List ℕ) × P.is_text part text
        × HasWrittenStyled W.write_str_gives f.old (take_chars most text) f.new × (left ≡ most - char_count text)) }
{
    let mut through = Through { f };
    let left = write_first_chars(part, most, &mut through)?;
    // No effect at run time, but by this use it is known what the formatter is now.
    let Through { f } = through;
    let _ = &*f;
    Ok(left)
}

// Returns how much of the padding of a `&str` precedes it.
fn padding_before<W: fmt::Write>(f: &fmt::Formatter<W>, padding: usize) -> usize
    ensures within { result ≤ padding }
    ensures side { (formatter_spec f.now).align < 4 → result ≡ padding_before (formatter_spec f.now) padding 1 }
{
    match f.align() {
        None | Some(fmt::Alignment::Left) => 0,
        Some(fmt::Alignment::Center) => padding / 2,
        Some(fmt::Alignment::Right) => padding,
    }
}

// Writes copies of the fill of the formatter.
pub(crate) fn format_fill<W: fmt::Write>(count: usize, f: &mut fmt::Formatter<W>) -> fmt::Result
    ensures { WritesStyledOnOk W.write_str_gives f.old result (fill_text (formatter_spec f.old) count) f.new }
{
    let mut array = [0; 4];
    let fill: &str = f.fill().encode_utf8(&mut array);
    for _ in 0..count {
        f.write_str(fill)?;
    }
    Ok(())
}

impl<P: Show> fmt::Display for Shown<P> {
    ghost output = { λ part. P.text part.0 };

    ghost styled_output = { λ part spec. aligned_text spec.align (styled_text spec) (P.text part.0) };

    fn fmt<W: fmt::Write>(&self, f: &mut fmt::Formatter<W>) -> fmt::Result {
        Shown(self.0).show(f)
    }
}

impl<P: Show> fmt::Display for Lower<P> {
    ghost output = { λ part. lower_text (P.text part.0) };

    ghost styled_output = { λ part spec. aligned_text spec.align (styled_text spec) (lower_text (P.text part.0)) };

    fn fmt<W: fmt::Write>(&self, f: &mut fmt::Formatter<W>) -> fmt::Result {
        Shown(*self).show(f)
    }
}

impl<P: Show> fmt::Display for ZeroPadded<P> {
    ghost output = { λ part. zero_padded_text part.1 (P.text part.0) };

    ghost styled_output = { λ part spec.
        aligned_text spec.align (styled_text spec) (zero_padded_text part.1 (P.text part.0)) };

    fn fmt<W: fmt::Write>(&self, f: &mut fmt::Formatter<W>) -> fmt::Result {
        Shown(*self).show(f)
    }
}

impl<P: Show> fmt::Display for Left<P> {
    ghost output = { λ part. left_text part.1 part.2 (P.text part.0) };

    ghost styled_output = { λ part spec.
        aligned_text spec.align (styled_text spec) (left_text part.1 part.2 (P.text part.0)) };

    fn fmt<W: fmt::Write>(&self, f: &mut fmt::Formatter<W>) -> fmt::Result {
        Shown(*self).show(f)
    }
}

impl<P: Show> fmt::Display for Right<P> {
    ghost output = { λ part. right_text part.1 part.2 (P.text part.0) };

    ghost styled_output = { λ part spec.
        aligned_text spec.align (styled_text spec) (right_text part.1 part.2 (P.text part.0)) };

    fn fmt<W: fmt::Write>(&self, f: &mut fmt::Formatter<W>) -> fmt::Result {
        Shown(*self).show(f)
    }
}

impl<P: Show> fmt::Display for Center<P> {
    ghost output = { λ part. centered_text part.1 part.2 (P.text part.0) };

    ghost styled_output = { λ part spec.
        aligned_text spec.align (styled_text spec) (centered_text part.1 part.2 (P.text part.0)) };

    fn fmt<W: fmt::Write>(&self, f: &mut fmt::Formatter<W>) -> fmt::Result {
        Shown(*self).show(f)
    }
}

impl<P: Show> fmt::Display for Joined<'_, P> {
    ghost output = { λ part. joined_text P.text part.1.now part.0.now };

    ghost styled_output = { λ part spec.
        aligned_text spec.align (styled_text spec) (joined_text P.text part.1.now part.0.now) };

    fn fmt<W: fmt::Write>(&self, f: &mut fmt::Formatter<W>) -> fmt::Result {
        Shown(Joined(self.0, self.1)).show(f)
    }
}

impl<P: Show, Q: Show> fmt::Display for OrElse<P, Q> {
    ghost output = { λ part. or_else_text P.text (Q.text part.1) part.0 };

    ghost styled_output = { λ part spec.
        aligned_text spec.align (styled_text spec) (or_else_text P.text (Q.text part.1) part.0) };

    fn fmt<W: fmt::Write>(&self, f: &mut fmt::Formatter<W>) -> fmt::Result {
        Shown(*self).show(f)
    }
}

impl<T: ToLexical> fmt::Display for Scientific<T> {
    ghost output = { λ part. Some (scientific_text (T.number part.0) part.1) };

    ghost styled_output = { λ part spec.
        aligned_text spec.align (styled_text spec) (Some (scientific_text (T.number part.0) part.1)) };

    fn fmt<W: fmt::Write>(&self, f: &mut fmt::Formatter<W>) -> fmt::Result {
        Shown(*self).show(f)
    }
}

impl fmt::Display for HexBytes<'_> {
    ghost output = { λ part. Some (hex_bytes_text part.1.now part.0.now) };

    ghost styled_output = { λ part spec.
        aligned_text spec.align (styled_text spec) (Some (hex_bytes_text part.1.now part.0.now)) };

    fn fmt<W: fmt::Write>(&self, f: &mut fmt::Formatter<W>) -> fmt::Result {
        Shown(*self).show(f)
    }
}
