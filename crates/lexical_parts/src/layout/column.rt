//! Parts that are padded to the width of a column.
#![tactic(auto, using(crate::proofs::OfTexts::Parts::parts))]

ghost use Rattle.std.specs.Prelude.{max, ◌<◌};
ghost use Rattle.lexical_parts.specs.Column.{IsAtLeft, IsAtRight, IsCentered, centered_text, left_text, right_text};

use crate::formatting::limited::{count_bytes, write_exactly};
use crate::layout::fill::{insert_fill, write_copies, write_fill};
use crate::part::Part;
use crate::sealed::Sealed;
use crate::show::Show;
use std::fmt;

/// A part, aligned to the left in a column.
///
/// A byte, often a space, is added after the text of the part, up to the width: `Left(Decimal(12), 4, b'.')` writes
/// `12..`. Nothing is added to a text that is longer than the width, which counts bytes and not characters. The room is
/// the width or that of the part, whichever is larger. In a `&str`, a `String` or a format string that byte must be
/// below 128.
///
/// ```
/// use lexical_parts::{Decimal, Left, Part};
///
/// assert_eq!(rt; Left(Decimal(12), 4, b'.').to_str(&mut [0; 64]), "12..");
/// ```
#[derive(Clone, Copy, Debug, Drop)]
pub struct Left<P>(
    /// The part in the column.
    pub P,
    /// The width, in bytes.
    pub usize,
    /// The byte that is added after the text.
    pub u8,
);

impl<P: Part> Part for Left<P> {
    // `Right` and `Center` have the same members, because `rt ci` refuses an `impl` that a macro of ours writes.
    ghost is_text = { λ part. IsAtLeft part.1 part.2 (P.is_text part.0) };

    ghost is_valid = { λ part. P.is_valid part.0 };

    ghost room = { λ part. max (P.room part.0) part.1 };

    ghost is_utf8 = { λ part. (part.2 < 128) × P.is_utf8 part.0 };

    fn room(self) -> usize {
        self.0.room().max(self.1)
    }

    fn write_to(self, buffer: &mut [u8]) -> usize {
        let count = self.0.write_to(buffer);
        count + write_fill(self.2, self.1.saturating_sub(count), &mut buffer[count..])
    }

    fn text_len(self) -> Option<usize> {
        Some(self.0.text_len()?.max(self.1))
    }

    fn is_known_valid_and_utf8(self, sealed: Sealed) -> bool {
        self.2 < 128 && self.0.is_known_valid_and_utf8(sealed)
    }

    fn room_bound(self, sealed: Sealed) -> usize {
        self.0.room_bound(sealed).max(self.1)
    }
}

impl<P: Show> Show for Left<P> {
    ghost text = { λ part. left_text part.1 part.2 (P.text part.0) };

    fn is_showable(self) -> bool {
        self.2 < 128 && self.0.is_showable()
    }

    fn write_pieces<O: fmt::Write>(self, out: &mut O) -> fmt::Result {
        if !self.is_showable() {
            return Err(fmt::Error);
        }
        let count = count_bytes(self.0)?;
        write_exactly(self.0, count, out)?;
        write_copies(self.2, self.1.saturating_sub(count), out)
    }
}

/// A part, aligned to the right in a column.
///
/// A byte, often a space, is added before the text of the part, up to the width: `Right(Decimal(42), 4, b'.')` writes
/// `..42`. Nothing is added to a text that is longer than the width, which counts bytes and not characters. The room is
/// the width or that of the part, whichever is larger. In a `&str`, a `String` or a format string that byte must be
/// below 128.
///
/// ```
/// use lexical_parts::{Decimal, Part, Right};
///
/// assert_eq!(rt; Right(Decimal(42), 4, b'.').to_str(&mut [0; 64]), "..42");
/// ```
#[derive(Clone, Copy, Debug, Drop)]
pub struct Right<P>(
    /// The part in the column.
    pub P,
    /// The width, in bytes.
    pub usize,
    /// The byte that is added before the text.
    pub u8,
);

impl<P: Part> Part for Right<P> {
    ghost is_text = { λ part. IsAtRight part.1 part.2 (P.is_text part.0) };

    ghost is_valid = { λ part. P.is_valid part.0 };

    ghost room = { λ part. max (P.room part.0) part.1 };

    ghost is_utf8 = { λ part. (part.2 < 128) × P.is_utf8 part.0 };

    fn room(self) -> usize {
        self.0.room().max(self.1)
    }

    fn write_to(self, buffer: &mut [u8]) -> usize {
        let count = self.0.write_to(buffer);
        let added = self.1.saturating_sub(count);
        insert_fill(self.2, added, count, buffer);
        added + count
    }

    fn text_len(self) -> Option<usize> {
        Some(self.0.text_len()?.max(self.1))
    }

    fn is_known_valid_and_utf8(self, sealed: Sealed) -> bool {
        self.2 < 128 && self.0.is_known_valid_and_utf8(sealed)
    }

    fn room_bound(self, sealed: Sealed) -> usize {
        self.0.room_bound(sealed).max(self.1)
    }
}

impl<P: Show> Show for Right<P> {
    ghost text = { λ part. right_text part.1 part.2 (P.text part.0) };

    fn is_showable(self) -> bool {
        self.2 < 128 && self.0.is_showable()
    }

    fn write_pieces<O: fmt::Write>(self, out: &mut O) -> fmt::Result {
        if !self.is_showable() {
            return Err(fmt::Error);
        }
        let count = count_bytes(self.0)?;
        write_copies(self.2, self.1.saturating_sub(count), out)?;
        write_exactly(self.0, count, out)
    }
}

/// A part in the centre of a column.
///
/// A byte, often a space, is added before and after the text of the part, up to the width. If an odd number of bytes is
/// added, the last one is after the text, as with `{:^6}`: `Center(Decimal(-12), 6, b'*')` writes `*-12**`. Nothing is
/// added to a text that is longer than the width, which counts bytes and not characters. The room is the width or that
/// of the part, whichever is larger. In a `&str`, a `String` or a format string that byte must be below 128.
///
/// ```
/// use lexical_parts::{Center, Decimal, Part};
///
/// assert_eq!(rt; Center(Decimal(-12), 6, b'*').to_str(&mut [0; 64]), "*-12**");
/// ```
#[derive(Clone, Copy, Debug, Drop)]
pub struct Center<P>(
    /// The part in the column.
    pub P,
    /// The width, in bytes.
    pub usize,
    /// The byte that is added before and after the text.
    pub u8,
);

impl<P: Part> Part for Center<P> {
    ghost is_text = { λ part. IsCentered part.1 part.2 (P.is_text part.0) };

    ghost is_valid = { λ part. P.is_valid part.0 };

    ghost room = { λ part. max (P.room part.0) part.1 };

    ghost is_utf8 = { λ part. (part.2 < 128) × P.is_utf8 part.0 };

    fn room(self) -> usize {
        self.0.room().max(self.1)
    }

    fn write_to(self, buffer: &mut [u8]) -> usize {
        let count = self.0.write_to(buffer);
        let added = self.1.saturating_sub(count);
        let before = added / 2;
        insert_fill(self.2, before, count, buffer);
        let end = before + count;
        end + write_fill(self.2, added - before, &mut buffer[end..])
    }

    fn text_len(self) -> Option<usize> {
        Some(self.0.text_len()?.max(self.1))
    }

    fn is_known_valid_and_utf8(self, sealed: Sealed) -> bool {
        self.2 < 128 && self.0.is_known_valid_and_utf8(sealed)
    }

    fn room_bound(self, sealed: Sealed) -> usize {
        self.0.room_bound(sealed).max(self.1)
    }
}

impl<P: Show> Show for Center<P> {
    ghost text = { λ part. centered_text part.1 part.2 (P.text part.0) };

    fn is_showable(self) -> bool {
        self.2 < 128 && self.0.is_showable()
    }

    fn write_pieces<O: fmt::Write>(self, out: &mut O) -> fmt::Result {
        if !self.is_showable() {
            return Err(fmt::Error);
        }
        let count = count_bytes(self.0)?;
        let added = self.1.saturating_sub(count);
        let before = added / 2;
        write_copies(self.2, before, out)?;
        write_exactly(self.0, count, out)?;
        write_copies(self.2, added - before, out)
    }
}
