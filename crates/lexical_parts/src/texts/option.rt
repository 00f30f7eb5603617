//! Parts that may be absent: the text of `Some(part)` is that of the part, and `None` has no bytes.

ghost use Rattle.std.specs.Option.{option_map_or};
ghost use Rattle.std.specs.Prelude.{IfNone, IfSome, IsSome, IsTrue, MatchOption};
ghost use Rattle.lexical_parts.specs.Length.{HasLength};
ghost use Rattle.lexical_parts.specs.Optional.{IsOptional, IsOrElse, IsValidOptional, optional_room};
ghost use Rattle.lexical_parts.specs.Optional.{optional_text, or_else_text};

use crate::part::Part;
use crate::sealed::Sealed;
use crate::show::Show;
use lexical_write_integer::buffer::copy_to_front;
use std::fmt;

impl<P: Part> Part for Option<P> {
    ghost is_text = { IsOptional P.is_text };

    ghost is_valid = { IsValidOptional P.is_valid };

    ghost room = { optional_room P.room };

    ghost is_utf8 = { IsValidOptional P.is_utf8 };

    fn room(self) -> usize {
        match self {
            Some(part) => part.room(),
            None => 0,
        }
    }

    fn write_to(self, buffer: &mut [u8]) -> usize {
        match self {
            Some(part) => part.write_to(buffer),
            None => copy_to_front(b"", buffer),
        }
    }

    fn text_len(self) -> Option<usize>
        requires { IsValidOptional P.is_valid self }
        ensures length { IfSome result (λ count. HasLength (IsOptional P.is_text self) count) }
        ensures none { IfNone self (IsSome result) }
    {
        match self {
            Some(part) => part.text_len(),
            None => Some(0),
        }
    }

    fn is_known_valid_and_utf8(self, sealed: Sealed) -> bool
        ensures valid { IsTrue result → IsValidOptional P.is_valid self }
        ensures utf8 { IsTrue result → IsValidOptional P.is_utf8 self }
        ensures none { IfNone self (IsTrue result) }
    {
        match self {
            Some(part) => part.is_known_valid_and_utf8(sealed),
            // An empty text is UTF-8.
            None => true,
        }
    }

    fn room_bound(self, sealed: Sealed) -> usize {
        match self {
            Some(part) => part.room_bound(sealed),
            None => 0,
        }
    }
}

impl<P: Show> Show for Option<P> {
    ghost text = { optional_text P.text };

    fn is_showable(self) -> bool {
        match self {
            Some(part) => part.is_showable(),
            None => true,
        }
    }

    fn write_pieces<O: fmt::Write>(self, out: &mut O) -> fmt::Result {
        match self {
            Some(part) => part.write_pieces(out),
            None => Ok(()),
        }
    }
}

/// A part that may be absent, and the part that is written in its place.
///
/// `OrElse(Some(5u8), "n/a")` writes `5`, and `OrElse(None::<u8>, "n/a")` writes `n/a`. Its conditions and its room are
/// those of the part that it writes.
///
/// ```
/// use lexical_parts::{OrElse, Part};
///
/// assert_eq!(rt; OrElse(Some(5u8), "n/a").to_str(&mut [0; 64]), "5");
/// assert_eq!(rt; OrElse(None::<u8>, "n/a").to_str(&mut [0; 64]), "n/a");
/// ```
#[derive(Clone, Copy, Debug, Drop)]
pub struct OrElse<P, Q>(
    /// The part that may be absent.
    pub Option<P>,
    /// The part that is written in its place.
    pub Q,
);

impl<P: Part, Q: Part> Part for OrElse<P, Q> {
    ghost is_text = { λ part. IsOrElse P.is_text (Q.is_text part.1) part.0 };

    ghost is_valid = { λ part. MatchOption part.0 (Q.is_valid part.1) P.is_valid };

    ghost room = { λ part. option_map_or P.room part.0 (Q.room part.1) };

    ghost is_utf8 = { λ part. MatchOption part.0 (Q.is_utf8 part.1) P.is_utf8 };

    fn room(self) -> usize {
        match self.0 {
            Some(present) => present.room(),
            None => self.1.room(),
        }
    }

    fn write_to(self, buffer: &mut [u8]) -> usize {
        match self.0 {
            Some(present) => present.write_to(buffer),
            None => self.1.write_to(buffer),
        }
    }

    fn text_len(self) -> Option<usize> {
        match self.0 {
            Some(present) => present.text_len(),
            None => self.1.text_len(),
        }
    }

    fn is_known_valid_and_utf8(self, sealed: Sealed) -> bool {
        match self.0 {
            Some(present) => present.is_known_valid_and_utf8(sealed),
            None => self.1.is_known_valid_and_utf8(sealed),
        }
    }

    fn room_bound(self, sealed: Sealed) -> usize {
        match self.0 {
            Some(present) => present.room_bound(sealed),
            None => self.1.room_bound(sealed),
        }
    }
}

impl<P: Show, Q: Show> Show for OrElse<P, Q> {
    ghost text = { λ part. or_else_text P.text (Q.text part.1) part.0 };

    fn is_showable(self) -> bool {
        match self.0 {
            Some(present) => present.is_showable(),
            None => self.1.is_showable(),
        }
    }

    fn write_pieces<O: fmt::Write>(self, out: &mut O) -> fmt::Result {
        match self.0 {
            Some(present) => present.write_pieces(out),
            None => self.1.write_pieces(out),
        }
    }
}
