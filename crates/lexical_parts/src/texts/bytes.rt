//! Bytes as a part: those of a slice, or a single one.
#![tactic(auto, using(crate::proofs::OfTexts::Parts::parts))]

ghost use Rattle.std.specs.Prelude.{IsTrue, Some, ◌<◌, [], ◌∷◌, length, IfSome, IsSome};
ghost use Rattle.std.specs.Str.{IsUtf8};
ghost use Rattle.lexical_write_integer.specs.Sequence.{IsExactly};
ghost use Rattle.lexical_parts.specs.Length.{HasLength};

use crate::part::Part;
use crate::sealed::Sealed;
use crate::show::Show;
use lexical_write_integer::buffer::copy_to_front;
use std::fmt;
use std::str::from_utf8;

/// A part whose text is the bytes of a slice: `Bytes(b"ab")` writes `ab`.
///
/// Its room is the length of the slice. In a `&str`, a `String` or a format string the bytes must be UTF-8.
///
/// ```
/// use lexical_parts::{Bytes, Part};
///
/// assert_eq!(rt; Bytes(b"ab").to_str(&mut [0; 64]), "ab");
/// ```
#[derive(Clone, Copy, Debug, Drop)]
pub struct Bytes<'a>(pub &'a [u8]);

impl Part for Bytes<'_> {
    ghost is_text = { λ part. IsExactly part.0.now };

    ghost room = { λ part. length part.0.now };

    ghost is_utf8 = { λ part. IsUtf8 part.0.now };

    fn room(self) -> usize {
        self.0.len()
    }

    fn write_to(self, buffer: &mut [u8]) -> usize {
        copy_to_front(self.0, buffer)
    }

    fn text_len(self) -> Option<usize>
        ensures known { IsSome result }
        ensures length { IfSome result (λ count. HasLength (IsExactly self.entry.0.now) count) }
    {
        Some(self.0.len())
    }

    fn is_known_valid_and_utf8(self, _sealed: Sealed) -> bool
        ensures utf8 { IsTrue result → IsUtf8 self.entry.0.now }
        ensures known { IsUtf8 self.entry.0.now → IsTrue result }
    {
        from_utf8(self.0).is_ok()
    }
}

impl Show for Bytes<'_> {
    ghost text = { λ part. Some part.0.now };

    fn is_showable(self) -> bool {
        self.is_known_valid_and_utf8(Sealed)
    }

    fn write_pieces<O: fmt::Write>(self, out: &mut O) -> fmt::Result {
        match from_utf8(self.0) {
            Ok(text) => out.write_str(text),
            Err(_) => Err(fmt::Error),
        }
    }
}

/// A part whose text is one byte: `Byte(b'a')` writes `a`. Its room is 1. In a `&str`, a `String` or a format string
/// the byte must be below 128.
///
/// ```
/// use lexical_parts::{Byte, Part};
///
/// assert_eq!(rt; Byte(b'a').to_str(&mut [0; 64]), "a");
/// ```
#[derive(Clone, Copy, Debug, Drop)]
pub struct Byte(pub u8);

impl Part for Byte {
    ghost is_text = { λ part. IsExactly (part.0 ∷ []) };

    ghost room = { λ _. 1 };

    ghost is_utf8 = { λ part. part.0 < 128 };

    fn room(self) -> usize {
        1
    }

    fn write_to(self, buffer: &mut [u8]) -> usize {
        copy_to_front(&[self.0], buffer)
    }

    fn text_len(self) -> Option<usize>
        ensures known { IsSome result }
        ensures length { IfSome result (λ count. HasLength (IsExactly (self.0 ∷ [])) count) }
    {
        Some(1)
    }

    fn is_known_valid_and_utf8(self, _sealed: Sealed) -> bool
        ensures utf8 { IsTrue result → self.0 < 128 }
        ensures known { self.0 < 128 → IsTrue result }
    {
        self.0 < 128
    }
}

impl Show for Byte {
    ghost text = { λ part. Some (part.0 ∷ []) };

    fn is_showable(self) -> bool {
        self.is_known_valid_and_utf8(Sealed)
    }
}
