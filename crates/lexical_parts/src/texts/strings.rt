//! Strings, which are parts: the text of a `&str` is the string.
#![tactic(auto, using(crate::proofs::OfTexts::Parts::parts))]

ghost use Rattle.std.specs.Prelude.{IsTrue, Some, length, IfSome, IsSome};
ghost use Rattle.lexical_write_integer.specs.Sequence.{IsExactly};
ghost use Rattle.lexical_parts.specs.Length.{HasLength};
ghost use Rattle.lexical_parts.specs.Utf8.{AreUtf8};

use crate::part::Part;
use crate::sealed::Sealed;
use crate::show::Show;
use lexical_write_integer::buffer::copy_to_front;
use std::fmt;

// A law: the bytes of a `str` are UTF-8.
pub(crate) fn str_is_utf8(text: &str)
    ensures { AreUtf8 (IsExactly text.now) }
{}

impl Part for &str {
    ghost is_text = { λ part. IsExactly part.now };

    ghost room = { λ part. length part.now };

    fn room(self) -> usize {
        self.len()
    }

    fn write_to(self, buffer: &mut [u8]) -> usize {
        copy_to_front(self.as_bytes(), buffer)
    }

    fn text_len(self) -> Option<usize>
        ensures known { IsSome result }
        ensures length { IfSome result (λ count. HasLength (IsExactly self.now) count) }
    {
        Some(self.len())
    }

    fn is_known_valid_and_utf8(self, _sealed: Sealed) -> bool
        ensures known { IsTrue result }
    {
        true
    }
}

impl Show for &str {
    ghost text = { λ part. Some part.now };

    fn is_showable(self) -> bool {
        true
    }

    fn write_pieces<O: fmt::Write>(self, out: &mut O) -> fmt::Result {
        out.write_str(self)
    }
}
