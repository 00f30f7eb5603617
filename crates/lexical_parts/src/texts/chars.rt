//! Characters, which are parts: the text of a `char` is its UTF-8.
#![tactic(auto, using(crate::proofs::OfTexts::Parts::parts))]

ghost use Rattle.std.specs.Prelude.{Some, encode_utf8, IfSome, IsSome};
ghost use Rattle.lexical_write_integer.specs.Sequence.{IsExactly};
ghost use Rattle.lexical_parts.specs.Length.{HasLength};

use crate::part::Part;
use crate::sealed::Sealed;
use crate::show::Show;
use crate::texts::strings::str_is_utf8;

impl Part for char {
    ghost is_text = { λ character. IsExactly (encode_utf8 character) };

    ghost room = { λ _. 4 };

    fn room(self) -> usize {
        4
    }

    fn write_to(self, buffer: &mut [u8]) -> usize {
        let mut bytes = [0; 4];
        let text: &str = self.encode_utf8(&mut bytes);
        str_is_utf8(text);
        text.write_to(buffer)
    }

    fn text_len(self) -> Option<usize>
        ensures known { IsSome result }
        ensures length { IfSome result (λ count. HasLength (IsExactly (encode_utf8 self)) count) }
    {
        Some(self.len_utf8())
    }

    fn is_known_valid_and_utf8(self, _sealed: Sealed) -> bool {
        true
    }
}

impl Show for char {
    ghost text = { λ character. Some (encode_utf8 character) };

    fn is_showable(self) -> bool {
        true
    }
}
