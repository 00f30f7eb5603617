//! The words `true` and `false`, which are the texts of a `bool`.
#![tactic(auto, using(crate::proofs::OfTexts::Parts::parts))]

ghost use Rattle.std.specs.Prelude.{Some, ◌≡◌, IfSome, IsSome};
ghost use Rattle.lexical_write_integer.specs.Sequence.{IsExactly};
ghost use Rattle.lexical_parts.specs.Word.{word};
ghost use Rattle.lexical_parts.specs.Length.{HasLength};

use crate::part::Part;
use crate::sealed::Sealed;
use crate::show::Show;
use crate::texts::strings::str_is_utf8;

// Returns `true` or `false`.
fn word(flag: bool) -> &'static str
    ensures { result.now ≡ word flag }
{
    if flag { "true" } else { "false" }
}

impl Part for bool {
    ghost is_text = { λ flag. IsExactly (word flag) };

    ghost room = { λ _. 5 };

    fn room(self) -> usize {
        5
    }

    fn write_to(self, buffer: &mut [u8]) -> usize {
        let text = word(self);
        str_is_utf8(text);
        text.write_to(buffer)
    }

    fn text_len(self) -> Option<usize>
        ensures known { IsSome result }
        ensures length { IfSome result (λ count. HasLength (IsExactly (word self)) count) }
    {
        Some(word(self).len())
    }

    fn is_known_valid_and_utf8(self, _sealed: Sealed) -> bool {
        true
    }
}

impl Show for bool {
    ghost text = { λ flag. Some (word flag) };

    fn is_showable(self) -> bool {
        true
    }
}
