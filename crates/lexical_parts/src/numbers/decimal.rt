//! One number in decimal.
#![tactic(auto, using(crate::proofs::OfTexts::Parts::parts))]

ghost use Rattle.lexical_write_integer.specs.Computed.{text_of};
ghost use Rattle.std.specs.Prelude.{Some, IfSome, IsSome};
ghost use Rattle.lexical_num.specs.Format.{standard};
ghost use Rattle.lexical_write_integer.specs.Text.{IsText};
ghost use Rattle.lexical_parts.specs.Length.{HasLength};

use crate::numbers::formatted::Formatted;
use crate::part::Part;
use crate::sealed::Sealed;
use crate::show::Show;
use lexical_write_integer::ToLexical;
use lexical_write_integer::format::STANDARD;
use lexical_write_integer::laws::size_suffices;

/// A number in decimal, with a `-` if it is negative: `Decimal(-5)` writes `-5`, as the part `-5` does.
///
/// It is for generic code, in which the number has a type parameter. Its room is that of the type, such as 20 bytes for
/// 64 bits.
///
/// ```
/// use lexical_parts::{Decimal, Part};
///
/// assert_eq!(rt; Decimal(-5).to_str(&mut [0; 64]), "-5");
/// ```
#[derive(Clone, Copy, Debug, Drop)]
pub struct Decimal<T>(pub T);

impl<T: ToLexical> Part for Decimal<T> {
    ghost is_text = { λ part. IsText (T.number part.0) standard };

    ghost room = { λ _. T.FORMATTED_SIZE_DECIMAL };

    fn room(self) -> usize {
        T::FORMATTED_SIZE_DECIMAL
    }

    fn write_to(self, buffer: &mut [u8]) -> usize {
        size_suffices(self.0, &STANDARD);
        self.0.write_lexical(buffer)
    }

    fn text_len(self) -> Option<usize>
        ensures known { IsSome result }
        ensures length { IfSome result (λ count. HasLength (IsText (T.number self.0) standard) count) }
    {
        Formatted(self.0, &STANDARD).text_len()
    }

    fn is_known_valid_and_utf8(self, _sealed: Sealed) -> bool {
        true
    }
}

impl<T: ToLexical> Show for Decimal<T> {
    ghost text = { λ part. Some (text_of (T.number part.0) standard) };

    fn is_showable(self) -> bool {
        self.0.in_range();
        true
    }
}
