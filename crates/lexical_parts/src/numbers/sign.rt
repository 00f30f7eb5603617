//! The sign of a number, as a part of its own.
#![tactic(auto, using(crate::proofs::OfTexts::Parts::parts))]

ghost use Rattle.std.specs.Prelude.{Some, IfSome, IsSome};
ghost use Rattle.lexical_num.specs.Sign.{sign_of};
ghost use Rattle.lexical_write_integer.specs.Sequence.{IsExactly};
ghost use Rattle.lexical_parts.specs.Length.{HasLength};

use crate::part::Part;
use crate::sealed::Sealed;
use crate::show::Show;
use lexical_num::num::LexicalInteger;
use lexical_write_integer::buffer::copy_to_front;

/// The sign of a number: `-` if it is below 0, and otherwise nothing, or a `+` if one is required.
///
/// `Sign(-5, false)` writes `-`, as `Sign(-5, true)` does, and `Sign(5, true)` writes `+`. The room is 1.
///
/// ```
/// use lexical_parts::{Part, Sign};
///
/// assert_eq!(rt; Sign(-5, false).to_str(&mut [0; 64]), "-");
/// assert_eq!(rt; Sign(5, true).to_str(&mut [0; 64]), "+");
/// ```
#[derive(Clone, Copy, Debug, Drop)]
pub struct Sign<T>(
    /// The number.
    pub T,
    /// Whether a number that is not below 0 gets a `+`.
    pub bool,
);

impl<T: LexicalInteger> Part for Sign<T> {
    ghost is_text = { λ part. IsExactly (sign_of (T.number part.0) part.1) };

    ghost room = { λ _. 1 };

    fn room(self) -> usize {
        1
    }

    fn write_to(self, buffer: &mut [u8]) -> usize {
        if self.0.is_negative() {
            copy_to_front(b"-", buffer)
        } else if self.1 {
            copy_to_front(b"+", buffer)
        } else {
            0
        }
    }

    fn text_len(self) -> Option<usize>
        ensures known { IsSome result }
        ensures length { IfSome result (λ count. HasLength (IsExactly (sign_of (T.number self.0) self.1)) count) }
    {
        Some(usize::from(self.0.is_negative() || self.1))
    }

    fn is_known_valid_and_utf8(self, _sealed: Sealed) -> bool {
        true
    }
}

impl<T: LexicalInteger> Show for Sign<T> {
    ghost text = { λ part. Some (sign_of (T.number part.0) part.1) };

    fn is_showable(self) -> bool {
        true
    }
}
