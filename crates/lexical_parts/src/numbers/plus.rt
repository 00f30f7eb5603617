//! Numbers that always have a sign.
#![tactic(auto, using(crate::proofs::OfTexts::Parts::parts))]

ghost use Rattle.lexical_num.specs.Format.{standard};
ghost use Rattle.lexical_write_integer.specs.Computed.{text_of};
ghost use Rattle.std.specs.Prelude.{◌+◌, Some, true, IfSome, IsSome};
ghost use Rattle.lexical_parts.specs.Plus.{IsPlus};
ghost use Rattle.lexical_parts.specs.Length.{HasLength};

use crate::numbers::sign::Sign;
use crate::part::Part;
use crate::sealed::Sealed;
use crate::show::Show;
use lexical_write_integer::ToLexical;
use lexical_write_integer::format::STANDARD;
use lexical_write_integer::laws::size_suffices;

/// A number in decimal that always has a sign, `+` if it is not negative: `Plus(5u8)` writes `+5`, and `Plus(-5)`
/// writes `-5`.
///
/// `ZeroPadded(Plus(42), 8)` writes `+0000042`, as `{:+08}` does. Its room is at most 21 bytes.
///
/// ```
/// use lexical_parts::{Part, Plus, ZeroPadded};
///
/// assert_eq!(rt; Plus(5u8).to_str(&mut [0; 64]), "+5");
/// assert_eq!(rt; Plus(-5).to_str(&mut [0; 64]), "-5");
/// assert_eq!(rt; ZeroPadded(Plus(42), 8).to_str(&mut [0; 64]), "+0000042");
/// ```
#[derive(Clone, Copy, Debug, Drop)]
pub struct Plus<T>(pub T);

impl<T: ToLexical> Part for Plus<T> {
    ghost is_text = { λ part. IsPlus (T.number part.0) };

    ghost room = { λ _. 1 + T.DECIMAL_WIDTH };

    fn room(self) -> usize {
        size_suffices(self.0, &STANDARD);
        1 + T::DECIMAL_WIDTH
    }

    fn write_to(self, buffer: &mut [u8]) -> usize {
        self.0.in_range();
        let start = Sign(self.0, true).write_to(buffer);
        start + self.0.write_magnitude(&STANDARD, &mut buffer[start..])
    }

    fn text_len(self) -> Option<usize>
        ensures known { IsSome result }
        ensures length { IfSome result (λ count. HasLength (IsPlus (T.number self.0)) count) }
    {
        self.0.in_range();
        Some(1 + self.0.magnitude_digits(10))
    }

    fn is_known_valid_and_utf8(self, _sealed: Sealed) -> bool {
        true
    }
}

impl<T: ToLexical> Show for Plus<T> {
    ghost text = { λ part. Some (text_of (T.number part.0) (record standard { required_mantissa_sign = true })) };

    fn is_showable(self) -> bool {
        self.0.in_range();
        true
    }
}
