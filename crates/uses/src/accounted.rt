//! An amount of money as in accounts, as an example of a part of a text that has two forms.

ghost use Rattle.std.specs.Prelude.{◌≡◌, ◌+◌, ◌≤◌, length, ℤ};
ghost use Rattle.uses.specs.Accounted.{IsAccounted, after, before};

use lexical_parts::{Fixed, Part};

/// An amount of cents, which is in parentheses if it is below 0: `(12.34)` for -1234.
#[derive(Clone, Copy, Drop)]
pub struct Accounted(pub i64);

impl Part for Accounted {
    ghost is_text = { λ amount. IsAccounted amount.0 };

    ghost room = { λ _. 23 };

    fn room(self) -> usize {
        23
    }

    fn write_to(self, buffer: &mut [u8]) -> usize {
        let (before, after) = parentheses(self.0);
        (before, Fixed(self.0.unsigned_abs(), 2), after).write_to(buffer)
    }
}

// Returns what is before and after an amount of cents.
fn parentheses(cents: i64) -> (&'static str, &'static str)
    ensures before { result.0.now ≡ before cents }
    ensures after { result.1.now ≡ after cents }
    ensures at_most { length result.0.now + length result.1.now ≤ 2 }
{
    if cents < 0 { ("(", ")") } else { ("", "") }
}
