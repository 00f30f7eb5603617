//! A law on rows of numbers.

ghost use Rattle.std.specs.Prelude.{◌≡◌, ◌≢◌, ◌∷◌, [], List, None, ℕ};
ghost use Rattle.std.specs.Char.{IsNotAsciiAlphanumeric};
ghost use Rattle.lexical_write_integer.specs.Sequence.{AreJoined};
ghost use Rattle.lexical_write_integer.specs.Text.{IsText};

use lexical_num::format::NumberFormat;
use lexical_num::num::LexicalInteger;

/// A law: rows of numbers with the same text are rows of the same numbers, in a format without groups, if the separator
/// is neither a letter, a digit nor a sign. So what `join` writes belongs to one list.
pub fn equal_rows<T: LexicalInteger>(a: &[T], b: &[T], separator: u8, format: &NumberFormat)
    requires groups { format.now.digit_grouping ≡ None }
    requires other { IsNotAsciiAlphanumeric separator }
    requires plus { separator ≢ 43 }
    requires minus { separator ≢ 45 }
    ensures { (text : List ℕ) → AreJoined (λ x. IsText (T.number x) format.now) (separator ∷ []) a.now text
        → AreJoined (λ x. IsText (T.number x) format.now) (separator ∷ []) b.now text
        → a.now ≡ b.now }
{
    format.in_range();
}
