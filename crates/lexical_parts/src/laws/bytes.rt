//! Laws on the bytes of the texts of parts.

ghost use Rattle.std.specs.Prelude.{◌≢◌, All, List, ℕ};
ghost use Rattle.std.specs.Int.{IsOutOfRange};
ghost use Rattle.lexical_parts.specs.Fixed.{IsFixed};

use lexical_num::num::LexicalInteger;

/// A law: the text of a `Fixed` does not have the separator, which is neither a decimal digit, a point nor a minus.
pub fn fixed_has_no<T: LexicalInteger>(number: T, decimals: usize, separator: u8)
    requires digit { IsOutOfRange 48 57 separator }
    requires point { separator ≢ 46 }
    requires minus { separator ≢ 45 }
    ensures { (text : List ℕ) → IsFixed decimals (T.number number) text → All (λ byte. byte ≢ separator) text }
{}
