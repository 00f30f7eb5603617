//! Keeps several texts in one buffer, as slices of it.

ghost use Rattle.std.specs.Prelude.{◌≡◌, ◌+◌, ◌≤◌, ◌↔◌, IsTrue, length};
ghost use Rattle.lexical_num.specs.Format.{standard};
ghost use Rattle.lexical_write_integer.specs.Text.{IsText};

use lexical_write_integer::ToLexical;
use lexical_write_integer::format::STANDARD;
use lexical_write_integer::laws::texts_equal_iff;

/// Writes the number in decimal to the start of the arena, and returns its text and the bytes after
/// it. The arena must have room for 20 bytes.
pub fn keep_text(number: i64, arena: &mut [u8]) -> (&mut [u8], &mut [u8])
    requires { 20 ≤ length arena.old }
    ensures text { IsText number standard result.0.now }
    ensures at_most { length result.0.now ≤ 20 }
    ensures rest { length result.0.now + length result.1.now ≡ length arena.old }
{
    let count = number.write_lexical(arena);
    arena.split_at_mut(count)
}

/// Returns whether the texts of two numbers, both kept in one arena, are equal, which is the case if
/// and only if the numbers are.
pub fn have_same_kept_texts(a: i64, b: i64) -> bool
    ensures { IsTrue result ↔ (a ≡ b) }
{
    let mut arena = [0; 40];
    let (first, rest) = keep_text(a, &mut arena);
    let (second, _) = keep_text(b, rest);
    texts_equal_iff(a, b, &STANDARD, first, second);
    *first == *second
}
