//! Compares numbers by their texts, as a store with sorted keys does.

ghost use Rattle.std.specs.Prelude.{◌<◌, ◌↔◌, IsTrue};
ghost use Rattle.lexical_write_integer.specs.Order.{ComesBefore};

use lexical_write_integer::ToLexical;
use lexical_write_integer::format::STANDARD;
use lexical_write_integer::laws::order;
use std::cmp::Ordering;

/// Returns whether the first text is shorter than the second, or has the same length and is less in the
/// order of bytes.
pub fn text_comes_before(a: &[u8], b: &[u8]) -> bool
    ensures { IsTrue result ↔ ComesBefore a.now b.now }
{
    a.len() < b.len() || a.len() == b.len() && a.cmp(&b) == Ordering::Less
}

/// Returns whether the decimal text of the first number comes before that of the second, which is the
/// case if and only if the first number is less.
pub fn comes_before(a: u64, b: u64) -> bool
    ensures { IsTrue result ↔ a < b }
{
    order(a, b, &STANDARD);
    text_comes_before(a.to_lexical(&mut [0; 20]), b.to_lexical(&mut [0; 20]))
}
