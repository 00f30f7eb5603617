//! Compares formats and builders: they are equal if and only if all their parts are.

ghost use Rattle.std.specs.Prelude.{◌≡◌, ◌↔◌, IsTrue};

use lexical_write_integer::{NumberFormat, NumberFormatBuilder};

/// Returns whether two formats are equal, which means that all their parts are equal.
pub fn equal_formats(a: &NumberFormat, b: &NumberFormat) -> bool
    ensures parts { IsTrue result ↔ (a.now ≡ b.now) }
{
    *a == *b
}

/// Returns whether two builders are equal, which means that all their parts are equal.
pub fn equal_builders(a: &NumberFormatBuilder, b: &NumberFormatBuilder) -> bool
    ensures { IsTrue result ↔ (a.now ≡ b.now) }
{
    a == b
}
