//! Writes numbers to slots of a table, which is a larger buffer.

ghost use Rattle.std.specs.Prelude.{◌≡◌, ◌^◌, ◌<◌, ◌≤◌, ◌+◌, ◌*◌, drop, length, take};
ghost use Rattle.lexical_parts.specs.Fields.{bytes_between};
ghost use Rattle.lexical_write_integer.specs.Padded.{IsPadded};

use lexical_parts::{Padded, Part};

/// Writes the number to the slot with this index, of six digits. No other byte changes.
pub fn write_slot(number: u32, index: usize, table: &mut [u8])
    requires number { number < 10 ^ 6 }
    requires inside { 6 * index + 6 ≤ length table.old }
    ensures slot { IsPadded 10 6 number (bytes_between table.new (6 * index) (6 * index + 6)) }
    ensures before { take (6 * index) table.new ≡ take (6 * index) table.old }
    ensures after { drop (6 * index + 6) table.new ≡ drop (6 * index + 6) table.old }
{
    Padded(number, 6).write_at(6 * index, table);
}
