//! Writes rows of numbers, as in CSV.

ghost use Rattle.std.specs.Prelude.{◌≡◌, ◌+◌, ◌*◌, ◌<◌, ◌≤◌, [], ◌∷◌};
ghost use Rattle.std.specs.Prelude.{IfNone, IfSome, IsSome, OnOk, codes, length, ⊤};
ghost use Rattle.lexical_write_integer.specs.Buffer.{Writes};
ghost use Rattle.lexical_write_integer.specs.Sequence.{AreJoined, IsExactly};
ghost use Rattle.lexical_parts.specs.Joined.{AreEach, joined_room};
ghost use Rattle.lexical_parts.specs.Length.{HasLonger};
ghost use Rattle.lexical_parts.specs.Sequence.{◌then◌, IsStr};
ghost use Rattle.uses.specs.CsvRow.{IsEntry, IsList, IsRow, list_room, row_room};

use lexical_num::FormattedSize;
use lexical_parts::{Joined, Part, Show, rooms_at_most};
use std::alloc::AllocError;
use std::fmt;

/// A number of bytes that is enough for a row: eight numbers, and a comma or a newline after each.
pub const ROW_SIZE: usize = 8 * (i64::FORMATTED_SIZE_DECIMAL + 1);

/// Writes the numbers in decimal, with commas between them and a newline after them, to the start of
/// the array, and returns the length of the row. The bytes after it are unchanged.
pub fn write_row(numbers: &[i64; 8], buffer: &mut [u8; ROW_SIZE]) -> usize
    ensures { Writes (IsRow numbers.now then IsStr "\n") buffer.old buffer.new result }
{
    rooms_at_most(numbers, i64::FORMATTED_SIZE_DECIMAL);
    (Joined(numbers, ","), "\n").write_to(buffer)
}

/// What a column of numbers comes to.
#[derive(Clone, Copy, Drop)]
pub struct Summary {
    pub count: i64,
    pub missing: i64,
    pub first: i64,
    pub last: i64,
    pub least: i64,
    pub greatest: i64,
    pub median: i64,
    pub sum: i64,
}

/// Writes the numbers of a summary as `write_row` writes an array, and returns the length of the row.
pub fn write_summary(summary: &Summary, buffer: &mut [u8; ROW_SIZE]) -> usize
    ensures { Writes (IsRow (summary.now.count ∷ summary.now.missing ∷ summary.now.first ∷ summary.now.last
        ∷ summary.now.least ∷ summary.now.greatest ∷ summary.now.median ∷ summary.now.sum ∷ []) then IsStr "\n")
        buffer.old buffer.new result }
{
    let Summary {
        count,
        missing,
        first,
        last,
        least,
        greatest,
        median,
        sum,
    } = *summary;
    write_row(
        &[count, missing, first, last, least, greatest, median, sum],
        buffer,
    )
}

/// Writes the numbers in brackets, with `, ` between adjacent numbers, to the start of the buffer, and returns the
/// number of bytes written. The room of the text is 20 bytes for each number, 2 for each separator and 2 for the
/// brackets. Returns `None`, and leaves the buffer unchanged, if the buffer does not have the room, and the room is
/// above 256 bytes or the text does not fit.
pub fn try_write_list(numbers: &[i64], buffer: &mut [u8]) -> Option<usize>
    ensures fits { list_room numbers.now ≤ length buffer.old → IsSome result }
    ensures longer { IfNone result (list_room numbers.now ≤ 256 → HasLonger (IsList numbers.now) (length buffer.old)) }
    ensures large { IsSome result → 256 < list_room numbers.now → list_room numbers.now ≤ length buffer.old }
    ensures text { IfSome result (Writes (IsList numbers.now) buffer.old buffer.new) }
    ensures none { IfNone result (buffer.new ≡ buffer.old) }
{
    ("[", Joined(numbers, ", "), "]").try_write_to(buffer)
}

/// A row of numbers, with commas between them.
#[derive(Clone, Copy, Drop)]
pub struct Row<'a>(pub &'a [i64]);

impl Part for Row<'_> {
    ghost is_text = { λ row. IsRow row.0.now };

    ghost is_valid = { λ _. ⊤ };

    ghost room = { λ row. row_room row.0.now };

    fn room(self) -> usize {
        Joined(self.0, ",").room()
    }

    fn write_to(self, buffer: &mut [u8]) -> usize {
        Joined(self.0, ",").write_to(buffer)
    }
}

impl Show for Row<'_> {
    fn is_showable(self) -> bool {
        true
    }

    fn write_pieces<O: fmt::Write>(self, out: &mut O) -> fmt::Result {
        Joined(self.0, ",").write_pieces(out)
    }
}

/// Writes the rows, with a newline after each, to the start of the buffer, and returns the number of bytes
/// written. Returns `None`, and leaves the buffer unchanged, if the buffer does not have their room, and the room is
/// above 256 bytes or they do not fit.
pub fn try_write_rows(rows: &[Row<'_>], buffer: &mut [u8]) -> Option<usize>
    ensures fits { joined_room (λ row. row_room row.0.now) 1 rows.now + 1 ≤ length buffer.old → IsSome result }
    ensures longer { IfNone result (joined_room (λ row. row_room row.0.now) 1 rows.now + 1 ≤ 256
        → HasLonger (AreJoined (λ row. IsRow row.0.now) (codes "\n") rows.now then IsStr "\n")
        (length buffer.old)) }
    ensures large { IsSome result → 256 < joined_room (λ row. row_room row.0.now) 1 rows.now + 1
        → joined_room (λ row. row_room row.0.now) 1 rows.now + 1 ≤ length buffer.old }
    ensures text { IfSome result (Writes
        (AreJoined (λ row. IsRow row.0.now) (codes "\n") rows.now then IsStr "\n") buffer.old buffer.new) }
    ensures none { IfNone result (buffer.new ≡ buffer.old) }
{
    (Joined(rows, "\n"), "\n").try_write_to(buffer)
}

/// Adds each number and a semicolon after it to the end of the log, or returns an error if memory runs
/// out.
pub fn push_entries(log: &mut Vec<u8>, numbers: &[i64]) -> Result<(), AllocError>
    ensures { OnOk result ((IsExactly log.old.items then AreEach IsEntry numbers.now) log.new.items) }
{
    for number in numbers {
        log.extend_from_slice((*number, ";").to_text(&mut [0; 21]))?;
    }
    Ok(())
}

/// Writes each number and a semicolon after it to the start of the buffer, and returns the number of
/// bytes written. The buffer must have 21 bytes for each number.
pub fn write_entries(numbers: &[i64], buffer: &mut [u8]) -> usize
    requires { 21 * length numbers.now ≤ length buffer.old }
    ensures { Writes (AreEach IsEntry numbers.now) buffer.old buffer.new result }
{
    let mut count = 0;
    for number in numbers {
        count = (*number, ";").write_at(count, buffer);
    }
    count
}
