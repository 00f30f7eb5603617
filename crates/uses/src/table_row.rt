//! Writes rows of a table with columns of a fixed width.

ghost use Rattle.std.specs.Prelude.{◌≤◌, length};
ghost use Rattle.lexical_write_integer.specs.Buffer.{Writes};
ghost use Rattle.lexical_write_integer.specs.Sequence.{IsExactly};
ghost use Rattle.lexical_parts.specs.Column.{IsAtRight, IsCentered};
ghost use Rattle.lexical_parts.specs.Sequence.{◌then◌, IsDecimal, IsStr};

use lexical_parts::{Center, Decimal, Part, Right};

/// Writes a name in the centre of a column of twelve characters, with `-` on both sides, two numbers at
/// the right of columns of twelve and of eleven, the second with `.` before it, and a newline to the array,
/// and returns the number of bytes written. The name has at most twelve bytes.
pub fn write_table_row(name: &str, a: i32, b: i32, buffer: &mut [u8; 36]) -> usize
    requires { length name.now ≤ 12 }
    ensures { Writes (IsCentered 12 45 (IsExactly name.now) then IsAtRight 12 32 (IsDecimal a)
        then IsAtRight 11 46 (IsDecimal b) then IsStr "\n") buffer.old buffer.new result }
{
    (
        Center(name, 12, b'-'),
        Right(Decimal(a), 12, b' '),
        Right(Decimal(b), 11, b'.'),
        "\n",
    )
        .write_to(buffer)
}
