//! Writes the fields of a tar header, and two cells of a row, to their places.

ghost use Rattle.std.specs.Prelude.{◌≡◌, ◌^◌, ◌<◌, ◌≤◌, length};
ghost use Rattle.lexical_parts.specs.Fields.{bytes_between};
ghost use Rattle.lexical_write_integer.specs.Buffer.{Writes};
ghost use Rattle.lexical_write_integer.specs.Padded.{IsPadded};
ghost use Rattle.lexical_write_integer.specs.Sequence.{IsExactly};
ghost use Rattle.lexical_parts.specs.Column.{IsAtLeft};
ghost use Rattle.lexical_parts.specs.Sequence.{◌then◌, IsStr};

use lexical_parts::{Left, Padded, PaddedDigits, Part, write_field};
use lexical_write_integer::laws::padded_length;

/// Writes six fields of a header to their places: the name of a file, and in radix 8 its mode, its owner, its group,
/// its size and the sum of the header. The other bytes do not change.
pub fn write_header(
    name: &str,
    mode: u32,
    owner: u32,
    group: u32,
    size: u64,
    sum: u32,
    header: &mut [u8; 512],
)
    requires name { length name.now ≤ 100 }
    requires mode { mode < 8 ^ 7 }
    requires owner { owner < 8 ^ 7 }
    requires group { group < 8 ^ 7 }
    requires size { size < 8 ^ 11 }
    requires sum { sum < 8 ^ 6 }
    ensures name { bytes_between header.new 0 (length name.now) ≡ name.now }
    ensures mode { IsPadded 8 7 mode (bytes_between header.new 100 107) }
    ensures owner { IsPadded 8 7 owner (bytes_between header.new 108 115) }
    ensures group { IsPadded 8 7 group (bytes_between header.new 116 123) }
    ensures size { IsPadded 8 11 size (bytes_between header.new 124 135) }
    ensures sum { IsPadded 8 6 sum (bytes_between header.new 148 154) }
    ensures between { bytes_between header.new 135 148 ≡ bytes_between header.old 135 148 }
    ensures after { bytes_between header.new 154 512 ≡ bytes_between header.old 154 512 }
{
    padded_length(8, 7);
    padded_length(8, 11);
    padded_length(8, 6);
    write_field(name, 0, name.len(), header);
    write_field(PaddedDigits(8, mode, 7), 100, 7, header);
    write_field(PaddedDigits(8, owner, 7), 108, 7, header);
    write_field(PaddedDigits(8, group, 7), 116, 7, header);
    write_field(PaddedDigits(8, size, 11), 124, 11, header);
    write_field(PaddedDigits(8, sum, 6), 148, 6, header);
}

/// Writes the first five fields of a header, one after another: the name and zeros up to 100 bytes, and the mode, the
/// owner, the group and the size in radix 8, each with a zero after it. Returns the index after them.
pub fn write_first_fields(
    name: &str,
    mode: u32,
    owner: u32,
    group: u32,
    size: u64,
    header: &mut [u8; 512],
) -> usize
    requires name { length name.now ≤ 100 }
    requires mode { mode < 8 ^ 7 }
    requires owner { owner < 8 ^ 7 }
    requires group { group < 8 ^ 7 }
    requires size { size < 8 ^ 11 }
    ensures { Writes (IsAtLeft 100 0 (IsExactly name.now) then (IsPadded 8 7 mode then IsStr "\0")
        then (IsPadded 8 7 owner then IsStr "\0") then (IsPadded 8 7 group then IsStr "\0")
        then (IsPadded 8 11 size then IsStr "\0")) header.old header.new result }
{
    (
        Left(name, 100, 0),
        (PaddedDigits(8, mode, 7), "\0"),
        (PaddedDigits(8, owner, 7), "\0"),
        (PaddedDigits(8, group, 7), "\0"),
        (PaddedDigits(8, size, 11), "\0"),
    )
        .write_to(header)
}

/// Writes two numbers of ten digits to a row, with what is there between them.
pub fn write_two_cells(a: u32, b: u32, row: &mut [u8; 24])
    ensures a { IsPadded 10 10 a (bytes_between row.new 0 10) }
    ensures b { IsPadded 10 10 b (bytes_between row.new 14 24) }
    ensures between { bytes_between row.new 10 14 ≡ bytes_between row.old 10 14 }
{
    padded_length(10, 10);
    let _end = Padded(a, 10).write_at(0, row);
    let _end = Padded(b, 10).write_at(14, row);
}
