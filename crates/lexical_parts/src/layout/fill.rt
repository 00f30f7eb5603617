//! Runs of one byte, before a text and after it.

ghost use Rattle.std.specs.Fmt.{WritesInCalls};
ghost use Rattle.std.specs.Prelude.{IsOk, ◌+◌, ◌<◌, ◌≤◌, ◌++◌, length, replicate, take};
ghost use Rattle.lexical_write_integer.specs.Buffer.{Front, Writes};
ghost use Rattle.lexical_write_integer.specs.Sequence.{IsExactly};

use super::column::Left;
use crate::part::Part;
use std::fmt;

// Writes `count` copies of the byte to the start of the buffer, and returns `count`.
pub(crate) fn write_fill(fill: u8, count: usize, buffer: &mut [u8]) -> usize
    requires { count ≤ length buffer.old }
    ensures { Writes (IsExactly (replicate count fill)) buffer.old buffer.new result }
{
    buffer[..count].fill(fill);
    count
}

// Moves the first `count` bytes of the buffer to the right, and writes `more` copies of the byte before them.
pub(crate) fn insert_fill(fill: u8, more: usize, count: usize, buffer: &mut [u8])
    requires { more + count ≤ length buffer.old }
    ensures { Front buffer.old buffer.new (replicate more fill ++ take count buffer.old) }
{
    buffer.copy_within(..count, more);
    buffer[..more].fill(fill);
}

// The most copies of a byte that are written with one call.
const RUN: usize = 64;

// Writes copies of a byte to a writer.
pub(crate) fn write_copies<O: fmt::Write>(byte: u8, count: usize, out: &mut O) -> fmt::Result
    requires { byte < 128 }
    ensures { IsOk result → WritesInCalls O.write_str_gives out.old (replicate count byte) out.new }
{
    for _ in 0..count / RUN {
        write_run(byte, RUN, out)?;
    }
    write_run(byte, count % RUN, out)
}

// Writes copies of a byte to a writer with one call.
fn write_run<O: fmt::Write>(byte: u8, count: usize, out: &mut O) -> fmt::Result
    requires byte { byte < 128 }
    requires count { count ≤ 64 }
    ensures { IsOk result → O.write_str_gives out.old (replicate count byte) out.new }
{
    out.write_str(Left("", count, byte).to_str(&mut [0; RUN]))
}
