//! Adds the text of a line, of a number or of any part to a `Vec`, to a `String` and to what a writer holds.

ghost use Rattle.std.specs.Prelude.{◌≡◌, ℕ, List, OnErr, OnOk, string_bytes};
ghost use Rattle.std.specs.Io.KnownBytes.{Appends};
ghost use Rattle.lexical_num.specs.Format.{standard};
ghost use Rattle.lexical_write_integer.specs.Sequence.{IsExactly};
ghost use Rattle.lexical_write_integer.specs.Text.{IsText};
ghost use Rattle.lexical_parts.specs.Sequence.{◌then◌};
ghost use Rattle.uses.specs.LogLine.{IsLogLine};

use lexical_parts::{Buffer, Hex, Part};
use std::alloc::AllocError;
use std::io::{self, Write};

/// Adds a line with a count and flags, such as `12 0xFF`, to the end of the log, or returns an error if
/// memory runs out. Then the log is unchanged.
pub fn push_line(log: &mut Vec<u8>, count: u32, flags: u16) -> Result<(), AllocError>
    ensures line { OnOk result ((IsExactly log.old.items then IsLogLine count flags) log.new.items) }
    ensures unchanged { OnErr result (log.new.items ≡ log.old.items) }
{
    log.extend_from_slice((count, " 0x", Hex(flags), "\n").to_text(&mut [0; 18]))
}

/// Adds the number in decimal to the end of the log, as a writer of JSON does.
pub fn push_number(log: &mut Vec<u8>, number: i64) -> Result<(), AllocError>
    ensures number { OnOk result ((IsExactly log.old.items then IsText number standard) log.new.items) }
    ensures unchanged { OnErr result (log.new.items ≡ log.old.items) }
{
    log.extend_from_slice(Buffer::new().format(number).as_bytes())
}

/// Adds the text of any part to the end of the log. The vector gets the room of the part if it does not have it.
pub fn push_part<P: Part>(log: &mut Vec<u8>, part: P) -> Result<(), AllocError>
    requires { P.is_valid part }
    ensures part { OnOk result ((IsExactly log.old.items then P.is_text part) log.new.items) }
    ensures unchanged { OnErr result (log.new.items ≡ log.old.items) }
{
    let start = log.len();
    log.resize(start.saturating_add(part.room()), 0)?;
    let end = part.write_at(start, log);
    log.truncate(end);
    Ok(())
}

/// Adds the line to a `String`, as `push_line` adds it to a `Vec`.
pub fn push_str_line(log: &mut String, count: u32, flags: u16) -> Result<(), AllocError>
    ensures line { OnOk result
        ((IsExactly (string_bytes log.old) then IsLogLine count flags) (string_bytes log.new)) }
    ensures unchanged { OnErr result (string_bytes log.new ≡ string_bytes log.old) }
{
    log.push_str((count, " 0x", Hex(flags), "\n").to_str(&mut [0; 18]))
}

/// Writes the line to a writer. If the bytes that it holds are known, it holds the line after them.
pub fn write_line<W: Write>(log: &mut W, count: u32, flags: u16) -> io::Result<()>
    ensures { OnOk result ((line : List ℕ) × IsLogLine count flags line
        × Appends (W.contents log.old) (W.contents log.new) line) }
{
    log.write_all((count, " 0x", Hex(flags), "\n").to_text(&mut [0; 18]))
}
