//! The answer to a line.

ghost use Rattle.std.specs.Prelude.{◌≡◌, ℕ, ◌+◌, ◌<◌, ◌≤◌, List, ◌↔◌, length, IsTrue, IfSome};
ghost use Rattle.lexical_num.specs.declared.constants.TheConstants.{BUFFER_SIZE};
ghost use Rattle.lexical_write_integer.specs.Buffer.{Writes};
ghost use Rattle.lexical_write_integer.specs.Text.{IsText};
ghost use Rattle.lexical_lines.specs.Answer.{IsAnswer, WithNewline, IsBadLine};
ghost use Rattle.lexical_lines.specs.Line.{short_line, bytes_of};
ghost use Rattle.lexical_lines.specs.Request.{IsValidLine};

// Answers to the lines of bytes that arrive in chunks, and of a whole source.
pub mod answerer;
pub mod line_loop;
mod newline;

// The exit status that tells how a run ended.
pub mod exit_status;

use crate::request::{Number, parse};
use lexical_num::format::STANDARD;
use lexical_num::{BUFFER_SIZE, NumberFormat};
use lexical_write_integer::buffer::copy_to_front;
use lexical_write_integer::laws::size_suffices;
use lexical_write_integer::{ToLexical, ToLexicalWithOptions};

/// The length of a buffer that is long enough for every answer: `bad line `, the text of a number,
/// and a newline.
pub const MAX_ANSWER: usize = BUFFER_SIZE + 10;

/// Writes the answer to a line to the start of `buffer`, and returns its length in bytes and whether
/// the line is valid. `line` is `None` if the line is longer than 64 bytes.
///
/// # Panics
///
/// If the buffer is too short.
pub fn write_answer(line: Option<&[u8]>, line_number: u64, buffer: &mut [u8]) -> (usize, bool)
    requires at_most { IfSome line (λ bytes. length bytes.now ≤ 64) }
    requires room { MAX_ANSWER ≤ length buffer.old }
    ensures within { result.0 ≤ length buffer.new }
    ensures answer { (bytes : List ℕ) → bytes_of line.entry ≡ short_line bytes
        → Writes (IsAnswer line_number bytes) buffer.old buffer.new result.0 }
    ensures valid { (bytes : List ℕ) → bytes_of line.entry ≡ short_line bytes
        → IsTrue result.1 ↔ IsValidLine bytes }
{
    match parse(line) {
        // The text does not depend on the type, so the two widest types are enough.
        Some((Number::WithoutMinus(number), format)) => (write_line(number, buffer, &format), true),
        Some((Number::WithMinus(number), format)) => (write_line(number, buffer, &format), true),
        None => (write_bad_line(line_number, buffer), false),
    }
}

// Writes `bad line `, the line number in decimal and a newline, and returns their length.
fn write_bad_line(line_number: u64, buffer: &mut [u8]) -> usize
    requires { MAX_ANSWER ≤ length buffer.old }
    ensures { Writes (WithNewline (IsBadLine line_number)) buffer.old buffer.new result }
{
    let start = copy_to_front(b"bad line ", buffer);
    start + write_line(line_number, &mut buffer[start..], &STANDARD)
}

// Writes the text of a number of any type and a newline, and returns their length.
fn write_line<T: ToLexicalWithOptions>(number: T, buffer: &mut [u8], format: &NumberFormat) -> usize
    requires { BUFFER_SIZE + 1 ≤ length buffer.old }
    ensures { Writes (WithNewline (IsText (T.number number) format.now)) buffer.old buffer.new result }
{
    size_suffices(number, format);
    let text_bytes = &mut buffer[..BUFFER_SIZE];
    let end = number.write_text(text_bytes, format);
    buffer[end] = b'\n';
    end + 1
}
