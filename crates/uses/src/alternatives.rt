//! Writes parts in place of others, and parts by reference.

ghost use Rattle.std.specs.Prelude.{◌+◌, ◌≤◌, length, pos};
ghost use Rattle.lexical_write_integer.specs.Buffer.{Writes};
ghost use Rattle.lexical_parts.specs.Optional.{IsOrElse};
ghost use Rattle.lexical_parts.specs.Sequence.{◌then◌, IsDecimal, IsStr};

use lexical_parts::{Joined, OrElse, Part};

/// Writes the header of an answer with these bytes of a total, which is `*` if it is not known, and returns its length.
pub fn write_content_range(
    first: u64,
    last: u64,
    total: Option<u64>,
    buffer: &mut [u8; 85],
) -> usize
    ensures { Writes (IsStr "Content-Range: bytes " then IsDecimal (pos first) then IsStr "-"
        then IsDecimal (pos last) then IsStr "/" then IsOrElse (λ total. IsDecimal (pos total)) (IsStr "*") total
        then IsStr "\r\n") buffer.old buffer.new result }
{
    (
        "Content-Range: bytes ",
        first,
        "-",
        last,
        "/",
        OrElse(total, "*"),
        "\r\n",
    )
        .write_to(buffer)
}

/// Writes two parts by reference, which may be large, with a comma between them, and returns the length.
pub fn write_both<P: Part>(first: &P, second: &P, buffer: &mut [u8]) -> usize
    requires first { P.is_valid first.now }
    requires second { P.is_valid second.now }
    requires room { P.room first.now + 1 + P.room second.now ≤ length buffer.old }
    ensures { Writes (P.is_text first.now then IsStr "," then P.is_text second.now) buffer.old buffer.new result }
{
    (first, ",", second).write_to(buffer)
}

/// Writes the same for parts of an array of references.
pub fn write_joined<P: Part>(first: &P, second: &P, buffer: &mut [u8]) -> usize
    requires first { P.is_valid first.now }
    requires second { P.is_valid second.now }
    requires room { P.room first.now + P.room second.now + 1 ≤ length buffer.old }
    ensures { Writes (P.is_text first.now then IsStr "," then P.is_text second.now) buffer.old buffer.new result }
{
    Joined(&[first, second], ",").write_to(buffer)
}
