//! Writes a setting: a key, `=` and a number of any type, if there is one.

ghost use Rattle.std.specs.Prelude.{◌≡◌, ◌+◌, ◌<◌, ◌≤◌, IfNone, IfSome, IsSome, length};
ghost use Rattle.lexical_write_integer.specs.Buffer.{Writes};
ghost use Rattle.lexical_write_integer.specs.Sequence.{IsExactly};
ghost use Rattle.lexical_parts.specs.Length.{HasLonger};
ghost use Rattle.lexical_parts.specs.Optional.{IsOptional, optional_room};
ghost use Rattle.lexical_parts.specs.Sequence.{◌then◌, IsDecimal, IsStr};

use lexical_parts::{Bytes, Decimal, Part};
use lexical_write_integer::ToLexicalWithOptions;

/// Writes the key, `=`, the number in decimal, or nothing for `None`, and a newline to the start of the
/// buffer, and returns the number of bytes written. The room of the text is the length of the key, two bytes, and those
/// of the longest number of the type. If the buffer does not have the room, and the room is above 256 bytes or the text
/// does not fit, returns `None`, and the buffer is unchanged.
pub fn try_write_setting<T: ToLexicalWithOptions>(
    key: &[u8],
    number: Option<Decimal<T>>,
    buffer: &mut [u8],
) -> Option<usize>
    ensures fits { length key.now + 2 + optional_room (λ _. T.FORMATTED_SIZE_DECIMAL) number
        ≤ length buffer.old → IsSome result }
    ensures longer { IfNone result (length key.now + 2 + optional_room (λ _. T.FORMATTED_SIZE_DECIMAL) number ≤ 256
        → HasLonger (IsExactly key.now then IsStr "=" then IsOptional (λ d. IsDecimal (T.number d.0)) number
        then IsStr "\n") (length buffer.old)) }
    ensures large { IsSome result → 256 < length key.now + 2 + optional_room (λ _. T.FORMATTED_SIZE_DECIMAL) number
        → length key.now + 2 + optional_room (λ _. T.FORMATTED_SIZE_DECIMAL) number ≤ length buffer.old }
    ensures text { IfSome result (Writes
        (IsExactly key.now then IsStr "=" then IsOptional (λ d. IsDecimal (T.number d.0)) number
        then IsStr "\n") buffer.old buffer.new) }
    ensures none { IfNone result (buffer.new ≡ buffer.old) }
{
    (Bytes(key), "=", number, "\n").try_write_to(buffer)
}
