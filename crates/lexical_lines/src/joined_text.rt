//! Writes several numbers with a separator between adjacent ones.

ghost use Rattle.std.specs.Prelude.{◌+◌, ◌-◌, ◌*◌, ◌≤◌, [], ◌∷◌, length};
ghost use Rattle.std.specs.Borrow.{sem};
ghost use Rattle.lexical_num.specs.Size.{size_in};
ghost use Rattle.lexical_write_integer.specs.Buffer.{Writes};
ghost use Rattle.lexical_write_integer.specs.Lending.{LendsFront};
ghost use Rattle.lexical_write_integer.specs.Sequence.{AreJoined};
ghost use Rattle.lexical_write_integer.specs.Text.{IsText};

use lexical_num::{FormattedSize, LexicalInteger, NumberFormat, WriteOptions};
use lexical_write_integer::ToLexicalWithOptions;
use lexical_write_integer::buffer::front_mut;
use lexical_write_integer::laws::size_suffices_for_type;

/// Writes the texts of the values, with `separator` between adjacent texts, to the start of `buffer`, and
/// returns the number of bytes written: 0 if there are no values.
///
/// For each value, the buffer must have the buffer size of the type in the format plus one byte. The
/// bytes after the written ones are unchanged. The options have no effect.
///
/// # Panics
///
/// If the buffer is too short.
pub fn write_joined<T: ToLexicalWithOptions>(
    values: &[T],
    separator: u8,
    buffer: &mut [u8],
    format: &NumberFormat,
    options: &T::Options,
) -> usize
    requires { length values.now * (size_in T.FORMATTED_SIZE T.FORMATTED_SIZE_DECIMAL format.now + 1)
        ≤ length buffer.old }
    ensures text { Writes
        (AreJoined (λ x. IsText (T.number x) format.now) (separator ∷ []) values.now)
        buffer.old buffer.new result }
    ensures at_most { result ≤ length values.now
        * (size_in T.FORMATTED_SIZE T.FORMATTED_SIZE_DECIMAL format.now + 1) - 1 }
{
    size_suffices_for_type::<T>(format);
    let size = options.buffer_size::<T>(format);
    let mut count = 0;
    for (index, value) in values.iter().enumerate() {
        // A separator precedes each text except the first, so none follows the last.
        if index > 0 {
            buffer[count] = separator;
            count += 1;
        }
        value.in_range();
        let room = &mut buffer[count..count + size];
        count += value.write_lexical_with_options(room, format, options);
    }
    count
}

/// Writes the texts of the values as `write_joined` does, and returns the written prefix of `buffer`.
///
/// The buffer length required is that of `write_joined`. The returned slice borrows from `buffer`, so
/// a caller that changes it changes `buffer`. The bytes after the prefix are unchanged.
///
/// # Panics
///
/// If the buffer is too short.
pub fn join<'a, T: ToLexicalWithOptions>(
    values: &[T],
    separator: u8,
    buffer: &'a mut [u8],
    format: &NumberFormat,
    options: &T::Options,
) -> &'a mut [u8]
    requires { length values.now * (size_in T.FORMATTED_SIZE T.FORMATTED_SIZE_DECIMAL format.now + 1)
        ≤ length buffer.old }
    ensures* lends { sem 𝓛 (LendsFront buffer.entry (length result.now) result) }
    ensures text { AreJoined (λ x. IsText (T.number x) format.now) (separator ∷ []) values.now result.now }
    ensures at_most { length result.now ≤ length values.now
        * (size_in T.FORMATTED_SIZE T.FORMATTED_SIZE_DECIMAL format.now + 1) - 1 }
{
    let count = write_joined(values, separator, buffer, format, options);
    front_mut(buffer, count)
}
