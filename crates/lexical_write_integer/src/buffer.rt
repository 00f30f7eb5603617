//! The first bytes of a buffer.

ghost use Rattle.std.specs.Prelude.{◌≡◌, ◌≤◌, length, take};
ghost use Rattle.std.specs.Borrow.{sem};
ghost use Rattle.lexical_write_integer.specs.Buffer.{Front};
ghost use Rattle.lexical_write_integer.specs.Lending.{LendsFront};

/// Copies a text to the start of the buffer, and returns its length. The buffer is at least as long as
/// the text, and every byte after the text is unchanged.
///
/// # Panics
///
/// If the buffer is [too short](crate::conditions).
pub fn copy_to_front(text: &[u8], buffer: &mut [u8]) -> usize
    requires { length text.now ≤ length buffer.old }
    ensures front { Front buffer.old buffer.new text.now }
    ensures count { result ≡ length text.now }
{
    let count = text.len();
    buffer[..count].copy_from_slice(text);
    count
}

/// Returns the first `count` bytes of the buffer as a mutable slice. The count is at most the length of
/// the buffer. What the caller then writes to the slice changes those bytes of the buffer.
///
/// # Panics
///
/// If the buffer is [too short](crate::conditions).
pub fn front_mut(buffer: &mut [u8], count: usize) -> &mut [u8]
    requires { count ≤ length buffer.old }
    ensures* lends { sem 𝓛 (LendsFront buffer.entry count result) }
    ensures front { result.now ≡ take count buffer.old }
{
    &mut buffer[..count]
}
