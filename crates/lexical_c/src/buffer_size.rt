//! The sizes of buffers that are enough for every number of a type.

ghost use Rattle.std.specs.Prelude.{◌-◌, ◌^◌, pos, negsuc};
ghost use Rattle.lexical_num.specs.Range.{greatest_of, least_of};
ghost use Rattle.lexical_c.specs.BufferSize.{IsBufferSize};

use crate::format::{CFormat, number_format};
use lexical_write_integer::{Options, ToLexicalWithOptions, WriteOptions};

// Returns a buffer size that is enough for every number of the type in the format, or 0 if the format
// is invalid.
fn buffer_size<T: ToLexicalWithOptions>(format: &CFormat) -> usize
    ensures { IsBufferSize (least_of T.BITS T.IS_SIGNED) (greatest_of T.BITS T.IS_SIGNED)
        T.FORMATTED_SIZE T.FORMATTED_SIZE_DECIMAL format.now result }
{
    match number_format(format) {
        Some(format) => Options::new().buffer_size::<T>(&format),
        None => 0,
    }
}

/// Returns a buffer size that is enough for every `uint8_t`, or 0 if the format is invalid.
#[unsafe(no_mangle)]
pub extern "C" fn lexical_buffer_size_u8(format: &CFormat) -> usize
    ensures { IsBufferSize (pos 0) (pos (2 ^ 8 - 1)) 16 3 format.now result }
{
    buffer_size::<u8>(format)
}

/// Returns a buffer size that is enough for every `uint16_t`, or 0 if the format is invalid.
#[unsafe(no_mangle)]
pub extern "C" fn lexical_buffer_size_u16(format: &CFormat) -> usize
    ensures { IsBufferSize (pos 0) (pos (2 ^ 16 - 1)) 32 5 format.now result }
{
    buffer_size::<u16>(format)
}

/// Returns a buffer size that is enough for every `uint32_t`, or 0 if the format is invalid.
#[unsafe(no_mangle)]
pub extern "C" fn lexical_buffer_size_u32(format: &CFormat) -> usize
    ensures { IsBufferSize (pos 0) (pos (2 ^ 32 - 1)) 64 10 format.now result }
{
    buffer_size::<u32>(format)
}

/// Returns a buffer size that is enough for every `uint64_t`, or 0 if the format is invalid.
#[unsafe(no_mangle)]
pub extern "C" fn lexical_buffer_size_u64(format: &CFormat) -> usize
    ensures { IsBufferSize (pos 0) (pos (2 ^ 64 - 1)) 128 20 format.now result }
{
    buffer_size::<u64>(format)
}

/// Returns a buffer size that is enough for every `size_t`, or 0 if the format is invalid.
#[unsafe(no_mangle)]
pub extern "C" fn lexical_buffer_size_size(format: &CFormat) -> usize
    ensures { IsBufferSize (pos 0) (pos (2 ^ 64 - 1)) 128 20 format.now result }
{
    buffer_size::<u64>(format)
}

/// Returns a buffer size that is enough for every `int8_t`, or 0 if the format is invalid.
#[unsafe(no_mangle)]
pub extern "C" fn lexical_buffer_size_i8(format: &CFormat) -> usize
    ensures { IsBufferSize (negsuc (2 ^ 7 - 1)) (pos (2 ^ 7 - 1)) 16 4 format.now result }
{
    buffer_size::<i8>(format)
}

/// Returns a buffer size that is enough for every `int16_t`, or 0 if the format is invalid.
#[unsafe(no_mangle)]
pub extern "C" fn lexical_buffer_size_i16(format: &CFormat) -> usize
    ensures { IsBufferSize (negsuc (2 ^ 15 - 1)) (pos (2 ^ 15 - 1)) 32 6 format.now result }
{
    buffer_size::<i16>(format)
}

/// Returns a buffer size that is enough for every `int32_t`, or 0 if the format is invalid.
#[unsafe(no_mangle)]
pub extern "C" fn lexical_buffer_size_i32(format: &CFormat) -> usize
    ensures { IsBufferSize (negsuc (2 ^ 31 - 1)) (pos (2 ^ 31 - 1)) 64 11 format.now result }
{
    buffer_size::<i32>(format)
}

/// Returns a buffer size that is enough for every `int64_t`, or 0 if the format is invalid.
#[unsafe(no_mangle)]
pub extern "C" fn lexical_buffer_size_i64(format: &CFormat) -> usize
    ensures { IsBufferSize (negsuc (2 ^ 63 - 1)) (pos (2 ^ 63 - 1)) 128 20 format.now result }
{
    buffer_size::<i64>(format)
}
