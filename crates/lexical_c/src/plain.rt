//! Writes a number in a format without groups and required signs. The buffer is long enough for every number of the
//! type, or at least for every number that has as many bits as this one.

ghost use Rattle.std.specs.Prelude.{◌≡◌, ◌+◌, ◌*◌, ◌≤◌, ◌≤ℤ◌, ◌↔◌, ℕ, ℤ, IsTrue, length, map, false, None, IfSome};
ghost use Rattle.std.specs.Prelude.{unsigned_abs};
ghost use Rattle.std.specs.Int.Bits.{bit_or};
ghost use Rattle.lexical_num.specs.Format.{IsRadix, standard};
ghost use Rattle.lexical_num.specs.Range.{greatest_of, least_of};
ghost use Rattle.lexical_num.specs.Sign.{sign_of};
ghost use Rattle.lexical_write_integer.specs.Buffer.{WritesText};
ghost use Rattle.lexical_write_integer.specs.DigitCount.{digit_count};
ghost use Rattle.lexical_write_integer.specs.Text.{need};
ghost use Rattle.lexical_c.specs.Buffer.{WritesOrRefuses};
ghost use Rattle.lexical_c.specs.Format.{HasOnlyRadixAndCase};

use crate::format::CFormat;
use crate::integer::WideInteger;
use lexical_num::LexicalInteger;
use lexical_num::format::STANDARD;
use lexical_num::limits::is_radix;
use lexical_write_integer::digit_count::fast_log2;
use lexical_write_integer::{NumberFormat, NumberFormatBuilder, ToLexical, sign_len};

/// Returns whether every field but the radix, the mark and lowercase is 0. No field is tested by itself, so
/// that one branch is enough.
pub fn has_only_radix_and_case(format: &CFormat) -> bool
    ensures { IsTrue result ↔ HasOnlyRadixAndCase format.now }
{
    (format.required_sign == 0)
        & (format.group_size == 0)
        & (format.reserved_1 == 0)
        & (format.reserved_2 == 0)
}

/// Returns the format of this radix without a required sign and groups if the radix is valid and not 10, and a buffer
/// of `room` bytes is enough for every number of the type in each radix. Otherwise returns `None`.
// The room is tested first, because LLVM then makes a branch of each test.
pub fn fitting_format<T: LexicalInteger>(radix: u32, room: usize) -> Option<NumberFormat>
    ensures format { IfSome result (λ plain. plain ≡ record standard { mantissa_radix = radix }) }
    ensures radix { IfSome result (λ plain. IsRadix radix) }
    ensures room { IfSome result (λ plain. (x : ℤ) → least_of T.BITS T.IS_SIGNED ≤ℤ x
        → x ≤ℤ greatest_of T.BITS T.IS_SIGNED → (width : ℕ) → need x width plain ≤ room) }
{
    if T::BITS + usize::from(T::IS_SIGNED) <= room && radix != 10 && is_radix(u64::from(radix)) {
        Some(format_in(radix))
    } else {
        None
    }
}

/// Returns the format of this radix without a required sign and groups if the radix is valid and not 10, and a buffer
/// of `room` bytes is enough for each number whose highest bit is that of this number. Otherwise returns `None`.
pub fn format_by_bits<T: WideInteger>(value: T, radix: u32, room: usize) -> Option<NumberFormat>
    ensures format { IfSome result (λ plain. plain ≡ record standard { mantissa_radix = radix }) }
    ensures radix { IfSome result (λ plain. IsRadix radix) }
    ensures room { IfSome result (λ plain. (width : ℕ) → need (T.number value) width plain ≤ room) }
{
    if radix == 10 || !is_radix(u64::from(radix)) {
        return None;
    }
    let digits = room.saturating_sub(sign_len(value, &STANDARD));
    // A digit has at least as many bits as the logarithm of the radix, and no number has more than 64.
    if digits.min(64) * fast_log2(radix) > fast_log2(value.magnitude()) {
        Some(format_in(radix))
    } else {
        None
    }
}

// Returns the format of a radix without a required sign and groups.
fn format_in(radix: u32) -> NumberFormat
    requires { IsRadix radix }
    ensures { result ≡ record standard { mantissa_radix = radix } }
{
    let builder = NumberFormatBuilder::new().mantissa_radix(radix as u8);
    builder.build_strict()
}

// Sets the bit of value 32 in each byte of a text.
fn set_bit_in_each(text: &mut [u8])
    ensures { text.new ≡ map (λ byte. bit_or byte 32) text.old }
{
    for byte in text.iter_mut() {
        *byte |= 32;
    }
}

// Sets the bit in the first `SIZE` bytes of a text and in the last `SIZE`, which together are all bytes. If they
// overlap, it is set twice. A compiler makes one operation of a constant number of bytes.
fn set_bit_in_halves<const SIZE: usize>(text: &mut [u8])
    requires ends { SIZE ≤ length text.old }
    requires all { length text.old ≤ 2 * SIZE }
    ensures { text.new ≡ map (λ byte. bit_or byte 32) text.old }
{
    set_bit_in_each(&mut text[..SIZE]);
    let start = text.len() - SIZE;
    set_bit_in_each(&mut text[start..]);
}

/// Sets the bit of value 32 in each byte of a text. Of the bytes of digits and signs only uppercase letters lack this
/// bit, which is all that distinguishes them from lowercase letters.
pub fn set_lowercase_bit(text: &mut [u8])
    ensures { text.new ≡ map (λ byte. bit_or byte 32) text.old }
{
    match text.len() {
        0 => {}
        1..=2 => set_bit_in_halves::<1>(text),
        3..=4 => set_bit_in_halves::<2>(text),
        5..=8 => set_bit_in_halves::<4>(text),
        9..=16 => set_bit_in_halves::<8>(text),
        _ => set_bit_in_each(text),
    }
}

/// Writes a number to the start of the buffer, and returns the length of the text. The format must have
/// no required sign and no groups, and the buffer must have the length that the writer of the number requires.
pub fn write_plain<T: ToLexical>(value: T, format: &NumberFormat, buffer: &mut [u8]) -> usize
    requires sign { format.now.required_mantissa_sign ≡ false }
    requires groups { format.now.digit_grouping ≡ None }
    requires room { need (T.number value) T.DECIMAL_WIDTH format.now ≤ length buffer.old }
    ensures { WritesText (T.number value) format.now buffer.old buffer.new result }
{
    value.in_range();
    if !T::IS_SIGNED {
        return value.write_magnitude(format, buffer);
    }
    // Without a sign the first digit is written over it.
    buffer[0] = b'-';
    let sign = sign_len(value, format);
    sign + value.write_magnitude(format, &mut buffer[sign..])
}

/// Writes a number in the case that the format requests, as `write_plain` does. The format must have only a radix and a
/// case, and `plain` is the same without the case.
pub fn write_in_case<T: WideInteger>(
    value: T,
    plain: &NumberFormat,
    format: &CFormat,
    buffer: &mut [u8],
) -> usize
    requires only { HasOnlyRadixAndCase format.now }
    requires radix { IsRadix format.now.radix }
    requires plain { plain.now ≡ record standard { mantissa_radix = format.now.radix } }
    requires room { need (T.number value) T.DECIMAL_WIDTH plain.now ≤ length buffer.old }
    ensures { WritesOrRefuses (T.number value) format.now buffer.old buffer.new result }
{
    value.in_range();
    let count = write_plain(value, plain, buffer);
    if format.lowercase != 0 {
        set_lowercase_bit(&mut buffer[..count]);
    }
    count
}
