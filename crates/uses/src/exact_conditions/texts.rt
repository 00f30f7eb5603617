//! Calls that write a text, each to a buffer of exactly the required length.

use lexical_lines::join;
use lexical_parts::{Byte, Part};
use lexical_write_integer::format::STANDARD;
use lexical_write_integer::{NumberFormatBuilder, Options, ToLexical, ToLexicalWithOptions};

/// Returns the length of a negative `i8`.
pub fn negative_i8() -> usize {
    (-123i8).to_lexical(&mut [0; 4]).len()
}

/// Returns the length of a negative `i16`.
pub fn negative_i16() -> usize {
    (-1234i16).to_lexical(&mut [0; 6]).len()
}

/// Returns the length of a negative `i32`.
pub fn negative_i32() -> usize {
    (-123456i32).to_lexical(&mut [0; 11]).len()
}

/// Returns the length of a negative `i64`.
pub fn negative_i64() -> usize {
    (-1234567i64).to_lexical(&mut [0; 20]).len()
}

/// Returns the length of a negative `isize`.
pub fn negative_isize() -> usize {
    (-123456isize).to_lexical(&mut [0; 20]).len()
}

/// Returns the length of a `u8`.
pub fn positive_u8() -> usize {
    125u8.to_lexical(&mut [0; 3]).len()
}

/// Returns the length of a positive `i16`.
pub fn positive_i16() -> usize {
    12i16.to_lexical(&mut [0; 5]).len()
}

/// Returns the length of a positive `i32`.
pub fn positive_i32() -> usize {
    123456i32.to_lexical(&mut [0; 10]).len()
}

/// Returns the length of a positive `i64`.
pub fn positive_i64() -> usize {
    123456i64.to_lexical(&mut [0; 19]).len()
}

/// Returns the length of a `usize`.
pub fn positive_usize() -> usize {
    123456usize.to_lexical(&mut [0; 20]).len()
}

/// Writes 1234567 in groups of three to 13 bytes, for the 10 digits of a `u32` and 3 separators, and
/// returns the length of the text.
pub fn text_of_a_u32_in_groups() -> usize {
    let format = NumberFormatBuilder::new()
        .digit_grouping(3, b',')
        .build_strict();
    1234567u32.write_lexical_with_options(&mut [0; 13], &format, &Options::new())
}

/// Writes 1, -2 and 3, joined by commas, to 15 bytes, for each the 4 bytes of an `i8` and one separator,
/// and returns the length of the text.
pub fn length_of_joined_texts() -> usize {
    join(
        &[1i8, -2, 3],
        b',',
        &mut [0; 15],
        &STANDARD,
        &Options::new(),
    )
    .len()
}

/// Returns the length of a `&str` with the largest byte that is ASCII.
pub fn str_with_the_largest_ascii_byte() -> usize {
    (Byte(127), " 5").to_str(&mut [0; 3]).len()
}
