//! Writes texts that consist of several parts, such as a log line or a CSV row. A tuple of parts
//! says what the text is, and one call writes it to a buffer:
//!
//! ```
//! use lexical_parts::{Decimal, Padded, PaddedDigits, Part};
//!
//! let mut buffer = [7; 40];
//! let date = (
//!     Padded(2026u16, 4),
//!     "-",
//!     Padded(11u8, 2),
//!     "-",
//!     Padded(3u8, 2),
//! );
//! let flags = PaddedDigits(16, 255u32, 2);
//! let text = (date, " ", Decimal(-12i32), " kg 0x", flags, ";").to_text(&mut buffer);
//! assert_eq!(rt; &*text, b"2026-11-03 -12 kg 0xFF;".as_slice());
//! ```
//!
//! The calls are the methods of [`Part`]. The other types here are parts, and so are the integer types.
//!
//! [`Decimal`], [`Formatted`], [`Plus`], [`Hex`], [`FullHex`], [`Binary`], [`Digits`], [`InRadix`], [`Padded`],
//! [`PaddedDigits`], [`Fixed`], [`GroupedFixed`] and [`TrimmedFixed`] also have `Display`: `{}` of such a part writes
//! its text, with the sign, the width and the fill as of an integer, and `#` and a precision do nothing. `{}` of a
//! [`Shown`] writes a tuple or any other part as it does a `&str`, and so does that of [`Joined`], [`Left`], [`Right`],
//! [`Center`], [`ZeroPadded`], [`Lower`], [`OrElse`], [`Scientific`] and [`HexBytes`]. `{}` is an error if the part is
//! not valid, or if it contains a byte that [`Part::to_str`] refuses.

// The example is from the test `texts_for_writing` in `crates/uses/src/tests/lines.rt`.
#![tactic(auto)]

// The trait that each part implements, what keeps others from defining some of its methods, and the trait of the parts
// that any writer takes.
mod part;
pub(crate) mod sealed;
pub(crate) mod show;

// The parts, by what their texts are.
mod layout;
mod numbers;
mod texts;

// Parts in a format string.
mod formatting;

// Laws for callers.
mod laws;

pub use formatting::shown::Shown;
pub use laws::bytes::fixed_has_no;
pub use laws::equal::{
    equal_amounts, equal_fixed, equal_hex_bytes, equal_padded_pairs, equal_pairs, equal_scientific,
    equal_zero_padded, padded_decides, same_before, same_parts, same_split,
};
pub use laws::positions::{byte_starts_at, part_starts_at};
pub use laws::read_back::{fixed_read_back, zero_padded_read_back};
pub use layout::column::{Center, Left, Right};
pub use layout::field::write_field;
pub use layout::joined::{Joined, rooms_at_most};
pub use layout::with_length::write_with_length;
pub use layout::zero_padded::ZeroPadded;
pub use numbers::decimal::Decimal;
pub use numbers::decimal_buffer::Buffer;
pub use numbers::digits::{Digits, InRadix};
pub use numbers::fixed::{Fixed, GroupedFixed};
pub use numbers::formatted::{Formatted, formatted_room_suffices};
pub use numbers::padded::{Padded, PaddedDigits};
pub use numbers::plus::Plus;
pub use numbers::powers_of_two::{Binary, FullHex, Hex};
pub use numbers::scientific::Scientific;
pub use numbers::sign::Sign;
pub use numbers::trimmed::TrimmedFixed;
pub use part::Part;
pub use show::Show;
pub use texts::bytes::{Byte, Bytes};
pub use texts::hex_bytes::HexBytes;
pub use texts::lower::Lower;
pub use texts::option::OrElse;
