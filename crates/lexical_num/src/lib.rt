//! Integer types, the lengths of buffers for their numbers, and the formats of numbers.
//!
//! A builder makes a format. `build` returns an error if a part of the format is invalid:
//!
//! ```
//! use lexical_num::{NumberFormat, NumberFormatBuilder, Result};
//!
//! fn float_format(mantissa_radix: u8, exponent_radix: u8) -> Result<NumberFormat> {
//!     NumberFormatBuilder::new()
//!         .mantissa_radix(mantissa_radix)
//!         .exponent_radix(exponent_radix)
//!         .build()
//! }
//! ```
//!
//! `build_strict` requires valid parts, and returns the format itself:
//!
//! ```
//! use lexical_num::NumberFormatBuilder;
//!
//! let thousands = NumberFormatBuilder::new()
//!     .digit_grouping(3, b',')
//!     .build_strict();
//! ```

// The examples above are from `crates/uses/src/float_parts.rt`, and from `a_first_use` in `crates/uses/src/tests.rt`.
#![tactic(auto)]

// The integer types, and the characters of digits.
pub mod digit;
pub mod num;

// Formats, their limits, their builder, and its errors.
pub mod error;
pub mod format;
pub mod format_builder;
pub mod limits;

// How long a buffer is enough.
pub mod constants;
pub mod options;

// A list of numbers that only contracts read.
pub mod ghost_log;

pub use constants::{BUFFER_SIZE, FormattedSize};
pub use digit::digit_to_char;
pub use error::{Error, Result};
pub use format::NumberFormat;
pub use format_builder::NumberFormatBuilder;
pub use num::{LexicalInteger, UnsignedInteger};
pub use options::WriteOptions;
