//! Writing integers as text, in every radix from 2 to 36.
//!
//! `to_lexical` writes a number in decimal to the start of a buffer and returns its text. No other byte
//! of the buffer changes:
//!
//! ```
//! use lexical_write_integer::ToLexical;
//!
//! let mut buffer = [7u8; 20];
//! let text = 1234u64.to_lexical(&mut buffer);
//! assert_eq!(rt; &*text, b"1234".as_slice());
//! assert!(rt; buffer[4..].iter().all(|byte| *byte == 7));
//! ```
//!
//! `to_lexical_with_options` writes it in a format, with a required sign, in another radix or in groups:
//!
//! ```
//! use lexical_write_integer::{NumberFormatBuilder, Options, ToLexicalWithOptions};
//!
//! let mut buffer = [7u8; 20];
//! let signed = NumberFormatBuilder::new()
//!     .required_mantissa_sign(true)
//!     .build_strict();
//! let text = 127i8.to_lexical_with_options(&mut buffer, &signed, &Options::new());
//! assert_eq!(rt; &*text, b"+127".as_slice());
//! ```

// The examples above are from `a_first_use` in `crates/uses/src/tests.rt`. `crates/uses` has others.
#![tactic(auto)]

// The texts of numbers: the calls that most callers want.
mod texts;

// The digits of a number in any radix, without a sign.
mod digits;

// The start of a buffer.
pub mod buffer;

// The iterations of the loops, which only contracts see.
pub mod turns;

// Laws for callers.
pub mod laws;
pub mod options;

pub use digits::decimal::jeaiii;
pub use digits::radix::{algorithm, compact};
pub use digits::{count as digit_count, decimal, padded, radix, write};
pub use lexical_num::constants::{BUFFER_SIZE, FormattedSize};
pub use lexical_num::error::{Error, Result};
pub use lexical_num::format;
pub use lexical_num::format::NumberFormat;
pub use lexical_num::format_builder::NumberFormatBuilder;
pub use lexical_num::options::{Options, OptionsBuilder, WriteOptions};
pub use lexical_tables as table;
pub use texts::groups::group_digits;
pub use texts::to_lexical::{ToLexical, ToLexicalWithOptions, sign_len, write_sign};
