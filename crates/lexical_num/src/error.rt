//! The errors of the format builder.

use std::fmt;

/// The result of building: the value, or the error. `Result<T, E>` with another error is that of the standard library,
/// so an import of all names of this crate does not change what it means.
///
/// ```
/// use lexical_write_integer::{NumberFormat, NumberFormatBuilder, Result};
///
/// fn format(radix: u8) -> Result<NumberFormat> {
///     NumberFormatBuilder::new().mantissa_radix(radix).build()
/// }
/// assert!(rt; format(36).is_ok() && format(37).is_err());
/// ```
pub type Result<T, E = Error> = std::result::Result<T, E>;

/// Why a format is not valid: its first invalid field, with the value of that field.
///
/// ```
/// use lexical_write_integer::{Error, NumberFormatBuilder};
///
/// let error = NumberFormatBuilder::new().mantissa_radix(37).build().unwrap_err();
/// assert_eq!(rt; error, Error::InvalidMantissaRadix(37));
/// assert_eq!(rt; error.to_string(), "invalid mantissa radix 37");
/// ```
#[derive(Clone, Copy, PartialEq, Eq, Hash, Debug, Drop)]
pub enum Error {
    /// The mantissa radix is below 2 or above 36.
    InvalidMantissaRadix(u8),
    /// The exponent radix is below 2 or above 36.
    InvalidExponentRadix(u8),
    /// The number of digits of a group is 0 or above 64.
    InvalidGroupSize(u8),
    /// The mark, which is the separator between two groups, is not from 32 to 126, or it is a
    /// letter, a digit, `+` or `-`.
    InvalidGroupMark(u8),
}

impl fmt::Display for Error {
    ghost use Rattle.std.specs.Prelude.{Some};
    ghost use Rattle.lexical_num.specs.Error.{printed_text};

    ghost output = { λ error. Some (printed_text error) };

    fn fmt<W: fmt::Write>(&self, f: &mut fmt::Formatter<W>) -> fmt::Result {
        match self {
            Error::InvalidMantissaRadix(radix) => write!(f, "invalid mantissa radix {radix}"),
            Error::InvalidExponentRadix(radix) => write!(f, "invalid exponent radix {radix}"),
            Error::InvalidGroupSize(size) => write!(f, "invalid group size {size}"),
            Error::InvalidGroupMark(mark) => write!(f, "invalid group mark {mark}"),
        }
    }
}

impl std::error::Error for Error {}
