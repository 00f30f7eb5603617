//! Parts that are numbers.

// In decimal, in any radix, and in a format.
pub(crate) mod decimal;
pub(crate) mod digits;
pub(crate) mod formatted;
// The last two in little code.
pub(crate) mod compact;

// The integer types, numbers that always have a sign, and the sign alone.
mod integers;
pub(crate) mod plus;
pub(crate) mod sign;

// Leading zeros, and radix 16 and 2.
pub(crate) mod padded;
pub(crate) mod powers_of_two;

// With decimals, and in scientific notation.
pub(crate) mod fixed;
pub(crate) mod scientific;
pub(crate) mod trimmed;

// A number as a `&str`, in a buffer of its own.
pub(crate) mod decimal_buffer;
