//! Formats: how a number is written.

ghost use Rattle.std.specs.Prelude.{◌≡◌, ◌^◌, ◌<◌, ◌↔◌, IsTrue};
ghost use Rattle.std.specs.Option.{ForSome};
ghost use Rattle.lexical_num.specs.Format.{IsRadix, IsGrouping, IsValid, grouped_length};

use crate::limits::{is_group_size, is_mark, is_radix};
use std::marker::Model;

/// The parts of a format, valid or not: the radices of the mantissa and of the exponent, whether a
/// `+` precedes a number that is not negative, and, if the digits are grouped, the number of digits
/// of a group and the mark, which is the separator between two groups.
#[derive(Clone, Copy, PartialEq, Eq, Hash, Debug)]
pub(crate) struct Parts {
    pub mantissa_radix: u8,
    pub exponent_radix: u8,
    pub required_mantissa_sign: bool,
    pub digit_grouping: Option<(u8, u8)>,
}

impl Parts {
    /// Returns whether a format can have these parts.
    pub const fn are_valid(&self) -> bool
        ensures { IsTrue result ↔ IsValid self.now }
    {
        let are_groups_valid = match self.digit_grouping {
            Some((size, mark)) => is_group_size(size as u64) && is_mark(mark as u64),
            None => true,
        };
        is_radix(self.mantissa_radix as u64)
            && is_radix(self.exponent_radix as u64)
            && are_groups_valid
    }
}

/// How a number is written: in which radix, with which groups of digits, and whether it needs a `+`.
///
/// A format is always valid: both radices are from 2 to 36. If the digits are grouped, a group has from 1 to 64 digits,
/// and the separator is a printable ASCII character other than a letter, a digit or a sign.
/// [`NumberFormatBuilder`](super::NumberFormatBuilder) builds a format.
///
/// ```
/// use lexical_write_integer::{NumberFormat, NumberFormatBuilder};
///
/// const HEXADECIMAL: NumberFormat = NumberFormatBuilder::from_radix(16);
/// assert_eq!(rt; HEXADECIMAL.mantissa_radix(), 16);
/// ```
#[derive(Clone, Copy, PartialEq, Eq, Hash, Debug)]
pub struct NumberFormat {
    pub(crate) parts: Parts,
}

impl Model for NumberFormat {
    ghost use Rattle.lexical_num.specs.Format.{Format, IsValid};

    ghost Value = { Format };

    ghost view = { λ format. format.parts };

    ghost invariant = { λ format. IsValid format.parts };

    ghost inverse = { λ parts. record { parts = parts } };
}

/// The decimal format, with no sign before a number that is not negative, and no groups.
pub const STANDARD: NumberFormat = NumberFormat {
    parts: Parts {
        mantissa_radix: 10,
        exponent_radix: 10,
        required_mantissa_sign: false,
        digit_grouping: None,
    },
};

impl NumberFormat {
    /// Returns the mantissa radix, from 2 to 36, as `mantissa_radix` does.
    pub const fn radix(&self) -> u32
        ensures value { result ≡ self.now.mantissa_radix }
        ensures radix { IsRadix result }
    {
        self.mantissa_radix()
    }

    /// Returns the mantissa radix, from 2 to 36, in which integers are written.
    pub const fn mantissa_radix(&self) -> u32
        ensures value { result ≡ self.now.mantissa_radix }
        ensures radix { IsRadix result }
    {
        self.parts.mantissa_radix as u32
    }

    /// Returns the exponent radix, from 2 to 36, in which exponents are written.
    pub const fn exponent_radix(&self) -> u32
        ensures value { result ≡ self.now.exponent_radix }
        ensures radix { IsRadix result }
    {
        self.parts.exponent_radix as u32
    }

    /// Returns whether a `+` precedes a number that is not negative.
    pub const fn required_mantissa_sign(&self) -> bool
        ensures { result ≡ self.now.required_mantissa_sign }
    {
        self.parts.required_mantissa_sign
    }

    /// Returns the number of digits of a group, from 1 to 64, and the separator between two groups,
    /// or `None` if the digits are not grouped.
    pub const fn digit_grouping(&self) -> Option<(u8, u8)>
        ensures value { result ≡ self.now.digit_grouping }
        ensures valid { ForSome result IsGrouping }
    {
        self.parts.digit_grouping
    }

    /// Returns the number of bytes that `count` digits take in the format. If the digits are grouped,
    /// a separator precedes each group but the first: 9 for 7 digits in groups of three. The count is at most
    /// `isize::MAX`.
    ///
    /// # Panics
    ///
    /// If the digits are grouped and the count is above `isize::MAX`.
    pub const fn grouped_len(&self, count: usize) -> usize
        requires { count < 2 ^ 63 }
        ensures { result ≡ grouped_length self.now.digit_grouping count }
    {
        match self.digit_grouping() {
            Some((size, _)) => {
                // In Rust nothing else refuses a sum that wraps.
                prove!(count <= usize::MAX / 2, "the count is above isize::MAX");
                count + count.saturating_sub(1) / size as usize
            }
            None => count,
        }
    }

    /// A law: the parts of the format are in their ranges.
    pub const fn in_range(&self)
        ensures { IsValid self.now }
    {
        // Reading the parts makes their invariant known to the prover.
        let _ = &self.parts;
    }

    /// Returns whether numbers can be written in the format. It is always true, because a builder makes no other
    /// formats.
    pub const fn is_valid(&self) -> bool
        ensures always { IsTrue result }
        ensures valid { IsValid self.now }
    {
        self.in_range();
        self.parts.are_valid()
    }
}

impl Default for NumberFormat {
    ghost use Rattle.lexical_num.specs.Format.{standard};

    ghost is_default = { λ format. format ≡ standard };

    fn default() -> Self {
        STANDARD
    }
}
