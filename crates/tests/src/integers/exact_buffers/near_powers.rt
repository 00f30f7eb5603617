//! Tries the numbers near the powers of each radix, for each type and format.

ghost use Rattle.std.specs.Prelude.{◌≤◌};

use super::digits::check_types;
use super::expected::Expected;
use super::numbers::number;
use crate::checks::check_equal;
use crate::integers::checks::valid;
use crate::integers::texts::check_required;
use lexical_write_integer::{NumberFormat, NumberFormatBuilder, Options, ToLexicalWithOptions};
use std::fmt::Debug;
use std::process::Abort;
use std::str::FromStr;

// Checks the number with this sign and magnitude if the type has it, and returns how many numbers were
// checked, 0 or 1.
fn try_number<T: ToLexicalWithOptions + FromStr + Debug + Drop>(
    rt: &impl Abort,
    is_negative: bool,
    magnitude: u64,
    format: &NumberFormat,
    options: &T::Options,
) -> usize
where
    T::Err: Drop,
    ensures { result ≤ 1 }
{
    let Some(value) = number::<T>(is_negative, magnitude) else {
        return 0;
    };
    let expected = Expected::new(is_negative, magnitude, format);
    check_required(rt, value, format, options, expected.text());
    // The writers of digits write neither signs nor groups.
    if !is_negative && format.digit_grouping().is_none() {
        check_types(rt, magnitude, format.mantissa_radix(), expected.digits());
    }
    1
}

// Tries the two numbers with this magnitude, and returns how many numbers were checked.
fn try_both<T: ToLexicalWithOptions + FromStr + Debug + Drop>(
    rt: &impl Abort,
    magnitude: u64,
    format: &NumberFormat,
    options: &T::Options,
) -> usize
where
    T::Err: Drop,
    ensures { result ≤ 2 }
{
    try_number::<T>(rt, false, magnitude, format, options)
        + try_number::<T>(rt, true, magnitude, format, options)
}

// Tries a power of the radix and the numbers next to it, and returns how many numbers were checked.
fn try_near<T: ToLexicalWithOptions + FromStr + Debug + Drop>(
    rt: &impl Abort,
    power: u64,
    format: &NumberFormat,
    options: &T::Options,
) -> usize
where
    T::Err: Drop,
    ensures { result ≤ 6 }
{
    // The sum does not saturate, since 2^64 - 1 is not a power of a radix.
    try_both::<T>(rt, power.saturating_sub(1), format, options)
        + try_both::<T>(rt, power, format, options)
        + try_both::<T>(rt, power.saturating_add(1), format, options)
}

// Tries the numbers near each power of the radix that fits in a `u64`, at most 64 powers, and returns how
// many numbers were checked.
fn try_powers<T: ToLexicalWithOptions + FromStr + Debug + Drop>(
    rt: &impl Abort,
    format: &NumberFormat,
    options: &T::Options,
) -> usize
where
    T::Err: Drop,
    ensures { result ≤ 384 }
{
    let radix = u64::from(format.mantissa_radix());
    let mut tried = 0;
    let mut power = 1u64;
    for _exponent in 0..64usize {
        tried += try_near::<T>(rt, power, format, options);
        let Some(next) = power.checked_mul(radix) else {
            return tried;
        };
        power = next;
    }
    tried
}

// Tries 0, 1, the limits of the type and the numbers near the powers of the radix, and returns how many
// numbers were checked. `ends` has the magnitudes of the limits.
fn try_format<T: ToLexicalWithOptions + FromStr + Debug + Drop>(
    rt: &impl Abort,
    ends: [u64; 2],
    format: &NumberFormat,
    options: &T::Options,
) -> usize
where
    T::Err: Drop,
    ensures { result ≤ 392 }
{
    let [smallest, largest] = ends;
    try_both::<T>(rt, 0, format, options)
        + try_both::<T>(rt, 1, format, options)
        + try_both::<T>(rt, smallest, format, options)
        + try_both::<T>(rt, largest, format, options)
        + try_powers::<T>(rt, format, options)
}

// Tries the numbers in this radix, with and without a required sign, and returns how many numbers were
// checked. The groups are those of the builder.
fn try_radix<T: ToLexicalWithOptions + FromStr + Debug + Drop>(
    rt: &impl Abort,
    ends: [u64; 2],
    builder: NumberFormatBuilder,
    radix: u8,
    options: &T::Options,
) -> usize
where
    T::Err: Drop,
    ensures { result ≤ 784 }
{
    let builder = builder.radix(radix);
    let unsigned = valid(rt, builder);
    let signed = valid(rt, builder.required_mantissa_sign(true));
    try_format::<T>(rt, ends, &unsigned, options) + try_format::<T>(rt, ends, &signed, options)
}

// Tries the numbers of the type in groups of this size, in radices 2, 10, 16 and 36, and returns how many
// numbers were checked.
fn try_groups<T: ToLexicalWithOptions + FromStr + Debug + Drop>(
    rt: &impl Abort,
    ends: [u64; 2],
    size: u8,
    options: &T::Options,
) -> usize
where
    T::Err: Drop,
    ensures { result ≤ 3136 }
{
    let builder = NumberFormatBuilder::new().digit_grouping(size, b'_');
    try_radix::<T>(rt, ends, builder, 2, options)
        + try_radix::<T>(rt, ends, builder, 10, options)
        + try_radix::<T>(rt, ends, builder, 16, options)
        + try_radix::<T>(rt, ends, builder, 36, options)
}

// Tries the numbers of the type in groups of 1, 2, 3, 4 and 64 digits, and returns how many numbers were
// checked.
fn try_grouped_type<T: ToLexicalWithOptions + FromStr + Debug + Drop>(
    rt: &impl Abort,
    ends: [u64; 2],
    options: &T::Options,
) -> usize
where
    T::Err: Drop,
{
    try_groups::<T>(rt, ends, 1, options)
        + try_groups::<T>(rt, ends, 2, options)
        + try_groups::<T>(rt, ends, 3, options)
        + try_groups::<T>(rt, ends, 4, options)
        + try_groups::<T>(rt, ends, 64, options)
}

// Tries the numbers of the type without groups, in each radix, and returns how many numbers were checked.
fn try_type<T: ToLexicalWithOptions + FromStr + Debug + Drop>(
    rt: &impl Abort,
    ends: [u64; 2],
    options: &T::Options,
) -> usize
where
    T::Err: Drop,
{
    let builder = NumberFormatBuilder::new();
    let mut tried = 0;
    for radix in 2..37u8 {
        tried += try_radix::<T>(rt, ends, builder, radix, options);
    }
    tried
}

// Checks the numbers of the type, and how many there are without groups and in groups.
fn check_type<T: ToLexicalWithOptions + FromStr + Debug + Drop>(
    rt: &impl Abort,
    options: &T::Options,
    ends: [u64; 2],
    expected: [usize; 2],
)
where
    T::Err: Drop,
{
    let tried = [
        try_type::<T>(rt, ends, options),
        try_grouped_type::<T>(rt, ends, options),
    ];
    check_equal(rt, ends, tried, expected);
}

#[test]
fn numbers_of_the_unsigned_types(rt: HostRuntime) {
    let options = Options::new();
    check_type::<u8>(&rt, &options, [0, 255], [856, 630]);
    check_type::<u16>(&rt, &options, [0, 65535], [1372, 1050]);
    check_type::<u32>(&rt, &options, [0, 4294967295], [2332, 1890]);
}

#[test]
fn numbers_of_u64(rt: HostRuntime) {
    let ends = [0, 18446744073709551615];
    check_type::<u64>(&rt, &Options::new(), ends, [4270, 3550]);
}

#[test]
fn numbers_of_usize(rt: HostRuntime) {
    let (ends, expected) = match usize::BITS {
        32 => ([0, 4294967295], [2332, 1890]),
        _ => ([0, 18446744073709551615], [4270, 3550]),
    };
    check_type::<usize>(&rt, &Options::new(), ends, expected);
}

#[test]
fn numbers_of_the_signed_types(rt: HostRuntime) {
    let options = Options::new();
    check_type::<i8>(&rt, &options, [128, 127], [1412, 1070]);
    check_type::<i16>(&rt, &options, [32768, 32767], [2396, 1850]);
    check_type::<i32>(&rt, &options, [2147483648, 2147483647], [4340, 3530]);
}

#[test]
fn numbers_of_i64(rt: HostRuntime) {
    let ends = [9223372036854775808, 9223372036854775807];
    check_type::<i64>(&rt, &Options::new(), ends, [8234, 6890]);
}

#[test]
fn numbers_of_isize(rt: HostRuntime) {
    let (ends, expected) = match isize::BITS {
        32 => ([2147483648, 2147483647], [4340, 3530]),
        _ => ([9223372036854775808, 9223372036854775807], [8234, 6890]),
    };
    check_type::<isize>(&rt, &Options::new(), ends, expected);
}
