//! Parts in a format string: `{}` of a part writes its text, with the sign, the width and the fill of the format. A
//! part that is not valid is an error.

ghost use Rattle.std.specs.Prelude.{◌≡◌, ◌↔◌, ◌<◌, ◌≤◌, ◌/◌, ◌^◌, None, Some, ◌-◌, IfOk, IsOk, IsTrue, true, false, [], ◌∷◌, ◌++◌, drop};
ghost use Rattle.std.specs.Prelude.{length, replicate, unsigned_abs, if◌then◌else◌};
ghost use Rattle.std.specs.Fmt.{WritesOnOk, WritesStyledOnOk, formatter_spec, padded_integral, padding_before, sign_text_with};
ghost use Rattle.std.specs.Int.{is_negative};
ghost use Rattle.lexical_num.specs.Format.{IsRadix, standard};
ghost use Rattle.lexical_write_integer.specs.Computed.{digits_text, padded_text, text_of};
ghost use Rattle.lexical_write_integer.specs.Groups.{grouped};
ghost use Rattle.lexical_parts.specs.Fixed.{fixed_text, units_text};
ghost use Rattle.lexical_parts.specs.Trimmed.{trimmed_text, trimmed_units_text};

use crate::formatting::cell::{is_short_cell, write_cell};
use crate::formatting::shown::format_fill;
use crate::numbers::compact::{CompactDigits, CompactFormatted};
use crate::numbers::decimal::Decimal;
use crate::numbers::digits::{Digits, InRadix};
use crate::numbers::fixed::{Fixed, GroupedFixed, LONGEST_FIXED};
use crate::numbers::formatted::Formatted;
use crate::numbers::padded::{MOST_DIGITS, Padded, PaddedDigits};
use crate::numbers::plus::Plus;
use crate::numbers::powers_of_two::{Binary, FullHex, Hex};
use crate::numbers::trimmed::TrimmedFixed;
use crate::part::Part;
use crate::sealed::Sealed;
use lexical_num::limits::is_radix;
use lexical_write_integer::digit_count::DigitCount;
use lexical_write_integer::format::STANDARD;
use lexical_write_integer::laws::{
    digit_count_within_bits, digits_computed, padded_computed, text_computed,
};
use lexical_write_integer::radix::Radix;
use lexical_write_integer::{BUFFER_SIZE, NumberFormatBuilder, ToLexical};
use std::fmt;

// Writes a text that begins with `+` as the standard library writes an integer with the option `+`.
fn pad_with_plus<W: fmt::Write>(f: &mut fmt::Formatter<W>, text: &str) -> fmt::Result
    requires { text.now ≡ 43 ∷ drop 1 text.now }
    ensures { WritesStyledOnOk W.write_str_gives f.old result
        (padded_integral (record (formatter_spec f.old) { plus = true }) false [] (drop 1 text.now)) f.new }
{
    let digits = &text[1..];
    if f.sign_plus() {
        return f.pad_integral(true, "", digits);
    }
    if !f.sign_aware_zero_pad() {
        return f.pad_integral(true, "", text);
    }
    f.write_str("+")?;
    let zeros = f.width().unwrap_or(0).saturating_sub(text.len());
    write_zeros(zeros, f)?;
    f.write_str(digits)
}

// Writes zeros to a formatter, whatever its options are.
fn write_zeros<W: fmt::Write>(count: usize, f: &mut fmt::Formatter<W>) -> fmt::Result
    ensures { WritesStyledOnOk W.write_str_gives f.old result (replicate count 48) f.new }
{
    for _ in 0..count {
        f.write_str("0")?;
    }
    Ok(())
}

// Returns the sign that the format asks for before a number that is not negative.
fn plus_of<W: fmt::Write>(f: &fmt::Formatter<W>) -> &'static str
    ensures { result.now ≡ sign_text_with (formatter_spec f.now).plus false }
{
    if f.sign_plus() { "+" } else { "" }
}

// Returns how many copies of the fill a number gets that is so many characters shorter than the width. The others are
// zeros before its digits.
fn fill_of_number<W: fmt::Write>(f: &fmt::Formatter<W>, missing: usize) -> usize
    ensures within { result ≤ missing }
    ensures value { result ≡ (if (formatter_spec f.now).zero then 0 else missing) }
{
    if f.sign_aware_zero_pad() { 0 } else { missing }
}

// Returns how many copies of the fill precede a number.
fn fill_before_number<W: fmt::Write>(f: &fmt::Formatter<W>, fill: usize) -> usize
    ensures within { result ≤ fill }
    ensures side { result ≡ padding_before (formatter_spec f.now) fill 3 }
{
    match f.align() {
        Some(fmt::Alignment::Left) => 0,
        Some(fmt::Alignment::Center) => fill / 2,
        None | Some(fmt::Alignment::Right) => fill,
    }
}

// Writes a text as `pad_number` does, in a format with a width or another option.
#[cold]
fn pad_with_options<W: fmt::Write>(
    f: &mut fmt::Formatter<W>,
    is_negative: bool,
    has_plus: bool,
    text: &str,
) -> fmt::Result
    requires { text.now ≡ sign_text_with has_plus is_negative
        ++ drop (length (sign_text_with has_plus is_negative)) text.now }
    ensures { WritesStyledOnOk W.write_str_gives f.old result
        (padded_integral (if has_plus then record (formatter_spec f.old) { plus = true } else formatter_spec f.old)
        is_negative [] (drop (length (sign_text_with has_plus is_negative)) text.now)) f.new }
{
    if is_short_cell(f, text) {
        write_cell(f, text)
    } else if is_negative {
        f.pad_integral(false, "", &text[1..])
    } else if has_plus {
        pad_with_plus(f, text)
    } else {
        f.pad_integral(true, "", text)
    }
}

// Writes a text, which begins with `-` if the number is negative, and otherwise with `+` if it has one, as the standard
// library writes an integer.
fn pad_number<W: fmt::Write>(
    f: &mut fmt::Formatter<W>,
    is_negative: bool,
    has_plus: bool,
    text: &str,
) -> fmt::Result
    requires { text.now ≡ sign_text_with has_plus is_negative
        ++ drop (length (sign_text_with has_plus is_negative)) text.now }
    ensures writes { WritesOnOk W.write_str_gives f.old result text.now f.new }
    ensures styled { WritesStyledOnOk W.write_str_gives f.old result
        (padded_integral (if has_plus then record (formatter_spec f.old) { plus = true } else formatter_spec f.old)
        is_negative [] (drop (length (sign_text_with has_plus is_negative)) text.now)) f.new }
{
    if f.width().is_none() && !f.sign_plus() && !f.alternate() {
        f.write_str(text)
    } else {
        pad_with_options(f, is_negative, has_plus, text)
    }
}

impl<T: ToLexical> fmt::Display for Formatted<'_, T> {
    ghost output = { λ part. Some (text_of (T.number part.0) part.1.now) };

    ghost styled_output = { λ part spec. Some (padded_integral
        (if part.1.now.required_mantissa_sign then record spec { plus = true } else spec)
        (is_negative (T.number part.0)) [] (grouped part.1.now.digit_grouping
        (digits_text part.1.now.mantissa_radix (unsigned_abs (T.number part.0))))) };

    fn fmt<W: fmt::Write>(&self, f: &mut fmt::Formatter<W>) -> fmt::Result {
        self.1.in_range();
        let mut buffer = [0; BUFFER_SIZE];
        let text = CompactFormatted(self.0, self.1).to_str(&mut buffer);
        text_computed(self.0, self.1, text.as_bytes());
        pad_number(
            f,
            self.0.is_negative(),
            self.1.required_mantissa_sign(),
            text,
        )
    }
}

impl<T: ToLexical> fmt::Display for Decimal<T> {
    ghost output = { λ part. Some (text_of (T.number part.0) standard) };

    ghost styled_output = { λ part spec. Some (padded_integral spec (is_negative (T.number part.0)) []
        (digits_text 10 (unsigned_abs (T.number part.0)))) };

    fn fmt<W: fmt::Write>(&self, f: &mut fmt::Formatter<W>) -> fmt::Result {
        fmt::Display::fmt(&Formatted(self.0, &STANDARD), f)
    }
}

impl<T: ToLexical> fmt::Display for Plus<T> {
    ghost output = { λ part. Some (text_of (T.number part.0) (record standard { required_mantissa_sign = true })) };

    ghost styled_output = { λ part spec. Some (padded_integral (record spec { plus = true })
        (is_negative (T.number part.0)) [] (digits_text 10 (unsigned_abs (T.number part.0)))) };

    fn fmt<W: fmt::Write>(&self, f: &mut fmt::Formatter<W>) -> fmt::Result {
        let format = NumberFormatBuilder::new()
            .required_mantissa_sign(true)
            .build_strict();
        fmt::Display::fmt(&Formatted(self.0, &format), f)
    }
}

impl<T: Radix> fmt::Display for Hex<T> {
    ghost output = { λ part. Some (digits_text 16 (T.magnitude part.0)) };

    ghost styled_output = { λ part spec. Some (padded_integral spec false [] (digits_text 16 (T.magnitude part.0))) };

    fn fmt<W: fmt::Write>(&self, f: &mut fmt::Formatter<W>) -> fmt::Result {
        self.0.fits_bits();
        let mut buffer = [0; 16];
        let text = Hex(self.0).to_str(&mut buffer);
        digits_computed(16, self.0.as_u64(), text.as_bytes());
        pad_number(f, false, false, text)
    }
}

impl<T: Radix> fmt::Display for Binary<T> {
    ghost output = { λ part. Some (digits_text 2 (T.magnitude part.0)) };

    ghost styled_output = { λ part spec. Some (padded_integral spec false [] (digits_text 2 (T.magnitude part.0))) };

    fn fmt<W: fmt::Write>(&self, f: &mut fmt::Formatter<W>) -> fmt::Result {
        self.0.fits_bits();
        let mut buffer = [0; MOST_DIGITS];
        let text = Binary(self.0).to_str(&mut buffer);
        digits_computed(2, self.0.as_u64(), text.as_bytes());
        pad_number(f, false, false, text)
    }
}

impl<T: DigitCount + Radix> Digits<T> {
    // Returns the text, or an error if the radix is not from 2 to 36.
    fn text_or_error(self, buffer: &mut [u8; MOST_DIGITS]) -> Result<&str, fmt::Error>
        ensures ok { IsOk result ↔ IsRadix self.0 }
        ensures text { IfOk result (λ text. text.now ≡ digits_text self.0 (T.magnitude self.1)) }
    {
        if !is_radix(u64::from(self.0)) {
            return Err(fmt::Error);
        }
        self.1.fits_bits();
        let digits = CompactDigits(self.0, self.1.as_u64()).to_str(buffer);
        digits_computed(self.0, self.1.as_u64(), digits.as_bytes());
        Ok(digits)
    }
}

impl<T: DigitCount + Radix> fmt::Display for Digits<T> {
    ghost output = { λ part. Some (digits_text part.0 (T.magnitude part.1)) };

    ghost styled_output = { λ part spec. Some (padded_integral spec false []
        (digits_text part.0 (T.magnitude part.1))) };

    fn fmt<W: fmt::Write>(&self, f: &mut fmt::Formatter<W>) -> fmt::Result {
        let mut buffer = [0; MOST_DIGITS];
        let text = Digits(self.0, self.1).text_or_error(&mut buffer)?;
        pad_number(f, false, false, text)
    }
}

impl<const RADIX: u32, T: DigitCount + Radix> fmt::Display for InRadix<RADIX, T> {
    ghost output = { λ part. Some (digits_text RADIX (T.magnitude part.0)) };

    ghost styled_output = { λ part spec. Some (padded_integral spec false []
        (digits_text RADIX (T.magnitude part.0))) };

    fn fmt<W: fmt::Write>(&self, f: &mut fmt::Formatter<W>) -> fmt::Result {
        if !is_radix(u64::from(RADIX)) {
            return Err(fmt::Error);
        }
        self.0.fits_bits();
        digit_count_within_bits(RADIX, self.0);
        let mut buffer = [0; MOST_DIGITS];
        let text = InRadix::<RADIX, T>(self.0).to_str(&mut buffer);
        digits_computed(RADIX, self.0.as_u64(), text.as_bytes());
        pad_number(f, false, false, text)
    }
}

// Writes zeros and then digits as the standard library writes an integer.
fn pad_zeros_and_digits<W: fmt::Write>(
    f: &mut fmt::Formatter<W>,
    zeros: usize,
    digits: &str,
) -> fmt::Result
    ensures writes { WritesOnOk W.write_str_gives f.old result (replicate zeros 48 ++ digits.now) f.new }
    ensures styled { WritesStyledOnOk W.write_str_gives f.old result
        (padded_integral (formatter_spec f.old) false [] (replicate zeros 48 ++ digits.now)) f.new }
{
    let plus = plus_of(f);
    let width = f.width().unwrap_or(0);
    let missing = width
        .saturating_sub(zeros)
        .saturating_sub(digits.len())
        .saturating_sub(plus.len());
    let fill = fill_of_number(f, missing);
    let before = fill_before_number(f, fill);
    format_fill(before, f)?;
    f.write_str(plus)?;
    write_zeros(missing - fill, f)?;
    write_zeros(zeros, f)?;
    f.write_str(digits)?;
    format_fill(fill - before, f)
}

impl<T: DigitCount + Radix> fmt::Display for PaddedDigits<T> {
    ghost output = { λ part. Some (padded_text part.0 part.2 (T.magnitude part.1)) };

    ghost styled_output = { λ part spec. Some (padded_integral spec false []
        (padded_text part.0 part.2 (T.magnitude part.1))) };

    fn fmt<W: fmt::Write>(&self, f: &mut fmt::Formatter<W>) -> fmt::Result {
        let mut buffer = [0; MOST_DIGITS];
        let (zeros, digits) = PaddedDigits(self.0, self.1, self.2).zeros_and_digits(&mut buffer)?;
        pad_zeros_and_digits(f, zeros, digits)
    }
}

impl<T: DigitCount + Radix> Padded<T> {
    // Returns the text, or an error if the number does not fit in the width.
    fn text_or_error(self, buffer: &mut [u8; MOST_DIGITS]) -> Result<&str, fmt::Error>
        requires { self.1 ≤ 64 }
        ensures ok { IsOk result ↔ (T.magnitude self.0 < 10 ^ self.1) }
        ensures text { IfOk result (λ text. text.now ≡ padded_text 10 self.1 (T.magnitude self.0)) }
    {
        if !self.is_known_valid_and_utf8(Sealed) {
            return Err(fmt::Error);
        }
        self.0.fits_bits();
        let padded = self.to_str(buffer);
        padded_computed(10, self.1, self.0.as_u64(), padded.as_bytes());
        Ok(padded)
    }
}

impl<T: DigitCount + Radix> fmt::Display for Padded<T> {
    ghost output = { λ part. Some (padded_text 10 part.1 (T.magnitude part.0)) };

    ghost styled_output = { λ part spec. Some (padded_integral spec false []
        (padded_text 10 part.1 (T.magnitude part.0))) };

    fn fmt<W: fmt::Write>(&self, f: &mut fmt::Formatter<W>) -> fmt::Result {
        if self.1 > MOST_DIGITS {
            return fmt::Display::fmt(&PaddedDigits(10, self.0, self.1), f);
        }
        let mut buffer = [0; MOST_DIGITS];
        let text = Padded(self.0, self.1).text_or_error(&mut buffer)?;
        pad_number(f, false, false, text)
    }
}

impl<T: DigitCount + Radix> fmt::Display for FullHex<T> {
    ghost output = { λ part. Some (padded_text 16 (T.BITS / 4) (T.magnitude part.0)) };

    ghost styled_output = { λ part spec. Some (padded_integral spec false []
        (padded_text 16 (T.BITS / 4) (T.magnitude part.0))) };

    fn fmt<W: fmt::Write>(&self, f: &mut fmt::Formatter<W>) -> fmt::Result {
        self.0.fits_bits();
        let mut buffer = [0; 16];
        let text = FullHex(self.0).to_str(&mut buffer);
        padded_computed(16, T::BITS / 4, self.0.as_u64(), text.as_bytes());
        pad_number(f, false, false, text)
    }
}

impl<T: ToLexical> GroupedFixed<'_, T> {
    // Returns the text, or an error if there are more than 19 decimals.
    fn text_or_error(self, buffer: &mut [u8; LONGEST_FIXED]) -> Result<&str, fmt::Error>
        ensures ok { IsOk result ↔ (self.entry.1 ≤ 19) }
        ensures text { IfOk result (λ text.
            text.now ≡ fixed_text self.entry.2.now.digit_grouping self.entry.1 (T.number self.entry.0)) }
    {
        if self.1 > 19 {
            return Err(fmt::Error);
        }
        self.0.in_range();
        let text = self.to_str(buffer);
        Ok(text)
    }
}

impl<T: ToLexical> fmt::Display for GroupedFixed<'_, T> {
    ghost output = { λ part. Some (fixed_text part.2.now.digit_grouping part.1 (T.number part.0)) };

    ghost styled_output = { λ part spec. Some (padded_integral spec (is_negative (T.number part.0)) []
        (units_text part.2.now.digit_grouping part.1 (unsigned_abs (T.number part.0)))) };

    fn fmt<W: fmt::Write>(&self, f: &mut fmt::Formatter<W>) -> fmt::Result {
        let mut buffer = [0; LONGEST_FIXED];
        let text = GroupedFixed(self.0, self.1, self.2).text_or_error(&mut buffer)?;
        pad_number(f, self.0.is_negative(), false, text)
    }
}

impl<T: ToLexical> fmt::Display for Fixed<T> {
    ghost output = { λ part. Some (fixed_text None part.1 (T.number part.0)) };

    ghost styled_output = { λ part spec. Some (padded_integral spec (is_negative (T.number part.0)) []
        (units_text None part.1 (unsigned_abs (T.number part.0)))) };

    fn fmt<W: fmt::Write>(&self, f: &mut fmt::Formatter<W>) -> fmt::Result {
        fmt::Display::fmt(&GroupedFixed(self.0, self.1, &STANDARD), f)
    }
}

impl<T: ToLexical> TrimmedFixed<T> {
    // Returns the text, or an error if there are more than 19 decimals.
    fn text_or_error(self, buffer: &mut [u8; LONGEST_FIXED]) -> Result<&str, fmt::Error>
        ensures ok { IsOk result ↔ (self.1 ≤ 19) }
        ensures text { IfOk result (λ text. text.now ≡ trimmed_text self.1 (T.number self.0)) }
    {
        if self.1 > 19 {
            return Err(fmt::Error);
        }
        self.0.in_range();
        let trimmed = self.to_str(buffer);
        Ok(trimmed)
    }
}

impl<T: ToLexical> fmt::Display for TrimmedFixed<T> {
    ghost output = { λ part. Some (trimmed_text part.1 (T.number part.0)) };

    ghost styled_output = { λ part spec. Some (padded_integral spec (is_negative (T.number part.0)) []
        (trimmed_units_text part.1 (unsigned_abs (T.number part.0)))) };

    fn fmt<W: fmt::Write>(&self, f: &mut fmt::Formatter<W>) -> fmt::Result {
        let mut buffer = [0; LONGEST_FIXED];
        let text = TrimmedFixed(self.0, self.1).text_or_error(&mut buffer)?;
        pad_number(f, self.0.is_negative(), false, text)
    }
}
