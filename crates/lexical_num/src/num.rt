//! The traits of the integer types, for generic code.
#![tactic(auto, using(crate::proofs::LeadingZeros::leading_zeros))]

ghost use Rattle.std.specs.Prelude.{◌≡◌, ℕ, ◌-◌, ◌/◌, ◌%◌, ◌^◌, ◌<◌, ◌≤◌, ◌↔◌, IsTrue, refl};
ghost use Rattle.std.specs.Prelude.{Bool, true, false, ℤ, pos, ◌≤ℤ◌, ◌<ℤ◌};
ghost use Rattle.std.proofs.Common.{lit≤};
ghost use Rattle.lexical_num.specs.DecimalWidth.{IsDecimalWidth, is_decimal_width};
ghost use Rattle.lexical_num.specs.Range.{IsUnsigned, equal_by_pos, greatest_of, least_of};
ghost use Rattle.lexical_num.specs.BitWidth.{IsBitWidth, is_8, is_16, is_32, is_64};

/// An integer type whose numbers can be written.
///
/// ```
/// use lexical_num::LexicalInteger;
///
/// fn is_below_zero<T: LexicalInteger>(number: T) -> bool {
///     number.is_negative()
/// }
/// assert!(rt; is_below_zero(-5i8) && !is_below_zero(5u8));
/// ```
pub trait LexicalInteger: Copy {
    /// The number of bits of the type. For `usize` and `isize` it is 64 on every target.
    const BITS: usize;

    /// The largest number of decimal digits of a number of the type. For `usize` and `isize` it is that of 64 bits on
    /// every target.
    const DECIMAL_WIDTH: usize;

    /// Whether the type has numbers below 0.
    const IS_SIGNED: bool;

    ghost BITS: { ℕ };

    ghost DECIMAL_WIDTH: { ℕ };

    ghost IS_SIGNED: { Bool };

    // The value as an integer without a range.
    ghost number: { Self → ℤ };

    /// A law: the number is in the range of its type. Generic code obtains the law by this call, which
    /// does nothing at run time.
    fn in_range(self)
        ensures at_least { least_of BITS IS_SIGNED ≤ℤ number self }
        ensures at_most { number self ≤ℤ greatest_of BITS IS_SIGNED };

    /// Returns whether the number is below 0.
    fn is_negative(self) -> bool
        ensures { IsTrue result ↔ number self <ℤ pos 0 };

    /// Returns 1 if the number is below 0, and otherwise 0.
    fn sign_bit(self) -> usize
        ensures negative { number self <ℤ pos 0 → result ≡ 1 }
        ensures other { pos 0 ≤ℤ number self → result ≡ 0 }
    {
        usize::from(self.is_negative())
    }

    ghost decimal_width: { IsDecimalWidth (least_of BITS IS_SIGNED) (greatest_of BITS IS_SIGNED) DECIMAL_WIDTH };

    ghost bit_width: { IsBitWidth BITS };

    ghost equal_by_number: { (x y : Self) → number x ≡ number y → x ≡ y };
}

impl LexicalInteger for u8 {
    const BITS: usize = u8::BITS as usize;

    const DECIMAL_WIDTH: usize = 3;

    const IS_SIGNED: bool = false;

    ghost BITS = { 8 };

    ghost DECIMAL_WIDTH = { 3 };

    ghost IS_SIGNED = { false };

    ghost number = { pos };

    ghost decimal_width = { is_decimal_width (lit≤ tt) (lit≤ tt) (lit≤ tt) (lit≤ tt) };

    ghost bit_width = { is_8 };

    ghost equal_by_number = { equal_by_pos };

    fn in_range(self) {}

    fn is_negative(self) -> bool {
        false
    }
}

impl LexicalInteger for u16 {
    const BITS: usize = u16::BITS as usize;

    const DECIMAL_WIDTH: usize = 5;

    const IS_SIGNED: bool = false;

    ghost BITS = { 16 };

    ghost DECIMAL_WIDTH = { 5 };

    ghost IS_SIGNED = { false };

    ghost number = { pos };

    ghost decimal_width = { is_decimal_width (lit≤ tt) (lit≤ tt) (lit≤ tt) (lit≤ tt) };

    ghost bit_width = { is_16 };

    ghost equal_by_number = { equal_by_pos };

    fn in_range(self) {}

    fn is_negative(self) -> bool {
        false
    }
}

impl LexicalInteger for u32 {
    const BITS: usize = u32::BITS as usize;

    const DECIMAL_WIDTH: usize = 10;

    const IS_SIGNED: bool = false;

    ghost BITS = { 32 };

    ghost DECIMAL_WIDTH = { 10 };

    ghost IS_SIGNED = { false };

    ghost number = { pos };

    ghost decimal_width = { is_decimal_width (lit≤ tt) (lit≤ tt) (lit≤ tt) (lit≤ tt) };

    ghost bit_width = { is_32 };

    ghost equal_by_number = { equal_by_pos };

    fn in_range(self) {}

    fn is_negative(self) -> bool {
        false
    }
}

impl LexicalInteger for u64 {
    const BITS: usize = u64::BITS as usize;

    const DECIMAL_WIDTH: usize = 20;

    const IS_SIGNED: bool = false;

    ghost BITS = { 64 };

    ghost DECIMAL_WIDTH = { 20 };

    ghost IS_SIGNED = { false };

    ghost number = { pos };

    ghost decimal_width = { is_decimal_width (lit≤ tt) (lit≤ tt) (lit≤ tt) (lit≤ tt) };

    ghost bit_width = { is_64 };

    ghost equal_by_number = { equal_by_pos };

    fn in_range(self) {}

    fn is_negative(self) -> bool {
        false
    }
}

impl LexicalInteger for usize {
    // With pointers of 32 bits its numbers are among those of `u64`, and so are its constants.
    const BITS: usize = u64::BITS as usize;

    const DECIMAL_WIDTH: usize = 20;

    const IS_SIGNED: bool = false;

    ghost BITS = { 64 };

    ghost DECIMAL_WIDTH = { 20 };

    ghost IS_SIGNED = { false };

    ghost number = { pos };

    ghost decimal_width = { is_decimal_width (lit≤ tt) (lit≤ tt) (lit≤ tt) (lit≤ tt) };

    ghost bit_width = { is_64 };

    ghost equal_by_number = { equal_by_pos };

    fn in_range(self) {}

    fn is_negative(self) -> bool {
        false
    }
}

impl LexicalInteger for i8 {
    const BITS: usize = i8::BITS as usize;

    const DECIMAL_WIDTH: usize = 3;

    const IS_SIGNED: bool = true;

    ghost BITS = { 8 };

    ghost DECIMAL_WIDTH = { 3 };

    ghost IS_SIGNED = { true };

    ghost number = { λ n. n };

    ghost decimal_width = { is_decimal_width (lit≤ tt) (lit≤ tt) (lit≤ tt) (lit≤ tt) };

    ghost bit_width = { is_8 };

    ghost equal_by_number = { λ _ _ same. same };

    fn in_range(self) {}

    fn is_negative(self) -> bool {
        // Neither 0 nor a larger number is negative.
        self < 0
    }
}

impl LexicalInteger for i16 {
    const BITS: usize = i16::BITS as usize;

    const DECIMAL_WIDTH: usize = 5;

    const IS_SIGNED: bool = true;

    ghost BITS = { 16 };

    ghost DECIMAL_WIDTH = { 5 };

    ghost IS_SIGNED = { true };

    ghost number = { λ n. n };

    ghost decimal_width = { is_decimal_width (lit≤ tt) (lit≤ tt) (lit≤ tt) (lit≤ tt) };

    ghost bit_width = { is_16 };

    ghost equal_by_number = { λ _ _ same. same };

    fn in_range(self) {}

    fn is_negative(self) -> bool {
        self < 0
    }
}

impl LexicalInteger for i32 {
    const BITS: usize = i32::BITS as usize;

    const DECIMAL_WIDTH: usize = 10;

    const IS_SIGNED: bool = true;

    ghost BITS = { 32 };

    ghost DECIMAL_WIDTH = { 10 };

    ghost IS_SIGNED = { true };

    ghost number = { λ n. n };

    ghost decimal_width = { is_decimal_width (lit≤ tt) (lit≤ tt) (lit≤ tt) (lit≤ tt) };

    ghost bit_width = { is_32 };

    ghost equal_by_number = { λ _ _ same. same };

    fn in_range(self) {}

    fn is_negative(self) -> bool {
        self < 0
    }
}

impl LexicalInteger for i64 {
    const BITS: usize = i64::BITS as usize;

    const DECIMAL_WIDTH: usize = 19;

    const IS_SIGNED: bool = true;

    ghost BITS = { 64 };

    ghost DECIMAL_WIDTH = { 19 };

    ghost IS_SIGNED = { true };

    ghost number = { λ n. n };

    ghost decimal_width = { is_decimal_width (lit≤ tt) (lit≤ tt) (lit≤ tt) (lit≤ tt) };

    ghost bit_width = { is_64 };

    ghost equal_by_number = { λ _ _ same. same };

    fn in_range(self) {}

    fn is_negative(self) -> bool {
        self < 0
    }
}

impl LexicalInteger for isize {
    // With pointers of 32 bits its numbers are among those of `i64`, and so are its constants.
    const BITS: usize = i64::BITS as usize;

    const DECIMAL_WIDTH: usize = 19;

    const IS_SIGNED: bool = true;

    ghost BITS = { 64 };

    ghost DECIMAL_WIDTH = { 19 };

    ghost IS_SIGNED = { true };

    ghost number = { λ n. n };

    ghost decimal_width = { is_decimal_width (lit≤ tt) (lit≤ tt) (lit≤ tt) (lit≤ tt) };

    ghost bit_width = { is_64 };

    ghost equal_by_number = { λ _ _ same. same };

    fn in_range(self) {}

    fn is_negative(self) -> bool {
        self < 0
    }
}

/// An unsigned integer type, with the arithmetic that is needed to write digits. The functions that write
/// digits are generic over it.
///
/// ```
/// use lexical_num::UnsignedInteger;
///
/// fn last_digit<T: UnsignedInteger>(number: T) -> T {
///     number.div_rem(T::from_u32(10)).1
/// }
/// assert_eq!(rt; last_digit(1234u16), 4);
/// ```
pub trait UnsignedInteger: LexicalInteger {
    // The value as a natural number without a range.
    ghost magnitude: { Self → ℕ };

    /// Converts a number that fits the type.
    ///
    /// # Panics
    ///
    /// If the type does not have the number.
    fn from_u32(value: u32) -> Self
        requires { value < 2 ^ Self.BITS }
        ensures { magnitude result ≡ value };

    /// Converts a number below 2^32.
    ///
    /// # Panics
    ///
    /// If the number is 2^32 or above.
    final fn as_u32(self) -> u32
        requires { magnitude self < 2 ^ 32 }
        ensures { result ≡ magnitude self }
    {
        let number = self.as_u64();
        prove!(number < 4_294_967_296, "the number is 2^32 or above");
        number as u32
    }

    /// Returns the number as a `u64`, which can hold every number of the type.
    fn as_u64(self) -> u64
        ensures { result ≡ magnitude self };

    /// Returns the number as a `usize`, which can hold every number of the type if pointers have 64 bits.
    /// If they have 32, the call panics for 2^32 and above.
    fn as_usize(self) -> usize
        ensures { result ≡ magnitude self };

    /// Returns the quotient and the remainder of the division by `by`, which is not 0.
    ///
    /// # Panics
    ///
    /// If `by` is 0.
    fn div_rem(self, by: Self) -> (Self, Self)
        requires { 0 < magnitude by }
        ensures quotient { magnitude result.0 ≡ magnitude self / magnitude by }
        ensures remainder { magnitude result.1 ≡ magnitude self % magnitude by };

    /// Returns whether the number is `other` or larger.
    final fn is_at_least(self, other: Self) -> bool
        ensures { IsTrue result ↔ (magnitude other ≤ magnitude self) }
    {
        self.as_u64() >= other.as_u64()
    }

    /// Returns the number of zero bits above the highest set bit, and `BITS` for 0.
    fn leading_zeros(self) -> u32
        ensures of_zero { magnitude self ≡ 0 → result ≡ Self.BITS }
        ensures within { 0 < magnitude self → result < Self.BITS }
        ensures zeros_above { magnitude self < 2 ^ (Self.BITS - result) }
        ensures highest_set { 0 < magnitude self → 2 ^ (Self.BITS - 1 - result) ≤ magnitude self };

    ghost number_is_magnitude: { (x : Self) → Self.number x ≡ pos (magnitude x) };

    ghost range: { IsUnsigned Self.BITS (least_of Self.BITS Self.IS_SIGNED) (greatest_of Self.BITS Self.IS_SIGNED) };

    /// A law: the number is below 2^`BITS`. Generic code obtains the law by this call, which does
    /// nothing at run time.
    final fn fits_bits(self)
        ensures { magnitude self < 2 ^ Self.BITS }
    {
        self.in_range();
    }
}

impl UnsignedInteger for u8 {
    ghost magnitude = { λ n. n };

    ghost number_is_magnitude = { λ _. refl };

    ghost range = { record { width = is_8; from_zero = refl; to_greatest = refl } };

    fn from_u32(value: u32) -> u8 {
        prove!(value < 256, "the type does not have the number");
        value as u8
    }

    fn as_u64(self) -> u64 {
        self as u64
    }

    fn as_usize(self) -> usize {
        self as usize
    }

    fn div_rem(self, by: u8) -> (u8, u8) {
        (self / by, self % by)
    }

    fn leading_zeros(self) -> u32 {
        u8::leading_zeros(self)
    }
}

impl UnsignedInteger for u16 {
    ghost magnitude = { λ n. n };

    ghost number_is_magnitude = { λ _. refl };

    ghost range = { record { width = is_16; from_zero = refl; to_greatest = refl } };

    fn from_u32(value: u32) -> u16 {
        prove!(value < 65_536, "the type does not have the number");
        value as u16
    }

    fn as_u64(self) -> u64 {
        self as u64
    }

    fn as_usize(self) -> usize {
        self as usize
    }

    fn div_rem(self, by: u16) -> (u16, u16) {
        (self / by, self % by)
    }

    fn leading_zeros(self) -> u32 {
        u16::leading_zeros(self)
    }
}

impl UnsignedInteger for u32 {
    ghost magnitude = { λ n. n };

    ghost number_is_magnitude = { λ _. refl };

    ghost range = { record { width = is_32; from_zero = refl; to_greatest = refl } };

    fn from_u32(value: u32) -> u32 {
        value
    }

    fn as_u64(self) -> u64 {
        self as u64
    }

    fn as_usize(self) -> usize {
        self as usize
    }

    fn div_rem(self, by: u32) -> (u32, u32) {
        (self / by, self % by)
    }

    fn leading_zeros(self) -> u32 {
        u32::leading_zeros(self)
    }
}

impl UnsignedInteger for u64 {
    ghost magnitude = { λ n. n };

    ghost number_is_magnitude = { λ _. refl };

    ghost range = { record { width = is_64; from_zero = refl; to_greatest = refl } };

    fn from_u32(value: u32) -> u64 {
        value as u64
    }

    fn as_u64(self) -> u64 {
        self
    }

    fn as_usize(self) -> usize {
        // With pointers of 32 bits a cast would cut off a larger number.
        let number = usize::try_from(self);
        prove!(number.is_ok(), "the number is above usize::MAX");
        number.unwrap_or(usize::MAX)
    }

    fn div_rem(self, by: u64) -> (u64, u64) {
        (self / by, self % by)
    }

    fn leading_zeros(self) -> u32 {
        u64::leading_zeros(self)
    }
}

impl UnsignedInteger for usize {
    ghost magnitude = { λ n. n };

    ghost number_is_magnitude = { λ _. refl };

    ghost range = { record { width = is_64; from_zero = refl; to_greatest = refl } };

    fn from_u32(value: u32) -> usize {
        value as usize
    }

    fn as_u64(self) -> u64 {
        self as u64
    }

    fn as_usize(self) -> usize {
        self
    }

    fn div_rem(self, by: usize) -> (usize, usize) {
        (self / by, self % by)
    }

    fn leading_zeros(self) -> u32 {
        u64::leading_zeros(self as u64)
    }
}
