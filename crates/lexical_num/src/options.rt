//! The options of writing an integer, which have no fields yet.

ghost use Rattle.std.specs.Prelude.{◌≡◌, Bool, true, IsTrue, IsOk};
ghost use Rattle.lexical_num.specs.Size.{size_in};

use crate::constants::FormattedSize;
use crate::error::Result;
use crate::format::NumberFormat;

/// The options of writing a number: whether they are valid, and how long a buffer they require.
///
/// ```
/// use lexical_write_integer::{FormattedSize, NumberFormat, Options, WriteOptions, format::STANDARD};
///
/// fn size_of<T: FormattedSize>(format: &NumberFormat) -> usize {
///     Options::new().buffer_size::<T>(format)
/// }
/// assert_eq!(rt; size_of::<u8>(&STANDARD), 3);
/// ```
pub trait WriteOptions {
    ghost is_valid: { Self → Bool };

    /// Returns whether numbers can be written with the options.
    fn is_valid(&self) -> bool
        ensures { result ≡ is_valid self.now };

    /// Returns the length of a buffer that is enough for every number of the type in the format: in a radix other than
    /// 10 `FORMATTED_SIZE`, and in radix 10 what `FORMATTED_SIZE_DECIMAL` digits take in the groups of the format, and
    /// one byte for a required sign.
    fn buffer_size<T: FormattedSize>(&self, format: &NumberFormat) -> usize
        // The law `size_suffices` of `lexical_write_integer` is that it is enough.
        ensures { result ≡ size_in T.FORMATTED_SIZE T.FORMATTED_SIZE_DECIMAL format.now };
}

/// The options of writing an integer. They have no fields yet, so all values are equal.
///
/// ```
/// use lexical_write_integer::{Options, format::STANDARD};
///
/// const SIZE: usize = Options::new().buffer_size_const::<i32>(&STANDARD);
/// assert_eq!(rt; SIZE, 11);
/// ```
#[derive(Clone, Copy, PartialEq, Eq, PartialOrd, Ord, Debug, Drop)]
pub struct Options {}

/// The standard options.
pub const STANDARD: Options = Options {};

impl Options {
    ghost use Rattle.lexical_num.specs.declared.options.Options.{Options};
    ghost use Rattle.lexical_num.specs.declared.options.OptionsBuilder.{OptionsBuilder};

    /// Returns the options.
    pub const fn new() -> Self
        ensures { (other : Options) → result ≡ other }
    {
        STANDARD
    }

    /// Returns the options, which do not depend on the radix.
    pub const fn from_radix(_radix: u8) -> Self
        ensures { (other : Options) → result ≡ other }
    {
        Self::new()
    }

    /// Returns whether numbers can be written with the options. This is always true.
    pub const fn is_valid(&self) -> bool
        ensures { IsTrue result }
    {
        true
    }

    /// Returns the length of a buffer that is enough for every number of the type in the format, as `buffer_size` does,
    /// also in a constant.
    pub const fn buffer_size_const<T: FormattedSize>(&self, format: &NumberFormat) -> usize
        ensures { result ≡ size_in T.FORMATTED_SIZE T.FORMATTED_SIZE_DECIMAL format.now }
    {
        if format.mantissa_radix() != 10 {
            return T::FORMATTED_SIZE;
        }
        let sign = format.required_mantissa_sign() as usize;
        sign + format.grouped_len(T::FORMATTED_SIZE_DECIMAL)
    }

    /// Returns a builder of options.
    pub const fn builder() -> OptionsBuilder
        ensures { (other : OptionsBuilder) → result ≡ other }
    {
        OptionsBuilder::new()
    }

    /// Returns a builder that builds these options.
    pub const fn rebuild(&self) -> OptionsBuilder
        ensures { (other : OptionsBuilder) → result ≡ other }
    {
        Self::builder()
    }
}

impl Default for Options {
    fn default() -> Self {
        Self::new()
    }
}

impl WriteOptions for Options {
    ghost is_valid = { λ _. true };

    fn is_valid(&self) -> bool {
        Options::is_valid(self)
    }

    fn buffer_size<T: FormattedSize>(&self, format: &NumberFormat) -> usize {
        self.buffer_size_const::<T>(format)
    }
}

/// A builder of options. It has nothing to set yet, so all values are equal.
///
/// ```
/// use lexical_write_integer::{Options, OptionsBuilder};
///
/// assert_eq!(rt; OptionsBuilder::new().build(), Ok(Options::new()));
/// ```
#[derive(Clone, Copy, PartialEq, Eq, PartialOrd, Ord, Debug, Drop)]
pub struct OptionsBuilder {}

impl OptionsBuilder {
    ghost use Rattle.lexical_num.specs.declared.options.Options.{Options};
    ghost use Rattle.lexical_num.specs.declared.options.OptionsBuilder.{OptionsBuilder};

    /// Returns a builder of options.
    pub const fn new() -> Self
        ensures { (other : OptionsBuilder) → result ≡ other }
    {
        OptionsBuilder {}
    }

    /// Returns whether options can be built. This is always true.
    pub const fn is_valid(&self) -> bool
        ensures { IsTrue result }
    {
        true
    }

    /// Returns the options without checking them.
    pub const fn build_unchecked(&self) -> Options
        ensures { (other : Options) → result ≡ other }
    {
        Options::new()
    }

    /// Returns the options.
    pub const fn build_strict(&self) -> Options
        ensures { (other : Options) → result ≡ other }
    {
        self.build_unchecked()
    }

    /// Returns the options.
    ///
    /// # Errors
    ///
    /// None: options have one value.
    pub const fn build(&self) -> Result<Options>
        ensures { IsOk result }
    {
        Ok(self.build_unchecked())
    }
}

impl Default for OptionsBuilder {
    fn default() -> Self {
        Self::new()
    }
}
