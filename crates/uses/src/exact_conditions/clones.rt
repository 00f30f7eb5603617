//! Calls that return a `Result`, as each `clone` does, but never fail.

ghost use Rattle.std.specs.Prelude.{◌≡◌, Ok};

use lexical_num::options::OptionsBuilder;
use lexical_write_integer::{NumberFormat, NumberFormatBuilder, Options};
use std::alloc::AllocError;

/// Returns a clone of a format.
pub fn clone_of_format(format: &NumberFormat) -> Result<NumberFormat, AllocError>
    ensures { result ≡ Ok format.now }
{
    format.clone()
}

/// Returns a clone of a builder of formats.
pub fn clone_of_builder(builder: &NumberFormatBuilder) -> Result<NumberFormatBuilder, AllocError>
    ensures { result ≡ Ok builder.now }
{
    builder.clone()
}

/// Returns a clone of options.
pub fn clone_of_options(options: &Options) -> Result<Options, AllocError>
    ensures { result ≡ Ok options.now }
{
    options.clone()
}

/// Returns a clone of a builder of options.
pub fn clone_of_options_builder(builder: &OptionsBuilder) -> Result<OptionsBuilder, AllocError>
    ensures { result ≡ Ok builder.now }
{
    builder.clone()
}
