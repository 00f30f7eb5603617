//! Tests of the options and of their builder, which have nothing to set yet.

ghost use Rattle.std.specs.Prelude.{◌≡◌, IsTrue};

use crate::checks::check_equal;
use lexical_num::{WriteOptions, options};
use lexical_write_integer::{Options, OptionsBuilder};
use std::cmp::Ordering;
use std::process::Abort;

// Returns whether two options are equal and compare as equal, which they always do.
fn are_equal(a: &Options, b: &Options) -> bool
    ensures { IsTrue result }
{
    a == b && a.cmp(b) == Ordering::Equal
}

// Returns whether two builders of options are equal and compare as equal, which they always do.
fn are_equal_builders(a: &OptionsBuilder, b: &OptionsBuilder) -> bool
    ensures { IsTrue result }
{
    a == b && a.cmp(b) == Ordering::Equal
}

// Checks that the options are valid and equal to the standard ones.
fn check_options(rt: &impl Abort, row: &str, options: &Options) {
    let tests = [
        options.is_valid(),
        WriteOptions::is_valid(options),
        are_equal(options, &options::STANDARD),
        *options <= options::STANDARD,
    ];
    check_equal(rt, row, tests, [true; 4]);
}

// Checks that the builder is valid and equal to a new one, and the options that it builds.
fn check_builder(rt: &impl Abort, row: &str, builder: &OptionsBuilder) {
    let is_new = are_equal_builders(builder, &OptionsBuilder::new());
    check_equal(rt, row, [builder.is_valid(), is_new], [true; 2]);
    check_options(rt, row, &builder.build().expect(rt, row));
    check_options(rt, row, &builder.build_strict());
    check_options(rt, row, &builder.build_unchecked());
}

#[test]
fn options_are_valid_and_equal(rt: HostRuntime) {
    check_options(&rt, "new", &Options::new());
    check_options(&rt, "default", &Options::default());
    check_options(&rt, "from_radix", &Options::from_radix(36));
    check_options(&rt, "clone", &Options::new().clone().expect(&rt, "clone"));
}

#[test]
fn builders_of_options_are_valid_and_equal(rt: HostRuntime) {
    check_builder(&rt, "new", &OptionsBuilder::new());
    check_builder(&rt, "default", &OptionsBuilder::default());
    check_builder(&rt, "builder", &Options::builder());
    check_builder(&rt, "rebuild", &Options::new().rebuild());
    let clone = OptionsBuilder::new().clone().expect(&rt, "clone");
    check_builder(&rt, "clone", &clone);
}
