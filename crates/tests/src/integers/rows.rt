//! Reads the rows of the tables of known values. The fields of a row are separated by a space, and the last is a text.

use std::process::Abort;
use std::str::FromStr;

// Returns the number that the row begins with, and what follows the space after it.
pub(crate) fn read<'a, F: FromStr>(rt: &impl Abort, row: &'a str) -> (F, &'a str)
where
    F::Err: Drop,
{
    let (field, rest) = row.split_once(' ').expect(rt, row);
    let number = field.parse::<F>().ok();
    (number.expect(rt, row), rest)
}
