//! Makes the numbers of each integer type from a sign and a magnitude.

use super::expected::Expected;
use lexical_write_integer::ToLexicalWithOptions;
use lexical_write_integer::format::STANDARD;
use std::str;
use std::str::FromStr;

// Returns the number of the type with this sign and magnitude, if there is one. No number has the sign `-` and
// the magnitude 0.
pub(crate) fn number<T: FromStr>(is_negative: bool, magnitude: u64) -> Option<T>
where
    T::Err: Drop,
{
    if is_negative && magnitude == 0 {
        return None;
    }
    let expected = Expected::new(is_negative, magnitude, &STANDARD);
    let Ok(text) = str::from_utf8(expected.text()) else {
        return None;
    };
    text.parse().ok()
}
