//! The texts of numbers: a sign, and then the digits in the groups of the format.

pub mod groups;
mod integers;
pub mod to_lexical;
