//! Parts in a format string, such as `{:>10}`.

// Numbers, which have the options of integers, and other parts, which have those of strings.
mod cell;
mod display;
pub(crate) mod shown;

// A text that is written in pieces: its length, and its first characters.
mod cut;
pub(crate) mod limited;
