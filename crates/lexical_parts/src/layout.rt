//! Parts in a row, in columns, and at their places in a buffer.

// One after another.
pub(crate) mod joined;
mod tuples;

// With a fill up to a width.
pub(crate) mod column;
pub(crate) mod fill;
pub(crate) mod zero_padded;

// In a record: a field of a fixed width, and a text after its length.
pub(crate) mod field;
pub(crate) mod with_length;
