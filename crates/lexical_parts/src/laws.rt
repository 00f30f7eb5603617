//! Laws on the texts of parts, for callers.

// Which bytes a text does not have.
pub(crate) mod bytes;

// What equal texts have in common.
pub(crate) mod equal;

// Where a text begins.
pub(crate) mod positions;

// Texts that std reads.
pub(crate) mod read_back;
