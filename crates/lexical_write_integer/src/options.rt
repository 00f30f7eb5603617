//! The options of writing an integer, which have no fields yet.

pub use lexical_num::options::{Options, OptionsBuilder, STANDARD, WriteOptions};
