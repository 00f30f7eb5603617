//! A counter of what a writer computes, which only contracts read. `crates/uses/src/recorded_turns.rt` has examples.

/// A counter of what a writer computes, one number for each step. Contracts see it as a list of numbers (notes): `tick`
/// appends a value with which the writer goes on, such as a quotient. The list has no maximum length, and the counter
/// has no data at run time.
pub use lexical_num::ghost_log::GhostLog as Turns;
