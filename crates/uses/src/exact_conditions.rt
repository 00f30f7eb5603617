//! Calls whose conditions only just hold.
//!
//! With one byte less, with the next number or with another radix, the check refuses each of these calls, as
//! `mistakes/bodies.edit` shows. The functions promise nothing about their results, so only the condition of the call
//! can be refused. Those of `clones` have no condition, and promise that they never fail.

pub mod clones;
pub mod counts;
pub mod digits;
pub mod formats;
pub mod kernels;
pub mod numbers;
pub mod tables;
pub mod texts;
