//! Tests of every writer with buffers of exactly the required length. The numbers are 0, 1, the smallest and
//! the largest number of the type, and the powers of each radix with the numbers next to them.

pub(crate) mod digits;
mod expected;
mod near_powers;
mod numbers;
