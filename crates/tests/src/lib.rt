//! Tests of the libraries against known values. No test allocates memory, and `tests/process` checks that.
#![tactic(auto)]

// The assertion of all tests.
#[cfg(test)]
mod checks;

// Numbers: formats, tables, digit counts and texts.
#[cfg(test)]
mod integers;

// Lines and their answers: known values, hostile lines, and devices that fail.
#[cfg(test)]
mod lines;
