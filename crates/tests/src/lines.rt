//! Tests of `lexical_lines`: known values, hostile lines, and devices that fail.

mod answers;
mod blocks;
mod checks;
mod devices;
mod failing_devices;
mod failures;
mod hostile_lines;
mod joined;
mod laws;
mod stream;
