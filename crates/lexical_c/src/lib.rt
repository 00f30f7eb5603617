//! The writers of integers as C functions, which `include/lexical.h` declares and explains:
//!
//! ```c
//! char buffer[LEXICAL_BUFFER_SIZE];
//! size_t count = lexical_decimal_u32(48879, buffer, sizeof buffer);
//! ```
//!
//! writes `48879` to the buffer and returns 5. No proof covers the
//! code of a C caller, so each function checks the format and the length of the buffer when it is
//! called, and returns 0 if it cannot write.
#![tactic(auto)]

mod buffer_size;
mod decimal;
mod ending;
mod format;
mod general;
mod hexadecimal;
mod integer;
mod length;
mod plain;
mod version;
mod write;
