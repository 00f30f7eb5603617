//! Examples of callers. Each module writes something that a program may need, and is proved from
//! nothing but the contracts of the functions that it calls.
//!
//! Some modules show contracts instead: `exact_conditions` has calls whose conditions only just hold,
//! `recorded_turns` shows what counters note, `integer_types` the constants of the integer types, and
//! `equality` and `other_laws` what laws let one conclude. A contract that promised less, or required
//! more, would break their proofs.
#![tactic(auto, using(lexical_parts::proofs::Callers::callers))]

// Numbers in one format.
pub mod any_format;
pub mod digit_pair;
pub mod float_parts;
pub mod hexadecimal;
pub mod limb;
pub mod limbs;
pub mod printed;
pub mod read_back;

// Identifiers and addresses.
pub mod addresses;
pub mod digest;
pub mod identifier;
pub mod ipv6;
pub mod timed;
pub mod uuid;

// Amounts, dates and times.
pub mod accounted;
pub mod amount;
pub mod date_time;
pub mod price;
pub mod time_of_day;

// Lines, rows and dumps.
pub mod alternatives;
pub mod answers;
pub mod csv_row;
pub mod dump;
pub mod dump_line;
pub mod fixed_text;
pub mod key_value;
pub mod log_lines;
pub mod measurement;
pub mod packet;
pub mod table_row;

// Several texts in one buffer.
pub mod arena;
pub mod line_block;
pub mod slots;
pub mod tar_header;

// What contracts and laws let one conclude.
pub mod equality;
pub mod exact_conditions;
pub mod integer_types;
pub mod other_laws;
pub mod recorded_turns;
pub mod sorted_keys;

// Tests with known numbers. Some of them allocate memory, which no test of the crate `tests` may do.
#[cfg(test)]
mod tests;
