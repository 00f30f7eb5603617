//! Laws on numerals and texts. The contract of each function is a law over the definitions. A caller
//! obtains the law by calling the function, which does nothing at run time.

mod appended;
mod bytes;
mod comparison;
mod digits;
mod groups;
mod reading;
mod room;
mod rows;

pub use appended::{decimal_then_padded, digits_then_padded, padded_then_padded};
pub use bytes::{
    digits_computed, padded_computed, text_computed, text_has_no, text_is_ascii, text_is_decimal,
};
pub use comparison::{
    different_digits, different_padded, different_texts, digits_equal_iff, equal_digits,
    equal_padded, equal_texts, order, padded_equal_iff, padded_order, texts_equal_iff,
};
pub use digits::{
    digit_count_at_most, digit_count_is, digit_count_is_least, digit_count_within_bits,
    numeral_exists, numeral_unique,
};
pub use groups::text_in_groups;
pub use reading::{
    digits_read_back, equal_across_formats, grouped_read_back, padded_read_back, text_read_back,
};
pub use room::{padded_length, size_suffices, size_suffices_for_type, text_length};
pub use rows::equal_rows;
