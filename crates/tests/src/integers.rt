//! Tests of `lexical_num`, `lexical_tables` and `lexical_write_integer` against known values: formats, tables, digit
//! counts and writers.

mod checks;
mod counts;
mod decimal_values;
mod digits_in_each_radix;
mod exact_buffers;
mod formats;
mod kernel_values;
mod numbers;
mod pair_tables;
mod rows;
mod single_calls;
mod texts;
mod writes;

#[test]
fn two_texts_in_longer_buffers(rt: HostRuntime) {
    use crate::checks::check_equal;
    use lexical_write_integer::ToLexical;
    let mut three = [7, 7, 7];
    let text = 0u8.to_lexical(&mut three);
    check_equal(&rt, "the text of 0", &*text, b"0");
    check_equal(&rt, "its buffer", three, [48, 7, 7]);
    let mut twenty = [7; 20];
    let text = 1234u64.to_lexical(&mut twenty);
    check_equal(&rt, "the text of 1234", &*text, b"1234");
}
