//! Tests of texts whose digits are in groups.
//! In the lines, the columns are the radix, the number, its required length, the size of its type and its text.

use super::check_lines;
use lexical_write_integer::{NumberFormatBuilder, Options};

const THOUSANDS_U16: &str = "\
10 999 6 6 999
10 1000 6 6 1,000
";

#[test]
fn groups_of_three(rt: HostRuntime) {
    let options = Options::new();
    let builder = NumberFormatBuilder::new().digit_grouping(3, b',');
    check_lines::<u16>(&rt, builder, &options, THOUSANDS_U16);
    check_lines::<u32>(&rt, builder, &options, "10 1234567 13 13 1,234,567");
    check_lines::<i64>(
        &rt,
        builder,
        &options,
        "10 -9223372036854775808 26 26 -9,223,372,036,854,775,808",
    );
}

const ONES_I8: &str = "\
10 -128 6 7 -1_2_8
2 -128 16 16 -1_0_0_0_0_0_0_0
";

#[test]
fn groups_of_other_sizes(rt: HostRuntime) {
    let options = Options::new();
    let builder = NumberFormatBuilder::new();
    let ones = builder.digit_grouping(1, b'_');
    check_lines::<i8>(&rt, ones, &options, ONES_I8);
    let words = builder.digit_grouping(4, b' ');
    check_lines::<u32>(&rt, words, &options, "16 3735928559 9 64 DEAD BEEF");
    let long = builder.digit_grouping(64, b'_');
    let line =
        "2 18446744073709551615 64 128 1111111111111111111111111111111111111111111111111111111111111111";
    check_lines::<u64>(&rt, long, &options, line);
}

#[test]
fn groups_and_required_signs(rt: HostRuntime) {
    let options = Options::new();
    let builder = NumberFormatBuilder::new().required_mantissa_sign(true);
    let thousands = builder.digit_grouping(3, b',');
    let line = "10 18446744073709551615 27 27 +18,446,744,073,709,551,615";
    check_lines::<u64>(&rt, thousands, &options, line);
    let ones = builder.digit_grouping(1, b'_');
    let line = "\
        2 18446744073709551615 128 128 \
        +1_1_1_1_1_1_1_1_1_1_1_1_1_1_1_1_1_1_1_1_1_1_1_1_1_1_1_1_1_1_1_1\
        _1_1_1_1_1_1_1_1_1_1_1_1_1_1_1_1_1_1_1_1_1_1_1_1_1_1_1_1_1_1_1_1";
    check_lines::<u64>(&rt, ones, &options, line);
}
