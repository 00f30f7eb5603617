//! Tests of texts with a required sign.
//! In the lines, the columns are the radix, the number, its required length, the size of its type and its text.

use super::check_lines;
use lexical_write_integer::{NumberFormatBuilder, Options};

const SIGNED_U8: &str = "\
10 0 4 4 +0
2 0 2 16 +0
";

const SIGNED_I8: &str = "\
10 0 4 5 +0
10 -1 4 5 -1
10 1 4 5 +1
10 127 4 5 +127
16 127 3 16 +7F
";

const SIGNED_I16: &str = "\
10 0 6 7 +0
10 -1 6 7 -1
10 1 6 7 +1
";

const SIGNED_I32: &str = "\
10 0 11 12 +0
10 -1 11 12 -1
10 1 11 12 +1
";

const SIGNED_I64: &str = "\
10 0 20 21 +0
10 -1 20 21 -1
10 1 20 21 +1
";

#[test]
fn required_signs(rt: HostRuntime) {
    let options = Options::new();
    let builder = NumberFormatBuilder::new().required_mantissa_sign(true);
    check_lines::<u8>(&rt, builder, &options, SIGNED_U8);
    check_lines::<u64>(
        &rt,
        builder,
        &options,
        "10 18446744073709551615 21 21 +18446744073709551615",
    );
    check_lines::<i8>(&rt, builder, &options, SIGNED_I8);
    check_lines::<i16>(&rt, builder, &options, SIGNED_I16);
    check_lines::<i32>(&rt, builder, &options, SIGNED_I32);
    check_lines::<i64>(&rt, builder, &options, SIGNED_I64);
}
