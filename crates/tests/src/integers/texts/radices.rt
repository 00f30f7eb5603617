//! Tests of texts in several radices, without groups and required signs.
//! In the lines, the columns are the radix, the number, its required length, the size of its type and its text.

use super::{check, check_lines};
use lexical_write_integer::laws::equal_texts;
use lexical_write_integer::{NumberFormatBuilder, Options};

const TEXTS_OF_U8: &str = "\
10 0 3 3 0
10 255 3 3 255
3 255 6 16 100110
4 255 4 16 3333
12 128 2 16 A8
15 255 3 16 120
16 255 2 16 FF
36 9 1 16 9
36 10 1 16 A
";

const TEXTS_OF_U16: &str = "\
15 65535 5 32 14640
16 65535 4 32 FFFF
";

const TEXTS_OF_U64: &str = "\
10 1234 20 20 1234
12 1234 3 128 86A
2 1234 11 128 10011010010
10 9999999999 20 20 9999999999
10 10000000000 20 20 10000000000
10 18446744073709551615 20 20 18446744073709551615
16 18446744073709551615 16 128 FFFFFFFFFFFFFFFF
36 18446744073709551615 13 128 3W5E11264SGSF
";

const TEXTS_OF_I8: &str = "\
10 -128 4 4 -128
2 -128 9 16 -10000000
36 -128 3 16 -3K
";

const TEXTS_OF_I32: &str = "\
10 0 10 11 0
36 35 1 64 Z
36 36 2 64 10
";

const TEXTS_OF_I64: &str = "\
10 0 19 20 0
10 -9223372036854775808 20 20 -9223372036854775808
2 -9223372036854775808 65 128 -1000000000000000000000000000000000000000000000000000000000000000
36 -10 2 128 -A
36 10 1 128 A
";

#[test]
fn several_radices(rt: HostRuntime) {
    let options = Options::new();
    let builder = NumberFormatBuilder::new();
    check_lines::<u8>(&rt, builder, &options, TEXTS_OF_U8);
    check_lines::<u16>(&rt, builder, &options, TEXTS_OF_U16);
    check_lines::<u32>(&rt, builder, &options, "10 4294967295 10 10 4294967295");
    check_lines::<u64>(&rt, builder, &options, TEXTS_OF_U64);
    let binary = NumberFormatBuilder::binary();
    check(&rt, 1234u64, &binary, &options, b"10011010010");
    check_lines::<i8>(&rt, builder, &options, TEXTS_OF_I8);
    check_lines::<i16>(&rt, builder, &options, "10 0 5 6 0");
    check_lines::<i32>(&rt, builder, &options, TEXTS_OF_I32);
    // Only equal numbers have equal texts: the lines of an `i64` have -10 and 10.
    equal_texts(-10i64, 10, &NumberFormatBuilder::from_radix(36));
    check_lines::<i64>(&rt, builder, &options, TEXTS_OF_I64);
    check_lines::<isize>(&rt, builder, &options, "10 5 19 20 5");
}
