//! The answers to known lines.

use crate::lines::checks::check_slice;
use std::io::ErrorKind;

// Inputs, their answers, and whether all lines are valid.
const ANSWERS: &[(&str, &str, bool)] = &[
    ("", "", true),
    ("u8 10 5\nu8 10 6", "5\n6\n", true),
    (
        "i8 10 -128\nu8 +10 5\nu8 10 256\nu8 37 5",
        "-128\n+5\nbad line 3\nbad line 4\n",
        false,
    ),
    (
        "u64 36 18446744073709551615\ni8 +2 -128\nusize 16 255",
        "3W5E11264SGSF\n-10000000\nFF\n",
        true,
    ),
    // Leading zeros, and -0.
    (
        "u8 16 0255\ni8 2 -0\nu8 10 -0\n\n",
        "FF\n0\nbad line 3\nbad line 4\n",
        false,
    ),
    // The smallest value of each signed type.
    (
        "i8 16 -128\ni16 16 -32768\ni32 16 -2147483648\ni64 16 -9223372036854775808\nisize 36 -9223372036854775808\n",
        "-80\n-8000\n-80000000\n-8000000000000000\n-1Y2P0IJ32E8E8\n",
        true,
    ),
    // Invalid types, radices and values.
    (
        "u8 02 5\nu8 10 +5\ni8 10 128\ni8 10 -129\nu8 10 5\r\nu128 10 5\n",
        "bad line 1\nbad line 2\nbad line 3\nbad line 4\nbad line 5\nbad line 6\n",
        false,
    ),
    (
        "u8 1 1\nu8 37 1\nu8 10\nu8 10 ",
        "bad line 1\nbad line 2\nbad line 3\nbad line 4\n",
        false,
    ),
    (
        "u8  10 5\nu8 10 5 \nu8\t10 5\nU8 10 5\n u8 10 5\nu8 + 5\nu8 10 -\nu8 ++2 1\n",
        "bad line 1\nbad line 2\nbad line 3\nbad line 4\nbad line 5\nbad line 6\nbad line 7\nbad line 8\n",
        false,
    ),
    // Lines of 64 and of 65 bytes.
    (
        "u8 10 0000000000000000000000000000000000000000000000000000000005",
        "5\n",
        true,
    ),
    (
        "u8 10 00000000000000000000000000000000000000000000000000000000005",
        "bad line 1\n",
        false,
    ),
    (
        "u8 10 0000000000000000000000000000000000000000000000000000000005\n\
         u8 10 00000000000000000000000000000000000000000000000000000000005",
        "5\nbad line 2\n",
        false,
    ),
];

#[test]
fn answers_to_known_lines(rt: HostRuntime) {
    for (input, output, all_valid) in ANSWERS {
        check_slice(
            &rt,
            *input,
            input.as_bytes(),
            256,
            output.as_bytes(),
            Ok(*all_valid),
        );
    }
}

#[test]
fn a_line_of_ten_thousand_bytes(rt: HostRuntime) {
    let mut lines = [b'0'; 10007];
    lines[10000..].copy_from_slice(b"\nu8 2 5");
    let output = b"bad line 1\n101\n";
    check_slice(&rt, "10000 zeros", &lines, 256, output, Ok(false));
}

#[test]
fn full_buffers(rt: HostRuntime) {
    let full = Err(ErrorKind::WriteZero);
    check_slice(&rt, "five bytes", b"u8 10 256", 5, b"bad l", full);
    check_slice(&rt, "three bytes", b"i8 10 -128", 3, b"-12", full);
}
