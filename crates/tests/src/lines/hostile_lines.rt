//! Hostile lines: single bytes, a valid line with one byte changed, and one with an additional byte.

use crate::lines::checks::check_slice;
use std::process::Abort;

const BAD: &[u8] = b"bad line 1\n";

const BOTH_BAD: &[u8] = b"bad line 1\nbad line 2\n";

// Checks the line with each of the 256 bytes at this index. If the byte is valid, the answer is the line from index 6
// on. If it is a newline, there are two lines.
fn check_bytes<const N: usize>(
    rt: &impl Abort,
    line: [u8; N],
    index: usize,
    valid: &[u8],
    two_lines: &[u8],
) {
    assert!(rt; index < N);
    let mut line = line;
    for byte in 0..=255u8 {
        line[index] = byte;
        let is_valid = valid.contains(&byte);
        let answers = if is_valid {
            line.get(6..).unwrap_or(b"")
        } else if byte == b'\n' {
            two_lines
        } else {
            BAD
        };
        check_slice(rt, (line, index), &line, 256, answers, Ok(is_valid));
    }
}

#[test]
fn single_bytes(rt: HostRuntime) {
    check_bytes(&rt, *b"?", 0, b"", BAD);
    check_bytes(&rt, *b"?\n", 0, b"", BOTH_BAD);
}

// A valid change makes another type, radix or digit.
#[test]
fn one_byte_changed(rt: HostRuntime) {
    let digits = b"0123456789".as_slice();
    for (index, valid) in [
        (0, b"ui".as_slice()),
        (1, b"8"),
        (2, b" "),
        (3, b"123"),
        (4, digits),
        (5, b" "),
        (6, digits),
    ] {
        check_bytes(&rt, *b"u8 10 5\n", index, valid, BOTH_BAD);
    }
}

// An additional digit makes another number. After a newline follows an empty line.
#[test]
fn one_byte_appended(rt: HostRuntime) {
    check_bytes(&rt, *b"u8 10 5?\n", 7, b"0123456789", b"5\nbad line 2\n");
}
