//! Lines of a reader are answered to a writer, and one of the two may fail at one of its calls.

use crate::checks::check_equal;
use crate::lines::devices::{NEVER, TestReader, TestWriter};
use lexical_lines::{BlockWriter, Reading, Writing, answer_stream};
use std::cell::Cell;
use std::process::Abort;

// Three lines of 11 bytes, each of which is yielded by one read.
const LINES: &str = "u8 10 0005\nu8 2 00005\ni8 16 -128\n";

const ANSWERS: &[u8] = b"5\n101\n-80\n";

// The lines, the read that fails, the number of bytes after which the writer fails, the flush that fails,
// whether the writer fails for good, the exit status, and what the writer has taken.
type Row = (&'static str, usize, usize, usize, bool, u8, &'static [u8]);

const ROWS: &[Row] = &[
    (LINES, NEVER, NEVER, NEVER, false, 0, ANSWERS),
    ("", NEVER, NEVER, NEVER, false, 0, b""),
    (
        "u8 10 256\nu8 10 5",
        NEVER,
        NEVER,
        NEVER,
        false,
        1,
        b"bad line 1\n5\n",
    ),
    (LINES, 0, NEVER, NEVER, false, 2, b""),
    (LINES, 1, NEVER, NEVER, false, 2, b"5\n"),
    (LINES, 2, NEVER, NEVER, false, 2, b"5\n101\n"),
    (LINES, 3, NEVER, NEVER, false, 2, ANSWERS),
    (LINES, NEVER, 0, NEVER, true, 2, b""),
    (LINES, NEVER, 1, NEVER, true, 2, b"5"),
    (LINES, NEVER, 2, NEVER, true, 2, b"5\n"),
    (LINES, NEVER, 3, NEVER, true, 2, b"5\n1"),
    (LINES, NEVER, 4, NEVER, true, 2, b"5\n10"),
    (LINES, NEVER, 5, NEVER, true, 2, b"5\n101"),
    (LINES, NEVER, 6, NEVER, true, 2, b"5\n101\n"),
    (LINES, NEVER, 7, NEVER, true, 2, b"5\n101\n-"),
    (LINES, NEVER, 8, NEVER, true, 2, b"5\n101\n-8"),
    (LINES, NEVER, 9, NEVER, true, 2, b"5\n101\n-80"),
    (LINES, NEVER, 3, NEVER, false, 2, b"5\n1"),
    (LINES, NEVER, NEVER, 0, false, 2, b""),
    (LINES, NEVER, NEVER, 0, true, 2, b""),
    (LINES, NEVER, NEVER, 1, false, 2, b"5\n"),
    (LINES, NEVER, NEVER, 1, true, 2, b"5\n"),
    (LINES, NEVER, NEVER, 2, false, 2, b"5\n101\n"),
    (LINES, NEVER, NEVER, 2, true, 2, b"5\n101\n"),
    (LINES, NEVER, NEVER, 3, false, 2, ANSWERS),
    (LINES, NEVER, NEVER, 3, true, 2, ANSWERS),
];

// Answers the lines, and checks the exit status and that the writer has taken exactly the output.
fn check_row(rt: &impl Abort, row: Row) {
    let (lines, bad_read, bad_byte, bad_flush, is_for_good, wanted, output) = row;
    let flushed = Cell::new(0);
    let mut reader = TestReader::new(lines.as_bytes(), &flushed);
    reader.piece = 11;
    reader.bad_read = bad_read;
    let mut writer = TestWriter::new(&flushed);
    writer.piece = 1;
    writer.bad_byte = bad_byte;
    writer.bad_flush = bad_flush;
    writer.is_for_good = is_for_good;
    check_equal(rt, row, status_of(&mut reader, &mut writer), wanted);
    check_equal(rt, row, writer.taken(), Some(output));
}

// Answers the lines, and returns the exit status.
fn status_of(reader: &mut TestReader<'_>, writer: &mut TestWriter<'_>) -> u8 {
    let mut output = BlockWriter::<_, 16_384>::new(Writing::new(writer));
    answer_stream(&mut Reading::whole(reader), &mut output)
}

// The numbers of reads, of writes, of flushes and of bytes that the writer has taken.
type Calls = [usize; 4];

// Answers the lines, and returns the exit status and the calls.
fn status_and_calls(reader: &mut TestReader<'_>, writer: &mut TestWriter<'_>) -> (u8, Calls) {
    let status = status_of(reader, writer);
    (
        status,
        [reader.reads, writer.writes, writer.flushes, writer.count],
    )
}

#[test]
fn devices_that_fail(rt: HostRuntime) {
    for row in ROWS {
        check_row(&rt, *row);
    }
}

// The last of the five flushes comes after the last answer, so all answers are there when it fails.
#[test]
fn the_last_flush_fails(rt: HostRuntime) {
    check_row(&rt, (LINES, NEVER, NEVER, 4, false, 2, ANSWERS));
    check_row(&rt, (LINES, NEVER, NEVER, 4, true, 2, ANSWERS));
}

// There is one read for each line and one for the end. The writer is flushed before each, and at the end.
#[test]
fn each_answer_is_flushed_before_the_next_read(rt: HostRuntime) {
    let flushed = Cell::new(0);
    let mut reader = TestReader::new(LINES.as_bytes(), &flushed);
    reader.piece = 11;
    let mut writer = TestWriter::new(&flushed);
    let answered = status_and_calls(&mut reader, &mut writer);
    check_equal(
        &rt,
        "reads, writes, flushes, bytes",
        answered,
        (0, [4, 3, 5, 10]),
    );
    check_equal(&rt, "flushed by each read", reader.seen, [0, 2, 6, 10]);
}

// Answers the lines with one call that fails, and checks how often the devices were called.
fn check_calls(rt: &impl Abort, bad: [usize; 3], expected: Calls) {
    let [bad_read, bad_byte, bad_flush] = bad;
    let flushed = Cell::new(0);
    let mut reader = TestReader::new(LINES.as_bytes(), &flushed);
    reader.piece = 11;
    reader.bad_read = bad_read;
    let mut writer = TestWriter::new(&flushed);
    writer.piece = 1;
    writer.bad_byte = bad_byte;
    writer.bad_flush = bad_flush;
    let answered = status_and_calls(&mut reader, &mut writer);
    check_equal(rt, bad, answered, (2, expected));
}

// Each device would succeed if it were called again.
#[test]
fn nothing_is_called_after_a_failure(rt: HostRuntime) {
    check_calls(&rt, [1, NEVER, NEVER], [2, 2, 2, 2]);
    check_calls(&rt, [NEVER, 3, NEVER], [2, 4, 2, 3]);
    check_calls(&rt, [NEVER, NEVER, 1], [1, 2, 2, 2]);
    check_calls(&rt, [NEVER, NEVER, 4], [4, 10, 5, 10]);
}

const LINE: [u8; 16] = *b"u64 10 00000055\n";

// The 20480 lines of 16 bytes fill two and a half blocks of 128 KiB. The answers have 3 bytes, so those to a
// whole block take a write of 16 KiB and one of 8 KiB, and the others take one of 12 KiB.
#[test]
fn a_read_takes_128_kib_and_a_write_16_kib(rt: HostRuntime) {
    let mut lines = [0; 327_680];
    for (index, byte) in lines.iter_mut().enumerate() {
        *byte = LINE[index % 16];
    }
    let flushed = Cell::new(0);
    let mut reader = TestReader::new(&lines, &flushed);
    let mut writer = TestWriter::new(&flushed);
    let answered = status_and_calls(&mut reader, &mut writer);
    check_equal(
        &rt,
        "reads, writes, flushes, bytes",
        answered,
        (0, [4, 5, 5, 61_440]),
    );
}
