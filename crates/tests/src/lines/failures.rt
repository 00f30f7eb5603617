//! Runs over devices that fail after each number of bytes: a run ends at the first failure, and no byte
//! is lost or written twice.

use crate::checks::check_equal;
use crate::lines::checks::{Outcome, UNCHANGED, check_buffer, check_outcome, check_run};
use crate::lines::devices::{NEVER, TestReader, TestWriter};
use crate::lines::failing_devices::{FailingSink, FailingSource};
use lexical_lines::{Reading, SliceSource, Writing, run};
use std::cell::Cell;
use std::io::ErrorKind;
use std::process::Abort;

// An input, the answers to all its lines, whether they are valid, and for each newline of the input the number
// of bytes up to and including it with the answers to the lines up to there.
type Case = (
    &'static str,
    &'static str,
    bool,
    &'static [(usize, &'static str)],
);

const CASES: &[Case] = &[
    ("u8 10 5\nu8 10 6", "5\n6\n", true, &[(8, "5\n")]),
    (
        "i8 10 -128\nu8 +10 5\nu8 10 256\nu8 37 5",
        "-128\n+5\nbad line 3\nbad line 4\n",
        false,
        &[
            (11, "-128\n"),
            (20, "-128\n+5\n"),
            (30, "-128\n+5\nbad line 3\n"),
        ],
    ),
    // A line of 65 bytes and one of 64.
    (
        "u8 10 00000000000000000000000000000000000000000000000000000000005\n\
         u8 10 0000000000000000000000000000000000000000000000000000000005\n",
        "bad line 1\n5\n",
        false,
        &[(66, "bad line 1\n"), (131, "bad line 1\n5\n")],
    ),
];

// Returns the answers to the lines that end within the first `yielded` bytes.
fn answered(newlines: &[(usize, &'static str)], yielded: usize) -> &'static str {
    let mut output = "";
    for (newline, answers) in newlines {
        if *newline <= yielded {
            output = *answers;
        }
    }
    output
}

// Returns the error that is expected, or another one.
fn kind_in(expected: Outcome) -> ErrorKind {
    match expected {
        Ok(_) => ErrorKind::Other,
        Err(kind) => kind,
    }
}

// The source yields up to `limit` bytes, and the read `bad_read` fails with the expected error.
fn check_source(
    rt: &impl Abort,
    input: &str,
    limit: u64,
    bad_read: usize,
    output: &str,
    expected: Outcome,
) {
    let flushed = Cell::new(0);
    let mut reader = TestReader::new(input.as_bytes(), &flushed);
    reader.bad_read = bad_read;
    reader.kind = kind_in(expected);
    let mut source = Reading::new(reader, limit);
    let row = (input, limit, bad_read, expected);
    check_run(rt, row, &mut source, 256, output.as_bytes(), expected);
}

#[test]
fn sources_with_a_limit(rt: HostRuntime) {
    check_source(&rt, "u8 10 5", 3, NEVER, "bad line 1\n", Ok(false));
    check_source(&rt, "u8 10 5\nu8 2 5", 100, NEVER, "5\n101\n", Ok(true));
}

// A reader, and a source without a reader, each of which yields `position` bytes and then fails.
fn check_failing_source(
    rt: &impl Abort,
    input: &str,
    position: usize,
    output: &str,
    kind: ErrorKind,
) {
    check_source(rt, input, 1000, position, output, Err(kind));
    let mut source = FailingSource::new(input.as_bytes(), position, kind);
    let row = (input, position, kind);
    check_run(rt, row, &mut source, 256, output.as_bytes(), Err(kind));
}

// The source fails after each number of bytes up to the whole input: all lines that have ended are
// answered, and the error is the source's.
fn check_sources(rt: &impl Abort, case: Case) {
    let (input, _, _, newlines) = case;
    for position in 0..=input.len() {
        let output = answered(newlines, position);
        check_failing_source(rt, input, position, output, ErrorKind::Interrupted);
        check_failing_source(rt, input, position, output, ErrorKind::BrokenPipe);
    }
}

#[test]
fn sources_that_fail(rt: HostRuntime) {
    for case in CASES {
        check_sources(&rt, *case);
    }
}

// The sink takes at most `piece` bytes in each call, and fails with the expected error after as many bytes
// as the output has.
fn check_sink(rt: &impl Abort, input: &str, piece: usize, output: &[u8], expected: Outcome) {
    let flushed = Cell::new(0);
    let mut writer = TestWriter::new(&flushed);
    writer.piece = piece;
    writer.bad_byte = output.len();
    writer.kind = kind_in(expected);
    let mut sink = Writing::new(writer);
    let ran = run(&mut Reading::new(input.as_bytes(), 1000), &mut sink);
    let row = (input, piece, output.len(), expected);
    check_outcome(rt, row, ran, expected);
    check_equal(rt, row, sink.into_inner().taken(), Some(output));
}

// The same with a sink without a writer.
fn check_failing_sink(
    rt: &impl Abort,
    input: &str,
    piece: usize,
    output: &[u8],
    expected: Outcome,
) {
    let mut buffer = UNCHANGED;
    let mut sink = FailingSink::new(&mut buffer, piece, output.len(), kind_in(expected));
    let ran = run(&mut SliceSource::new(input.as_bytes()), &mut sink);
    let row = (input, piece, output.len(), expected);
    check_outcome(rt, row, ran, expected);
    check_equal(rt, row, sink.len(), output.len());
    check_buffer(rt, row, &buffer, output);
}

fn check_both_sinks(rt: &impl Abort, input: &str, piece: usize, output: &[u8], expected: Outcome) {
    check_sink(rt, input, piece, output, expected);
    check_failing_sink(rt, input, piece, output, expected);
}

// The sink takes all bytes at once, or one byte in each call. It fails after each number of bytes below the
// whole output, and then only after the last answer.
fn check_sinks(rt: &impl Abort, case: Case, kind: ErrorKind) {
    let (input, output, all_valid, _) = case;
    let output = output.as_bytes();
    for position in 0..output.len() {
        check_both_sinks(rt, input, 64, &output[..position], Err(kind));
        check_both_sinks(rt, input, 1, &output[..position], Err(kind));
    }
    check_both_sinks(rt, input, 1, output, Ok(all_valid));
}

// With `WriteZero` the sink takes no bytes in place of an error.
#[test]
fn sinks_that_fail(rt: HostRuntime) {
    for case in CASES {
        check_sinks(&rt, *case, ErrorKind::Interrupted);
        check_sinks(&rt, *case, ErrorKind::BrokenPipe);
        check_sinks(&rt, *case, ErrorKind::OutOfMemory);
        check_sinks(&rt, *case, ErrorKind::WriteZero);
    }
}
