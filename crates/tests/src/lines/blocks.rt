//! Tests of a `BlockWriter`, and in the modules below, of what reads and writes blocks.

mod answers;
mod std_devices;

ghost use Rattle.std.specs.Prelude.{◌≤◌, length, IfOk};

use crate::checks::check_equal;
use crate::lines::checks::kind_of;
use crate::lines::devices::TestWriter;
use lexical_lines::{BlockWriter, ByteSink, Writing};
use std::cell::Cell;
use std::io::ErrorKind;
use std::process::Abort;

const TEXT: &[u8] = b"0123456789abcdef";

// Puts the bytes, and returns how many were taken. If there are none, flushes and returns 0.
fn put_or_flush(
    writer: &mut BlockWriter<Writing<TestWriter<'_>>, 7>,
    bytes: &[u8],
) -> Result<usize, ErrorKind>
    ensures { IfOk result (λ count. count ≤ length bytes.now) }
{
    if !bytes.is_empty() {
        return kind_of(writer.put(bytes));
    }
    match writer.flush() {
        Ok(()) => Ok(0),
        Err(error) => Err(error.kind()),
    }
}

// Writes the text, at most `size` bytes at a time, and flushes. Repeats a step that fails, up to 40 steps,
// and returns the number of failures, each of which must be of the kind of the writer, and the writer.
fn write_through<'a>(rt: &impl Abort, taker: TestWriter<'a>, size: usize) -> (u32, TestWriter<'a>) {
    let kind = taker.kind;
    let mut writer = BlockWriter::<_, 7>::new(Writing::new(taker));
    let mut errors = 0u32;
    let mut rest = TEXT;
    for _ in 0..40 {
        match put_or_flush(&mut writer, &rest[..size.min(rest.len())]) {
            Ok(0) => break,
            Ok(count) => rest = &rest[count..],
            Err(error) => {
                check_equal(rt, "the error", error, kind);
                errors = errors.saturating_add(1);
            }
        }
    }
    (errors, writer.into_inner().into_inner())
}

// Puts one byte at a time, and checks how often the writer is called.
fn check_calls(rt: &impl Abort, piece: usize, writes: usize) {
    let flushed = Cell::new(0);
    let mut taker = TestWriter::new(&flushed);
    taker.piece = piece;
    let (errors, taker) = write_through(rt, taker, 1);
    check_equal(rt, piece, (errors, taker.writes), (0, writes));
    check_equal(rt, piece, taker.taken(), Some(TEXT));
}

#[test]
fn writes_once_for_a_block(rt: HostRuntime) {
    check_calls(&rt, 100, 3);
    check_calls(&rt, 4, 5);
    check_calls(&rt, 1, 16);
}

// The writer fails after `bad_byte` bytes, once or for good, and takes the text.
fn check_fault(rt: &impl Abort, kind: ErrorKind, is_for_good: bool, bad_byte: usize, text: &[u8]) {
    let flushed = Cell::new(0);
    let mut taker = TestWriter::new(&flushed);
    taker.piece = 1;
    taker.bad_byte = bad_byte;
    taker.is_for_good = is_for_good;
    taker.kind = kind;
    let (errors, taker) = write_through(rt, taker, 16);
    let row = (kind, is_for_good, bad_byte);
    check_equal(rt, row, errors.min(2), if is_for_good { 2 } else { 1 });
    check_equal(rt, row, taker.taken(), Some(text));
}

// After one failure everything is written. A writer that fails for good has the bytes before the failure.
fn check_faults(rt: &impl Abort, kind: ErrorKind) {
    for position in 0..16 {
        check_fault(rt, kind, false, position, TEXT);
        check_fault(rt, kind, true, position, &TEXT[..position]);
    }
}

#[test]
fn writes_on_after_a_fault(rt: HostRuntime) {
    check_faults(&rt, ErrorKind::BrokenPipe);
    check_faults(&rt, ErrorKind::WriteZero);
}
