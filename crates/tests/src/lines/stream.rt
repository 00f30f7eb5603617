//! A `Reading` and a `Writing`, as a source and a sink of single bytes, call their reader and their writer once for
//! each call, also after an error.

use crate::checks::check_equal;
use crate::lines::checks::{check_put, check_taker};
use crate::lines::devices::{TestReader, TestWriter};
use lexical_lines::{ByteSource, Reading, Writing};
use std::cell::Cell;
use std::io::ErrorKind;
use std::process::Abort;

// Checks the next byte of the source, or the kind of its error.
fn check_next(
    rt: &impl Abort,
    source: &mut Reading<&mut TestReader<'_>>,
    expected: Result<Option<u8>, ErrorKind>,
) {
    let outcome = match source.next() {
        Ok(next) => Ok(next),
        Err(error) => Err(error.kind()),
    };
    check_equal(rt, "next", outcome, expected);
}

// The reader fails once, and is also called after its end.
#[test]
fn a_source_reads_once_for_each_byte(rt: HostRuntime) {
    let flushed = Cell::new(0);
    let mut reader = TestReader::new(b"ab", &flushed);
    reader.bad_read = 1;
    let mut source = Reading::new(&mut reader, 3);
    check_next(&rt, &mut source, Ok(Some(b'a')));
    check_next(&rt, &mut source, Err(ErrorKind::BrokenPipe));
    check_next(&rt, &mut source, Ok(Some(b'b')));
    check_next(&rt, &mut source, Ok(None));
    check_next(&rt, &mut source, Ok(None));
    check_equal(&rt, "reads", reader.reads, 5);
}

#[test]
fn a_source_does_not_read_at_its_limit(rt: HostRuntime) {
    let flushed = Cell::new(0);
    let mut reader = TestReader::new(b"ab", &flushed);
    let mut source = Reading::new(&mut reader, 1);
    check_next(&rt, &mut source, Ok(Some(b'a')));
    check_next(&rt, &mut source, Ok(None));
    check_next(&rt, &mut source, Ok(None));
    check_equal(&rt, "reads", reader.reads, 1);
}

#[test]
fn a_sink_writes_once_for_each_put(rt: HostRuntime) {
    let flushed = Cell::new(0);
    let mut writer = TestWriter::new(&flushed);
    writer.piece = 3;
    writer.bad_byte = 3;
    let mut sink = Writing::new(writer);
    check_put(&rt, &mut sink, b"abcde", Ok(3));
    check_put(&rt, &mut sink, b"de", Err(ErrorKind::BrokenPipe));
    check_put(&rt, &mut sink, b"de", Ok(2));
    check_put(&rt, &mut sink, b"", Ok(0));
    check_taker(&rt, &sink.into_inner(), 4, 0, b"abcde");
}
