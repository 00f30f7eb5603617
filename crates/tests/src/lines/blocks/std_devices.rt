//! A `Reading` and a `Writing`, as a source and a sink of blocks, call their reader and their writer once for each
//! call, also after an error.

use crate::checks::check_equal;
use crate::lines::checks::{check_put, check_taker, kind_of};
use crate::lines::devices::{TestReader, TestWriter};
use lexical_lines::{BlockSink, BlockSource, Reading, Writing};
use std::cell::Cell;
use std::io::ErrorKind;
use std::process::Abort;

const TEXT: &[u8] = b"0123456789abcdef";

const FAILED: Result<usize, ErrorKind> = Err(ErrorKind::BrokenPipe);

// Checks what a read of a block returns.
fn check_read(
    rt: &impl Abort,
    source: &mut Reading<&mut TestReader<'_>>,
    block: &mut [u8; 12],
    expected: Result<usize, ErrorKind>,
) {
    check_equal(rt, "read", kind_of(source.read_block(block)), expected);
}

#[test]
fn a_source_reads_once_for_each_block(rt: HostRuntime) {
    let flushed = Cell::new(0);
    let mut reader = TestReader::new(TEXT, &flushed);
    reader.bad_read = 1;
    let mut source = Reading::whole(&mut reader);
    let mut block = [0; 12];
    check_read(&rt, &mut source, &mut block, Ok(12));
    check_read(&rt, &mut source, &mut block, FAILED);
    check_read(&rt, &mut source, &mut block, Ok(4));
    check_read(&rt, &mut source, &mut block, Ok(0));
    check_equal(&rt, "the block", block, *b"cdef456789ab");
    check_equal(&rt, "reads", reader.reads, 4);
}

#[test]
fn a_sink_writes_once_for_each_block(rt: HostRuntime) {
    let flushed = Cell::new(0);
    let mut writer = TestWriter::new(&flushed);
    writer.piece = 7;
    writer.bad_byte = 7;
    let mut sink = Writing::new(writer);
    check_put(&rt, &mut sink, TEXT, Ok(7));
    check_put(&rt, &mut sink, &TEXT[7..], FAILED);
    check_put(&rt, &mut sink, &TEXT[7..], Ok(7));
    check_put(&rt, &mut sink, &TEXT[14..], Ok(2));
    check_taker(&rt, &sink.into_inner(), 4, 0, TEXT);
}

// Checks what a flush returns.
fn check_flush(
    rt: &impl Abort,
    sink: &mut Writing<TestWriter<'_>>,
    expected: Result<usize, ErrorKind>,
) {
    let outcome = match sink.flush() {
        Ok(()) => Ok(0),
        Err(error) => Err(error.kind()),
    };
    check_equal(rt, "flush", outcome, expected);
}

#[test]
fn a_sink_flushes_once_for_each_flush(rt: HostRuntime) {
    let flushed = Cell::new(0);
    let mut writer = TestWriter::new(&flushed);
    writer.bad_flush = 1;
    let mut sink = Writing::new(writer);
    check_flush(&rt, &mut sink, Ok(0));
    check_flush(&rt, &mut sink, FAILED);
    check_flush(&rt, &mut sink, Ok(0));
    check_taker(&rt, &sink.into_inner(), 0, 3, b"");
}
