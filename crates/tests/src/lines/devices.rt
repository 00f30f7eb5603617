//! A reader and a writer that yield and take little in each call, and fail.

use std::cell::Cell;
use std::io;
use std::io::{ErrorKind, Read, Write};

/// For a device that does not fail.
pub const NEVER: usize = usize::MAX;

/// A reader that yields the bytes of a slice. One of its calls may fail, and the next one continues.
#[derive(Drop)]
pub struct TestReader<'a> {
    bytes: &'a [u8],
    // The largest number of bytes that a call yields.
    pub piece: usize,
    // The call that fails, counted from 0, and its error.
    pub bad_read: usize,
    pub kind: ErrorKind,
    pub reads: usize,
    // What the writer has flushed by now, and by the time of each of the first reads.
    flushed: &'a Cell<usize>,
    pub seen: [usize; 4],
}

impl<'a> TestReader<'a> {
    pub fn new(bytes: &'a [u8], flushed: &'a Cell<usize>) -> TestReader<'a> {
        TestReader {
            bytes,
            piece: NEVER,
            bad_read: NEVER,
            kind: ErrorKind::BrokenPipe,
            reads: 0,
            flushed,
            seen: [NEVER; 4],
        }
    }
}

impl Read for TestReader<'_> {
    fn read(&mut self, buffer: &mut [u8]) -> io::Result<usize> {
        let read = self.reads;
        self.reads = read.saturating_add(1);
        if let Some(seen) = self.seen.get_mut(read) {
            *seen = self.flushed.get();
        }
        if read == self.bad_read {
            return Err(io::Error::from(self.kind));
        }
        let count = buffer.len().min(self.piece);
        self.bytes.read(&mut buffer[..count])
    }
}

/// A writer that keeps the first 64 bytes that it takes, and counts all of them.
#[derive(Drop)]
pub struct TestWriter<'a> {
    kept: [u8; 64],
    pub count: usize,
    // The largest number of bytes that a call takes.
    pub piece: usize,
    // The number of bytes after which a write fails, and the flush that fails, counted from 0.
    pub bad_byte: usize,
    pub bad_flush: usize,
    // Whether the calls after a failure fail too.
    pub is_for_good: bool,
    // The error of a write. If it is `WriteZero`, the write takes no bytes instead.
    pub kind: ErrorKind,
    pub writes: usize,
    pub flushes: usize,
    // The number of bytes taken at the last flush.
    flushed: &'a Cell<usize>,
}

impl<'a> TestWriter<'a> {
    pub fn new(flushed: &'a Cell<usize>) -> TestWriter<'a> {
        TestWriter {
            kept: [0; 64],
            count: 0,
            piece: NEVER,
            bad_byte: NEVER,
            bad_flush: NEVER,
            is_for_good: false,
            kind: ErrorKind::BrokenPipe,
            writes: 0,
            flushes: 0,
            flushed,
        }
    }

    /// Returns the bytes taken, or `None` if they are more than 64.
    pub fn taken(&self) -> Option<&[u8]> {
        self.kept.get(..self.count)
    }
}

impl Write for TestWriter<'_> {
    fn write(&mut self, bytes: &[u8]) -> io::Result<usize> {
        self.writes = self.writes.saturating_add(1);
        let left = self.bad_byte.saturating_sub(self.count);
        if left == 0 {
            if !self.is_for_good {
                self.bad_byte = NEVER;
            }
            if self.kind == ErrorKind::WriteZero {
                return Ok(0);
            }
            return Err(io::Error::from(self.kind));
        }
        let count = bytes.len().min(self.piece).min(left);
        let start = self.count;
        self.count = start.saturating_add(count);
        if let Some(room) = self.kept.get_mut(start..self.count) {
            room.copy_from_slice(&bytes[..count]);
        }
        Ok(count)
    }

    fn flush(&mut self) -> io::Result<()> {
        let flush = self.flushes;
        self.flushes = flush.saturating_add(1);
        if flush == self.bad_flush || self.is_for_good && self.bad_flush < flush {
            return Err(io::Error::from(ErrorKind::BrokenPipe));
        }
        self.flushed.set(self.count);
        Ok(())
    }
}
