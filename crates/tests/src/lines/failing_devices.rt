//! A source and a sink that fail, with their own implementations of the traits of `lexical_lines`.

ghost use Rattle.std.specs.Prelude.{◌≡◌, ℕ, ◌+◌, ◌-◌, ◌≤◌, ◌||◌, ◌++◌, IfOk, length, take, ⊤};
ghost use Rattle.lexical_lines.specs.Sink.{taken_by, put_failures};
ghost use Rattle.lexical_lines.specs.Source.{yielded_by, reports_end, failures_of};

use crate::lines::devices::NEVER;
use lexical_lines::{ByteSink, ByteSource, Trace};
use std::io;
use std::io::ErrorKind;

/// A source that yields the bytes of a slice. One of its calls fails, and the next one continues.
#[derive(Drop)]
pub struct FailingSource<'a> {
    bytes: &'a [u8],
    // The number of calls before the one that fails, and its error.
    good_calls: usize,
    kind: ErrorKind,
    is_ended: bool,
    trace: Trace,
}

impl<'a> FailingSource<'a> {
    pub fn new(bytes: &'a [u8], good_calls: usize, kind: ErrorKind) -> FailingSource<'a> {
        FailingSource {
            bytes,
            good_calls,
            kind,
            is_ended: false,
            trace: Trace::new(),
        }
    }

    // Returns whether this call is the one that fails.
    fn is_bad_call(&mut self) -> bool
        ensures bytes { self.new.bytes ≡ self.old.bytes }
        ensures ended { self.new.is_ended ≡ self.old.is_ended }
        ensures trace { self.new.trace ≡ self.old.trace }
    {
        let is_bad = self.good_calls == 0;
        self.good_calls = if is_bad { NEVER } else { self.good_calls - 1 };
        is_bad
    }
}

impl ByteSource for FailingSource<'_> {
    ghost yielded = { λ s. s.trace.bytes };

    ghost is_ended = { λ s. s.is_ended };

    ghost failures = { λ s. s.trace.failures };

    ghost remaining = { λ s. length s.bytes.now };

    ghost keeps = { λ _ _. ⊤ };

    ghost keeps_reflexive = { λ _. tt };

    ghost keeps_transitive = { λ _ _ _ _ _. tt };

    fn next(&mut self) -> io::Result<Option<u8>> {
        if self.is_bad_call() {
            self.trace.fault();
            return Err(io::Error::from(self.kind));
        }
        if self.bytes.is_empty() {
            self.is_ended = true;
            return Ok(None);
        }
        let byte = self.bytes[0];
        self.bytes = &self.bytes[1..];
        self.trace.note(&[byte]);
        Ok(Some(byte))
    }
}

/// A sink that fills a buffer from its start. If a call is passed bytes after `good_bytes` bytes, it fails.
#[derive(Drop)]
pub struct FailingSink<'a> {
    buffer: &'a mut [u8],
    count: usize,
    // The largest number of bytes that a call takes.
    piece: usize,
    good_bytes: usize,
    // If the error is `WriteZero`, a call that fails returns 0 instead.
    kind: ErrorKind,
    trace: Trace,
    ghost within: { count ≤ length buffer.now },
}

impl<'a> FailingSink<'a> {
    pub fn new(
        buffer: &'a mut [u8],
        piece: usize,
        good_bytes: usize,
        kind: ErrorKind,
    ) -> FailingSink<'a> {
        FailingSink {
            buffer,
            count: 0,
            piece,
            good_bytes,
            kind,
            trace: Trace::new(),
        }
    }

    /// Returns the number of bytes that the sink has taken.
    pub fn len(&self) -> usize {
        self.count
    }

    // Returns how many bytes of `wanted` a call takes.
    fn room_for(&self, wanted: usize) -> usize
        ensures wanted { result ≤ wanted }
        ensures room { result ≤ length self.now.buffer.now - self.now.count }
    {
        let room = self.buffer.len() - self.count;
        let valid = self.good_bytes.saturating_sub(self.count);
        wanted.min(self.piece).min(room).min(valid)
    }
}

impl ByteSink for FailingSink<'_> {
    ghost taken = { λ s. s.trace.bytes };

    ghost failures = { λ s. s.trace.failures };

    ghost keeps = { λ _ _. ⊤ };

    ghost keeps_reflexive = { λ _. tt };

    ghost keeps_transitive = { λ _ _ _ _ _. tt };

    fn put(&mut self, bytes: &[u8]) -> io::Result<usize> {
        if bytes.is_empty() {
            return Ok(0);
        }
        let count = self.room_for(bytes.len());
        if count == 0 {
            self.trace.fault();
            return if self.kind == ErrorKind::WriteZero {
                Ok(0)
            } else {
                Err(io::Error::from(self.kind))
            };
        }
        let end = self.count + count;
        self.buffer[self.count..end].copy_from_slice(&bytes[..count]);
        self.count = end;
        self.trace.note(&bytes[..count]);
        Ok(count)
    }
}
