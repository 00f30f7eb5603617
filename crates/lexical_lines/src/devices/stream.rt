//! A source that reads from a reader, and a sink that writes to a writer.

ghost use Rattle.std.specs.Prelude.{◌≡◌, ◌⊎◌, ◌+◌, ◌-◌, ◌^◌, ◌≤◌, true, false, ◌||◌, [], ◌++◌, Ok, None, length};
ghost use Rattle.std.specs.Prelude.{take, drop, IfOk};
ghost use Rattle.std.specs.Io.KnownBytes.{Consumes, IsAtEnd, ReadConsumes, WriteAppends};
ghost use Rattle.lexical_lines.specs.Sink.{taken_by, put_failures};
ghost use Rattle.lexical_lines.specs.Source.{yielded_by, reports_end, reads_end, failures_of};

use crate::devices::sink::{BlockSink, ByteSink, record_flush, record_put};
use crate::devices::source::{BlockSource, ByteSource};
use crate::devices::trace::Trace;
use std::io;
use std::io::{Read, Write};
use std::marker::Model;

// An offset in a file is a signed number of 64 bits, so every file is shorter than this.
const MOST_BYTES_READ: u64 = 9_223_372_036_854_775_807;

/// A source that yields the bytes of a reader, up to a limit.
#[derive(Drop)]
pub struct Reading<R> {
    reader: R,
    left: u64,
    is_ended: bool,
    trace: Trace,
}

impl<R> Model for Reading<R> {
    ghost use Rattle.lexical_lines.specs.Stream.{StreamReading};

    ghost Value = { StreamReading R };

    ghost view = { λ s. record {
      reader = s.reader;
      left = s.left;
      is_ended = s.is_ended;
      yielded = s.trace.bytes;
      failures = s.trace.failures;
    } };
}

impl<R: Read> Reading<R> {
    ghost use Rattle.lexical_lines.specs.Stream.{new_reading};

    /// Returns a source that reports the end after `limit` bytes, or earlier if the reader yields no
    /// byte.
    pub fn new(reader: R, limit: u64) -> Reading<R>
        ensures { result ≡ new_reading reader limit }
    {
        Reading {
            reader,
            left: limit,
            is_ended: false,
            trace: Trace::new(),
        }
    }

    /// Returns a source that yields all bytes of the reader: its limit is 2^63 - 1 bytes.
    pub fn whole(reader: R) -> Reading<R>
        ensures { result ≡ new_reading reader (2 ^ 63 - 1) }
    {
        Reading::new(reader, MOST_BYTES_READ)
    }
}

impl<R: Read> ByteSource for Reading<R> {
    ghost use Rattle.lexical_lines.specs.Stream.{KeepsReader, KeepsReader-reflexive, KeepsReader-transitive};

    ghost yielded = { λ s. s.yielded };

    ghost is_ended = { λ s. s.is_ended };

    ghost failures = { λ s. s.failures };

    ghost remaining = { λ s. s.left };

    ghost keeps = { KeepsReader R.remaining };

    ghost keeps_reflexive = { KeepsReader-reflexive R.remaining };

    ghost keeps_transitive = { KeepsReader-transitive R.remaining };

    /// Returns the next byte of the reader, or `None` at the limit or if the reader yields no byte.
    fn next(&mut self) -> io::Result<Option<u8>>
        ensures yielded { self.new.yielded ≡ self.old.yielded ++ yielded_by result }
        ensures ended { self.new.is_ended ≡ (self.old.is_ended || reports_end result) }
        ensures failures { self.new.failures ≡ self.old.failures + failures_of result }
        ensures remaining { self.new.left + length (yielded_by result) ≤ self.old.left }
        ensures kept { KeepsReader R.remaining self.old self.new }
        ensures bytes { Consumes (R.remaining self.old.reader) (R.remaining self.new.reader)
            (yielded_by result) }
        ensures end { result ≡ Ok None
            → (self.old.left ≡ 0) ⊎ IsAtEnd (R.remaining self.new.reader) }
        ensures left { self.new.left ≡ self.old.left - length (yielded_by result) }
        ensures limit { self.old.left ≡ 0 → result ≡ Ok None }
    {
        let mut byte = [0u8];
        match self.read_block(&mut byte) {
            Ok(0) => Ok(None),
            Ok(_) => Ok(Some(byte[0])),
            Err(error) => Err(error),
        }
    }
}

impl<R: Read> BlockSource for Reading<R> {
    ghost use Rattle.lexical_lines.specs.Stream.{KeepsReader, unread_of};

    ghost unread = { unread_of R.remaining };

    /// Reads at most as many bytes as the limit leaves. At the limit, the reader is not called.
    fn read_block(&mut self, block: &mut [u8]) -> io::Result<usize>
        requires { 1 ≤ length block.old }
        ensures within { IfOk result (λ count. count ≤ length block.new) }
        ensures yielded { self.new.yielded ≡ self.old.yielded ++ take (taken_by result) block.new }
        ensures ended { self.new.is_ended ≡ (self.old.is_ended || reads_end result) }
        ensures remaining { self.new.left + taken_by result ≡ self.old.left }
        ensures failures { self.new.failures ≡ self.old.failures + failures_of result }
        ensures kept { KeepsReader R.remaining self.old self.new }
        ensures bytes { ReadConsumes (unread_of R.remaining self.old) (unread_of R.remaining self.new)
            result block.new }
        ensures limit { self.old.left ≡ 0 → result ≡ Ok 0 }
    {
        if self.left == 0 {
            self.is_ended = true;
            return Ok(0);
        }
        let size = self.left.min(block.len() as u64) as usize;
        match self.reader.read(&mut block[..size]) {
            Ok(count) => {
                self.is_ended |= count == 0;
                self.left -= count as u64;
                self.trace.note(&block[..count]);
                Ok(count)
            }
            Err(error) => {
                self.trace.fault();
                Err(error)
            }
        }
    }
}

/// A sink that writes to a writer.
#[derive(Drop)]
pub struct Writing<W> {
    writer: W,
    trace: Trace,
}

impl<W> Model for Writing<W> {
    ghost use Rattle.lexical_lines.specs.Stream.{StreamWriting};

    ghost Value = { StreamWriting W };

    ghost view = { λ s. record {
      writer = s.writer;
      taken = s.trace.bytes;
      unflushed = s.trace.unflushed;
      flushes = s.trace.flushes;
      failures = s.trace.failures;
    } };
}

impl<W: Write> Writing<W> {
    /// Returns a sink that has taken no bytes and writes to `writer`.
    pub fn new(writer: W) -> Writing<W>
        ensures { result ≡ record { writer = writer; taken = []; unflushed = []; flushes = 0; failures = 0 } }
    {
        Writing {
            writer,
            trace: Trace::new(),
        }
    }

    /// Returns the writer.
    pub fn into_inner(self) -> W
        ensures { result ≡ self.writer }
    {
        let Writing { writer, trace } = self;
        drop(trace);
        writer
    }
}

impl<W: Write> ByteSink for Writing<W> {
    ghost use Rattle.lexical_lines.specs.Puts.{PutsOnly-reflexive, PutsOnly-transitive};
    ghost use Rattle.lexical_lines.specs.Stream.{KeepsWriter};

    ghost taken = { λ s. s.taken };

    ghost failures = { λ s. s.failures };

    ghost keeps = { KeepsWriter W.contents };

    ghost keeps_reflexive = { PutsOnly-reflexive };

    ghost keeps_transitive = { PutsOnly-transitive };

    /// Passes `bytes` to the writer, and returns how many of them the writer has written.
    fn put(&mut self, bytes: &[u8]) -> io::Result<usize>
        ensures within { IfOk result (λ count. count ≤ length bytes.now) }
        ensures taken { self.new.taken ≡ self.old.taken ++ take (taken_by result) bytes.now }
        ensures failures { self.new.failures ≡ self.old.failures + put_failures result bytes.now }
        ensures kept { KeepsWriter W.contents self.old self.new }
        ensures bytes { WriteAppends (W.contents self.old.writer) (W.contents self.new.writer)
            result bytes.now }
    {
        let outcome = self.writer.write(bytes);
        record_put(&mut self.trace, bytes, &outcome);
        outcome
    }
}

impl<W: Write> BlockSink for Writing<W> {
    ghost contents = { λ s. W.contents s.writer };

    ghost unflushed = { λ s. s.unflushed };

    ghost flushes = { λ s. s.flushes };

    ghost keeps_puts = { λ a b kept. kept };

    /// Calls `flush` of the writer.
    fn flush(&mut self) -> io::Result<()> {
        let outcome = self.writer.flush();
        record_flush(&mut self.trace, &outcome);
        outcome
    }
}
