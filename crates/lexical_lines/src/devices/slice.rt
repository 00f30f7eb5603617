//! A source that reads a slice, and a sink that fills a buffer.

ghost use Rattle.std.specs.Prelude.{◌≡◌, ℕ, List, ◌+◌, ◌≤◌, false, ◌||◌, [], ◌++◌, Ok, None, Some, length};
ghost use Rattle.std.specs.Prelude.{take, drop, min, IfOk, IfSome, IfNone, ◌<◌, slice_get};
ghost use Rattle.lexical_lines.specs.Answer.{AnswersAll};
ghost use Rattle.lexical_lines.specs.Sink.{taken_by, put_failures, IsBeginning};
ghost use Rattle.lexical_lines.specs.Source.{yielded_by, reports_end, failures_of};
ghost use Rattle.lexical_write_integer.specs.Buffer.{Writes};

use crate::answer::line_loop::run;
use crate::devices::sink::{ByteSink, record_put};
use crate::devices::source::ByteSource;
use crate::devices::trace::Trace;
use std::io;
use std::marker::Model;

/// A source that yields the bytes of a slice and then the end. It never fails.
#[derive(Drop)]
pub struct SliceSource<'a> {
    bytes: &'a [u8],
    position: usize,
    is_ended: bool,
}

impl<'a> Model for SliceSource<'a> {
    ghost use Rattle.std.specs.Prelude.{◌≤◌, length, take, drop};
    ghost use Rattle.lexical_lines.specs.Slice.{SliceReading};

    ghost Value = { SliceReading };

    ghost view = { λ s. record {
      yielded = take s.position s.bytes.now;
      left = drop s.position s.bytes.now;
      is_ended = s.is_ended;
    } };

    ghost invariant = { λ s. s.position ≤ length s.bytes.now };
}

impl<'a> SliceSource<'a> {
    /// Returns a source that yields all of `bytes`.
    pub fn new(bytes: &'a [u8]) -> SliceSource<'a>
        ensures yielded { result.yielded ≡ [] }
        ensures left { result.left ≡ bytes.entry.now }
        ensures ended { result.is_ended ≡ false }
    {
        SliceSource {
            bytes,
            position: 0,
            is_ended: false,
        }
    }
}

impl ByteSource for SliceSource<'_> {
    ghost use Rattle.lexical_lines.specs.Slice.{KeepsSlice, KeepsSlice-reflexive, KeepsSlice-transitive};

    ghost yielded = { λ s. s.yielded };

    ghost is_ended = { λ s. s.is_ended };

    ghost failures = { λ _. 0 };

    ghost remaining = { λ s. length s.left };

    ghost keeps = { KeepsSlice };

    ghost keeps_reflexive = { KeepsSlice-reflexive };

    ghost keeps_transitive = { KeepsSlice-transitive };

    /// Returns the next byte, or `None` at the end of the slice.
    fn next(&mut self) -> io::Result<Option<u8>>
        ensures yielded { self.new.yielded ≡ self.old.yielded ++ yielded_by result }
        ensures ended { self.new.is_ended ≡ (self.old.is_ended || reports_end result) }
        ensures failures { 0 ≡ 0 + failures_of result }
        ensures remaining { length self.new.left + length (yielded_by result) ≤ length self.old.left }
        ensures kept { KeepsSlice self.old self.new }
        ensures exact { result ≡ Ok (slice_get self.old.left 0) }
        ensures left { self.new.left ≡ drop 1 self.old.left }
    {
        if self.position < self.bytes.len() {
            let byte = self.bytes[self.position];
            self.position += 1;
            Ok(Some(byte))
        } else {
            self.is_ended = true;
            Ok(None)
        }
    }
}

/// A sink that fills a buffer from its start. It fails if the buffer is full.
#[derive(Drop)]
pub struct SliceSink<'a> {
    buffer: &'a mut [u8],
    count: usize,
    trace: Trace,
    ghost in_range: { count ≤ length buffer.now },
}

impl<'a> SliceSink<'a> {
    ghost use Rattle.std.specs.Prelude.{◌≡◌, [], length};
    ghost use Rattle.lexical_lines.specs.Slice.{taken_in, rest_in, failures_in, loan_in};

    /// Returns a sink that has taken no bytes and fills `buffer` from its start.
    pub fn new(buffer: &'a mut [u8]) -> SliceSink<'a>
        ensures taken { taken_in result ≡ [] }
        ensures rest { rest_in result ≡ buffer.entry.now }
        ensures failures { failures_in result ≡ 0 }
        ensures loan { loan_in result ≡ buffer.entry.ghost_name }
    {
        SliceSink {
            buffer,
            count: 0,
            trace: Trace::new(),
        }
    }

    /// Returns the number of bytes that the sink has taken.
    pub fn len(&self) -> usize
        ensures { result ≡ length (taken_in self.now) }
    {
        self.count
    }
}

impl ByteSink for SliceSink<'_> {
    ghost use Rattle.std.specs.Prelude.{◌≡◌, ◌≤◌, ◌+◌, ◌++◌, Ok, length, take, min, IfOk};
    ghost use Rattle.lexical_lines.specs.Sink.{taken_by, put_failures};
    ghost use Rattle.lexical_lines.specs.Slice.{taken_in, rest_in, failures_in, KeepsBuffer};
    ghost use Rattle.lexical_lines.specs.Slice.{KeepsBuffer-reflexive, KeepsBuffer-transitive};

    ghost taken = { taken_in };

    ghost failures = { failures_in };

    ghost keeps = { KeepsBuffer };

    ghost keeps_reflexive = { KeepsBuffer-reflexive };

    ghost keeps_transitive = { KeepsBuffer-transitive };

    /// Takes the bytes that fit into the rest of the buffer, and returns their number.
    fn put(&mut self, bytes: &[u8]) -> io::Result<usize>
        ensures within { IfOk result (λ count. count ≤ length bytes.now) }
        ensures taken { taken_in self.new ≡ taken_in self.old ++ take (taken_by result) bytes.now }
        ensures failures { failures_in self.new ≡ failures_in self.old + put_failures result bytes.now }
        ensures kept { KeepsBuffer self.old self.new }
        ensures exact { result ≡ Ok (min (length bytes.now) (length (rest_in self.old))) }
    {
        let count = bytes.len().min(self.buffer.len() - self.count);
        let end = self.count + count;
        self.buffer[self.count..end].copy_from_slice(&bytes[..count]);
        self.count = end;
        let outcome = Ok(count);
        record_put(&mut self.trace, bytes, &outcome);
        outcome
    }
}

/// Writes the answers to all lines of `input` to the start of `buffer`, and returns their length in
/// bytes. The bytes after the answers are unchanged. Returns `None` if the answers do not fit; the
/// buffer is then full, with a prefix of the answers.
pub fn answer_slice(input: &[u8], buffer: &mut [u8]) -> Option<usize>
    ensures answered { IfSome result (λ count.
        Writes (AnswersAll input.now) buffer.old buffer.new count) }
    ensures full { IfNone result ((text : List ℕ) → AnswersAll input.now text
        → IsBeginning buffer.new text) }
{
    let mut source = SliceSource::new(input);
    let mut sink = SliceSink::new(buffer);
    match run(&mut source, &mut sink) {
        Ok(_) => Some(sink.len()),
        Err(_) => None,
    }
}
