//! A writer that collects bytes in a block.

ghost use Rattle.std.specs.Prelude.{◌≡◌, ◌+◌, ◌-◌, ◌<◌, ◌≤◌, min, [], ◌++◌, length, take, Ok, IfOk, OnOk};
ghost use Rattle.lexical_lines.specs.Sink.{taken_by, put_failures};
ghost use Rattle.lexical_lines.specs.Source.{failures_of};
ghost use Rattle.lexical_lines.specs.BlockWriter.{taken, TakesMore, IsFlushed};

use crate::devices::sink::{BlockSink, ByteSink, put_all};
use std::io;
use std::marker::Model;

/// Collects bytes in a block of `SIZE` bytes. It writes the block to a sink at each flush, and if the
/// block is full, before it takes more bytes.
///
/// Each byte is written once and in order, even if an earlier write returned an error. After a flush
/// that succeeds, the block is empty, and the sink is flushed too. The bytes in the block are lost if the
/// value is dropped, so call `flush` last. The block is part of the value: no memory is allocated.
#[derive(Drop)]
pub struct BlockWriter<K: BlockSink, const SIZE: usize> {
    sink: K,
    // The bytes before `end` were taken but are not yet written.
    block: [u8; SIZE],
    end: usize,
}

impl<K: BlockSink, const SIZE: usize> Model for BlockWriter<K, SIZE> {
    ghost use Rattle.std.specs.Prelude.{◌<◌, ◌≤◌, take};
    ghost use Rattle.lexical_lines.specs.BlockWriter.{BlockWriting};

    ghost Value = { BlockWriting };

    ghost view = { λ w. record {
      contents = K.contents w.sink;
      written = K.taken w.sink;
      unflushed = K.unflushed w.sink;
      held = take w.end w.block;
      flushes = K.flushes w.sink;
      failures = K.failures w.sink;
    } };

    ghost invariant = { λ w. (0 < SIZE) × (w.end ≤ SIZE) };
}

impl<K: BlockSink, const SIZE: usize> BlockWriter<K, SIZE> {
    /// Returns a writer with an empty block. `SIZE` must not be 0.
    ///
    /// # Panics
    ///
    /// If `SIZE` is 0.
    pub fn new(sink: K) -> BlockWriter<K, SIZE>
        requires { 0 < SIZE }
        ensures { result ≡ record {
          contents = K.contents sink;
          written = K.taken sink;
          unflushed = K.unflushed sink;
          held = [];
          flushes = K.flushes sink;
          failures = K.failures sink;
        } }
    {
        prove!(0 < SIZE);
        BlockWriter {
            sink,
            block: [0; SIZE],
            end: 0,
        }
    }

    /// Returns the sink. The bytes that are still in the block are lost.
    pub fn into_inner(self) -> K
        ensures contents { K.contents result ≡ self.contents }
        ensures taken { K.taken result ≡ self.written }
    {
        let BlockWriter {
            sink,
            block: _,
            end: _,
        } = self;
        sink
    }

    /// Writes the bytes in the block to the sink, and then flushes the sink once.
    ///
    /// # Errors
    ///
    /// An error of the sink. The bytes that were not written are still in the block, and nothing is called
    /// after the call that failed.
    pub fn flush(&mut self) -> io::Result<()>
        ensures ok { OnOk result (IsFlushed self.new) }
        ensures flushes { self.new.flushes + failures_of result ≡ self.old.flushes + 1 }
        ensures taken { taken self.new ≡ taken self.old }
        ensures kept { TakesMore self.old self.new }
        ensures failures { self.new.failures ≡ self.old.failures + failures_of result }
    {
        self.write_block()?;
        self.sink.flush()
    }

    // Writes the bytes in the block to the sink. After an error, the bytes that were not written are still
    // in the block.
    fn write_block(&mut self) -> io::Result<()>
        ensures ok { OnOk result (self.new.held ≡ []) }
        ensures flushes { self.new.flushes ≡ self.old.flushes }
        ensures taken { taken self.new ≡ taken self.old }
        ensures kept { TakesMore self.old self.new }
        ensures failures { self.new.failures ≡ self.old.failures + failures_of result }
    {
        let (count, result) = put_all(&mut self.sink, &self.block[..self.end]);
        self.block.copy_within(count..self.end, 0);
        self.end -= count;
        result
    }

    // Copies the prefix of `bytes` that fits into the block, and returns its length.
    fn fill_block(&mut self, bytes: &[u8]) -> usize
        ensures count { result ≡ min (length bytes.now) (SIZE - length self.old.held) }
        ensures held { self.new ≡ record self.old { held = self.old.held ++ take result bytes.now } }
    {
        let end = self.end;
        let count = bytes.len().min(SIZE - end);
        let block = &mut self.block[..];
        block[end..end + count].copy_from_slice(&bytes[..count]);
        self.end = end + count;
        count
    }
}

impl<K: BlockSink, const SIZE: usize> ByteSink for BlockWriter<K, SIZE> {
    ghost use Rattle.lexical_lines.specs.BlockWriter.{taken, TakesMore};
    ghost use Rattle.lexical_lines.specs.BlockWriter.{TakesMore-reflexive, TakesMore-transitive};

    ghost taken = { taken };

    ghost failures = { λ w. w.failures };

    ghost keeps = { TakesMore };

    ghost keeps_reflexive = { TakesMore-reflexive };

    ghost keeps_transitive = { TakesMore-transitive };

    /// Takes the prefix of `bytes` that fits into the block, and returns its length. The sink is called
    /// only if the block is full, and is not flushed.
    fn put(&mut self, bytes: &[u8]) -> io::Result<usize>
        ensures within { IfOk result (λ count. count ≤ length bytes.now) }
        ensures taken { taken self.new ≡ taken self.old ++ take (taken_by result) bytes.now }
        ensures failures { self.new.failures ≡ self.old.failures + put_failures result bytes.now }
        ensures kept { TakesMore self.old self.new }
        ensures flushes { self.new.flushes ≡ self.old.flushes }
        ensures count { length self.old.held < SIZE
            → result ≡ Ok (min (length bytes.now) (SIZE - length self.old.held)) }
        ensures held { length self.old.held < SIZE
            → self.new ≡ record self.old { held = self.old.held ++ take (taken_by result) bytes.now } }
        ensures full_count { length self.old.held ≡ SIZE
            → IfOk result (λ count. count ≡ min (length bytes.now) SIZE) }
        ensures full_held { length self.old.held ≡ SIZE
            → OnOk result (self.new.held ≡ take (taken_by result) bytes.now) }
    {
        if self.end == SIZE {
            self.write_block()?;
        }
        Ok(self.fill_block(bytes))
    }
}
