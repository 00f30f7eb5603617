//! Traits for devices that bytes are written to.

ghost use Rattle.std.specs.Prelude.{◌≡◌, ℕ, ◌+◌, ◌<◌, ◌≤◌, List, [], ◌++◌, length, take, Option, IfOk, OnOk, OnErr};
ghost use Rattle.std.specs.Io.KnownBytes.{Keeps};
ghost use Rattle.lexical_lines.specs.Puts.{PutsOnly};
ghost use Rattle.lexical_lines.specs.Sink.{taken_by, put_failures};
ghost use Rattle.lexical_lines.specs.Source.{failures_of};

use crate::devices::trace::Trace;
use std::io;

/// A device that bytes are written to. A call may take only some of the bytes, and may fail.
pub trait ByteSink {
    // The bytes taken so far.
    ghost taken: { Self → List ℕ };

    // The number of failures so far.
    ghost failures: { Self → ℕ };

    // What calls leave unchanged, as a relation between the states before and after any calls.
    ghost keeps: { Self → Self → Type 0 };

    /// Takes a prefix of `bytes`, and returns its length. An `Err` is a failure, and so is `Ok(0)` if
    /// `bytes` is not empty; nothing else is a failure.
    ///
    /// # Errors
    ///
    /// An error of the device. Then no bytes were taken.
    fn put(&mut self, bytes: &[u8]) -> io::Result<usize>
        ensures within { IfOk result (λ count. count ≤ length bytes.now) }
        ensures taken { taken self.new ≡ taken self.old ++ take (taken_by result) bytes.now }
        ensures failures { failures self.new ≡ failures self.old + put_failures result bytes.now }
        ensures kept { keeps self.old self.new };

    ghost keeps_reflexive: { (a : Self) → keeps a a };

    ghost keeps_transitive: { (a b c : Self) → keeps a b → keeps b c → keeps a c };
}

/// A sink that can be flushed.
pub trait BlockSink: ByteSink {
    // The bytes that the sink contains, if they are known.
    ghost contents: { Self → Option (List ℕ) };

    // The bytes taken since the last flush that succeeded.
    ghost unflushed: { Self → List ℕ };

    // The number of flushes that succeeded.
    ghost flushes: { Self → ℕ };

    /// Passes the bytes taken on to where they are read, if the sink has a buffer of its own.
    ///
    /// # Errors
    ///
    /// An error of the device, which is a failure.
    fn flush(&mut self) -> io::Result<()>
        ensures ok { OnOk result (unflushed self.new ≡ []) }
        ensures taken { Self.taken self.new ≡ Self.taken self.old }
        ensures flushes { flushes self.new + failures_of result ≡ flushes self.old + 1 }
        ensures failures { Self.failures self.new ≡ Self.failures self.old + failures_of result }
        ensures bytes { Keeps (contents self.old) (contents self.new) };

    // What calls of `put` do.
    ghost keeps_puts: { (a b : Self) → Self.keeps a b → PutsOnly Self.taken unflushed contents flushes a b };
}

/// Writes all bytes to the sink, and stops at its first failure. Returns how many bytes the sink has
/// taken, and an error if it failed.
pub fn put_all<K: ByteSink>(sink: &mut K, bytes: &[u8]) -> (usize, io::Result<()>)
    ensures ok { OnOk result.1 (result.0 ≡ length bytes.now) }
    // The error is not named.
    ensures err { OnErr result.1 (result.0 < length bytes.now) }
    ensures taken { K.taken sink.new ≡ K.taken sink.old ++ take result.0 bytes.now }
    ensures failures { K.failures sink.new ≡ K.failures sink.old + failures_of result.1 }
    ensures kept { K.keeps sink.old sink.new }
{
    let mut taken = 0;
    while taken < bytes.len() {
        match sink.put(&bytes[taken..]) {
            Ok(0) => return (taken, Err(io::Error::from(io::ErrorKind::WriteZero))),
            Ok(count) => taken += count,
            Err(error) => return (taken, Err(error)),
        }
    }
    (taken, Ok(()))
}

/// Records the outcome of a call of `put` in the trace: the bytes that the sink took, or its failure.
pub fn record_put(trace: &mut Trace, bytes: &[u8], outcome: &io::Result<usize>)
    requires { IfOk outcome.now (λ count. count ≤ length bytes.now) }
    ensures { trace.new ≡ record trace.old {
      bytes = trace.old.bytes ++ take (taken_by outcome.now) bytes.now;
      unflushed = trace.old.unflushed ++ take (taken_by outcome.now) bytes.now;
      failures = trace.old.failures + put_failures outcome.now bytes.now;
    } }
{
    match outcome {
        Ok(0) if bytes.is_empty() => {}
        Ok(0) | Err(_) => trace.fault(),
        Ok(count) => trace.note(&bytes[..*count]),
    }
}

/// Records the outcome of a flush in the trace.
pub fn record_flush(trace: &mut Trace, outcome: &io::Result<()>)
    ensures ok { OnOk outcome.now (trace.new.unflushed ≡ []) }
    ensures bytes { trace.new.bytes ≡ trace.old.bytes }
    ensures flushes { trace.new.flushes + failures_of outcome.now ≡ trace.old.flushes + 1 }
    ensures failures { trace.new.failures ≡ trace.old.failures + failures_of outcome.now }
{
    match outcome {
        Ok(()) => trace.flush(),
        Err(_) => trace.fault(),
    }
}
