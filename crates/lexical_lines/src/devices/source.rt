//! Traits for devices that bytes are read from.

ghost use Rattle.std.specs.Prelude.{◌≡◌, ℕ, ◌+◌, ◌≤◌, Bool, ◌||◌, List, ◌++◌, length, take, Option, IfOk};
ghost use Rattle.std.specs.Io.KnownBytes.{ReadConsumes};
ghost use Rattle.lexical_lines.specs.Sink.{taken_by};
ghost use Rattle.lexical_lines.specs.Source.{yielded_by, reports_end, reads_end, failures_of};

use std::io;

/// A device that bytes are read from, one at a time. A call may fail.
pub trait ByteSource {
    // The bytes yielded so far.
    ghost yielded: { Self → List ℕ };

    // Whether the source has reported its end.
    ghost is_ended: { Self → Bool };

    // The number of failures so far.
    ghost failures: { Self → ℕ };

    // The number of bytes that the source may still yield.
    ghost remaining: { Self → ℕ };

    // What calls leave unchanged, as a relation between the states before and after any calls.
    ghost keeps: { Self → Self → Type 0 };

    /// Returns the next byte, or `None` at the end; only `None` reports the end.
    ///
    /// # Errors
    ///
    /// An error of the device, which is a failure and yields no byte. Nothing else is a failure.
    fn next(&mut self) -> io::Result<Option<u8>>
        ensures yielded { yielded self.new ≡ yielded self.old ++ yielded_by result }
        ensures ended { is_ended self.new ≡ (is_ended self.old || reports_end result) }
        ensures failures { failures self.new ≡ failures self.old + failures_of result }
        ensures remaining { remaining self.new + length (yielded_by result) ≤ remaining self.old }
        ensures kept { keeps self.old self.new };

    ghost keeps_reflexive: { (a : Self) → keeps a a };

    ghost keeps_transitive: { (a b c : Self) → keeps a b → keeps b c → keeps a c };
}

/// A source that also yields bytes in blocks.
pub trait BlockSource: ByteSource {
    // The bytes that the source will yield, if they are known.
    ghost unread: { Self → Option (List ℕ) };

    /// Reads bytes to the start of `block`, which must not be empty, and returns their number; only
    /// `Ok(0)` reports the end.
    ///
    /// # Errors
    ///
    /// An error of the device, which is a failure and yields no bytes. Nothing else is a failure.
    ///
    /// # Not checked
    ///
    /// Rust does not check that the block is not empty. Otherwise the call returns 0, as at the end of the input.
    fn read_block(&mut self, block: &mut [u8]) -> io::Result<usize>
        requires { 1 ≤ length block.old }
        ensures within { IfOk result (λ count. count ≤ length block.new) }
        ensures yielded { Self.yielded self.new ≡ Self.yielded self.old ++ take (taken_by result) block.new }
        ensures ended { Self.is_ended self.new ≡ (Self.is_ended self.old || reads_end result) }
        ensures remaining { Self.remaining self.new + taken_by result ≡ Self.remaining self.old }
        ensures failures { Self.failures self.new ≡ Self.failures self.old + failures_of result }
        ensures kept { Self.keeps self.old self.new }
        ensures bytes { ReadConsumes (unread self.old) (unread self.new) result block.new };
}
