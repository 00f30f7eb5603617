//! A ghost record of the bytes and failures of a device.

ghost use Rattle.std.specs.Prelude.{◌≡◌, ℕ, ◌+◌, List, [], ◌++◌};

use lexical_num::ghost_log::GhostLog;
use std::marker::Model;
use std::mem::size_of;

/// A ghost record of the bytes that a device has yielded or taken so far, of those taken since its last
/// flush, and of the numbers of its flushes and its failures. Only contracts see it: at run
/// time a trace has no data, and its methods do nothing.
#[derive(Drop)]
pub struct Trace {
    bytes: GhostLog,
    unflushed: GhostLog,
    // One number for each flush or failure. Only their counts are read.
    flushes: GhostLog,
    failures: GhostLog,
}

impl Model for Trace {
    ghost use Rattle.std.specs.Prelude.{length};
    ghost use Rattle.lexical_lines.specs.Trace.{Traced};

    ghost Value = { Traced };

    ghost view = { λ t. record {
      bytes = t.bytes;
      unflushed = t.unflushed;
      flushes = length t.flushes;
      failures = length t.failures;
    } };
}

const _: () = prove!(size_of::<Trace>() == 0);

impl Trace {
    /// Returns a trace with no bytes, no flushes and no failures.
    pub fn new() -> Trace
        ensures { result ≡ record { bytes = []; unflushed = []; flushes = 0; failures = 0 } }
    {
        Trace {
            bytes: GhostLog::new(),
            unflushed: GhostLog::new(),
            flushes: GhostLog::new(),
            failures: GhostLog::new(),
        }
    }

    /// Appends bytes to the record. They are not flushed.
    pub fn note(&mut self, bytes: &[u8])
        ensures { self.new ≡ record self.old {
          bytes = self.old.bytes ++ bytes.now;
          unflushed = self.old.unflushed ++ bytes.now;
        } }
    {
        self.bytes.extend(bytes);
        self.unflushed.extend(bytes);
    }

    /// Adds 1 to the number of flushes: all bytes are flushed.
    pub fn flush(&mut self)
        ensures { self.new ≡ record self.old { unflushed = []; flushes = self.old.flushes + 1 } }
    {
        self.unflushed = GhostLog::new();
        self.flushes.tick(0);
    }

    /// Adds 1 to the number of failures.
    pub fn fault(&mut self)
        ensures { self.new ≡ record self.old { failures = self.old.failures + 1 } }
    {
        self.failures.tick(0);
    }
}
