//! A list of numbers that only contracts read.

ghost use Rattle.std.specs.Prelude.{◌≡◌, ℕ, List, [], ◌∷◌, ◌++◌};

use std::marker::{Model, PhantomData};
use std::mem::size_of;

/// A list of numbers that only contracts see. It has no maximum length, and no data at run time. `Turns` of
/// `lexical_write_integer` and `Trace` of `lexical_lines` keep what they record in such lists.
#[derive(Drop)]
pub struct GhostLog {
    marker: PhantomData<()>,
    ghost notes: { List ℕ },
}

impl Model for GhostLog {
    ghost use Rattle.std.specs.Prelude.{ℕ, List};
    ghost use Rattle.std.specs.Borrow.{ftrue};

    ghost Value = { List ℕ };

    ghost view = { λ l. l.notes };

    ghost also_owns = { λ _. ftrue };
}

const _: () = prove!(size_of::<GhostLog>() == 0);

impl GhostLog {
    /// Returns an empty log.
    pub fn new() -> GhostLog
        ensures { result ≡ [] }
    {
        GhostLog {
            marker: PhantomData,
        }
    }

    /// Appends a number. It does nothing at run time.
    pub fn tick(&mut self, note: u64)
        ensures { self.new ≡ self.old ++ note ∷ [] }
    {}

    /// Appends the numbers of another log. It does nothing at run time.
    pub fn append(&mut self, other: &GhostLog)
        ensures { self.new ≡ self.old ++ other.now }
    {}

    /// Appends bytes. It does nothing at run time.
    pub fn extend(&mut self, bytes: &[u8])
        ensures { self.new ≡ self.old ++ bytes.now }
    {}
}
