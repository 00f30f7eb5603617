//! Keeps the last lines of a log in a block of bytes.

ghost use Rattle.std.specs.Prelude.{◌≤◌, ◌<◌, pos, take};
ghost use Rattle.lexical_write_integer.specs.Sequence.{IsExactly};
ghost use Rattle.lexical_write_integer.specs.Text.{IsDigits};
ghost use Rattle.lexical_parts.specs.Sequence.{◌then◌, IsDecimal, IsStr};

use lexical_parts::{Hex, Part};

/// A block of bytes, of which the first `used` are lines.
#[derive(Drop)]
pub struct LineBlock {
    /// The bytes.
    pub bytes: [u8; 256],
    /// How many bytes are used.
    pub used: usize,
    ghost inside: { used ≤ 256 },
}

impl LineBlock {
    /// Adds a line with a number and flags after the lines of the block. If it has no room for that, its lines are
    /// dropped before.
    pub fn add(&mut self, number: u32, flags: u16)
        ensures kept { self.old.used ≤ 238 → (IsExactly (take self.old.used self.old.bytes)
            then (IsDecimal (pos number) then IsStr " 0x" then IsDigits 16 flags then IsStr "\n"))
            (take self.new.used self.new.bytes) }
        ensures dropped { 238 < self.old.used → (IsDecimal (pos number) then IsStr " 0x" then IsDigits 16 flags
            then IsStr "\n") (take self.new.used self.new.bytes) }
    {
        let start = if self.used + 18 <= 256 { self.used } else { 0 };
        self.used = (number, " 0x", Hex(flags), "\n").write_at(start, &mut self.bytes);
    }
}
