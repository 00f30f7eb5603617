//! A buffer for the line that is being read.

ghost use Rattle.std.specs.Prelude.{◌≡◌, ℕ, ◌≤◌, List, [], ◌++◌, ◌↔◌, take, Option, Some, None, IsTrue};
ghost use Rattle.std.specs.Prelude.{if◌then◌else◌, nat_le, IfSome, length};
ghost use Rattle.lexical_lines.specs.Line.{short_line, bytes_of};

use std::marker::Model;

/// The maximum length of a valid line in bytes.
pub const MAX_LENGTH: usize = 64;

/// A line of at most `MAX_LENGTH` bytes, or a line that is too long, whose bytes are not kept.
#[derive(Drop)]
pub struct Line {
    bytes: [u8; MAX_LENGTH],
    // The length of the line, or 65 if the line is too long.
    count: usize,
}

impl Model for Line {
    ghost Value = { Option (List ℕ) };

    ghost view = { λ l. if nat_le l.count 64 then Some (take l.count l.bytes) else None };

    ghost invariant = { λ l. l.count ≤ 65 };
}

impl Line {
    /// Returns an empty line.
    pub fn new() -> Line
        ensures { result ≡ short_line [] }
    {
        Line {
            bytes: [0; MAX_LENGTH],
            count: 0,
        }
    }

    /// Removes all bytes, so that a new line begins.
    pub fn clear(&mut self)
        ensures { self.new ≡ short_line [] }
    {
        self.count = 0;
    }

    /// Appends bytes to the line.
    pub fn push_all(&mut self, bytes: &[u8])
        ensures { (line : List ℕ) → self.old ≡ short_line line → self.new ≡ short_line (line ++ bytes.now) }
    {
        let count = self.count;
        if count <= MAX_LENGTH && bytes.len() <= MAX_LENGTH - count {
            let all = &mut self.bytes[..];
            all[count..count + bytes.len()].copy_from_slice(bytes);
            self.count = count + bytes.len();
        } else {
            self.count = MAX_LENGTH + 1;
        }
    }

    /// Returns whether the line has no bytes.
    pub fn is_empty(&self) -> bool
        ensures { IsTrue result ↔ (self.now ≡ short_line []) }
    {
        self.count == 0
    }

    /// Takes the last bytes of the line, and returns the line, or `None` if it is longer than 64 bytes. A line that
    /// arrives whole is not copied.
    pub fn ended_with<'a>(&'a mut self, tail: &'a [u8]) -> Option<&'a [u8]>
        ensures value { (line : List ℕ) → self.old ≡ short_line line
            → bytes_of result ≡ short_line (line ++ tail.now) }
        ensures at_most { IfSome result (λ bytes. length bytes.now ≤ 64) }
    {
        if self.is_empty() && tail.len() <= MAX_LENGTH {
            return Some(tail);
        }
        self.push_all(tail);
        self.as_slice()
    }

    // Returns the bytes of the line, or `None` if the line is longer than 64 bytes.
    fn as_slice(&self) -> Option<&[u8]>
        ensures value { bytes_of result ≡ self.now }
        ensures at_most { IfSome result (λ bytes. length bytes.now ≤ 64) }
    {
        if self.count <= MAX_LENGTH {
            Some(&self.bytes[..self.count])
        } else {
            None
        }
    }
}
