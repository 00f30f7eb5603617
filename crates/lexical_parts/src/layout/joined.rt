//! The parts of a slice, with a separator between adjacent parts.

ghost use Rattle.std.specs.Prelude.{◌≡◌, [], IsTrue, ◌+◌, ◌*◌, ◌≤◌, All, length, sum_by};
ghost use Rattle.lexical_write_integer.specs.Buffer.{Writes};
ghost use Rattle.lexical_write_integer.specs.Sequence.{AreJoined, IsExactly};
ghost use Rattle.lexical_parts.specs.Joined.{joined_room, joined_text, lead};
ghost use Rattle.lexical_parts.specs.Sequence.{◌then◌};
ghost use Rattle.lexical_parts.specs.Utf8.{AreUtf8};

use crate::part::Part;
use crate::sealed::Sealed;
use crate::show::Show;
use crate::texts::strings::str_is_utf8;
use std::fmt;

// Returns what precedes the part at the index.
pub(crate) fn separator_before(index: usize, separator: &str) -> &str
    ensures { result.now ≡ lead index separator.now }
{
    if index == 0 { "" } else { separator }
}

// Writes what precedes the part at the index, which is nothing before the first part and otherwise the separator, and
// then the part. Returns their length.
#[tactic(auto, using(lexical_write_integer::proofs::OfTexts::Sequences::written_then))]
pub(crate) fn write_next<P: Part>(
    index: usize,
    separator: &str,
    part: P,
    buffer: &mut [u8],
) -> usize
    requires valid { P.is_valid part }
    requires room { length (lead index separator.now) + P.room part ≤ length buffer.old }
    ensures text { Writes (IsExactly (lead index separator.now) then P.is_text part)
        buffer.old buffer.new result }
    ensures at_most { result ≤ length (lead index separator.now) + P.room part }
    ensures utf8 { P.is_utf8 part → AreUtf8 (P.is_text part) }
{
    // A branch, since a copy of a length that is not known is a call of memcpy.
    if index == 0 {
        part.write_to(buffer)
    } else {
        let start = separator.write_to(buffer);
        start + part.write_to(&mut buffer[start..])
    }
}

/// The parts of a slice, with a separator between adjacent parts: `Joined(&[-1, 20], ", ")` writes `-1, 20`.
///
/// An array of other values becomes parts by `map`: `Joined(&[10u8, 2].map(Hex), ":")` writes `A:2`. The room is the
/// sum of the rooms of the parts and of the lengths of the separators.
///
/// ```
/// use lexical_parts::{Hex, Joined, Part};
///
/// assert_eq!(rt; Joined(&[-1, 20], ", ").to_str(&mut [0; 64]), "-1, 20");
/// assert_eq!(rt; Joined(&[10u8, 2].map(Hex), ":").to_str(&mut [0; 64]), "A:2");
/// ```
#[derive(Clone, Copy, Debug, Drop)]
pub struct Joined<'a, P>(
    /// The parts.
    pub &'a [P],
    /// The separator.
    pub &'a str,
);

impl<P: Part> Part for Joined<'_, P> {
    ghost is_text = { λ part. AreJoined P.is_text part.1.now part.0.now };

    ghost is_valid = { λ part. All P.is_valid part.0.now };

    ghost room = { λ part. joined_room P.room (length part.1.now) part.0.now };

    ghost is_utf8 = { λ part. All P.is_utf8 part.0.now };

    fn room(self) -> usize {
        let separators = self.0.len().saturating_sub(1);
        let mut room = separators.saturating_mul(self.1.len());
        for part in self.0 {
            room = room.saturating_add(part.room());
        }
        room
    }

    fn write_to(self, buffer: &mut [u8]) -> usize {
        str_is_utf8(self.1);
        let mut count = 0;
        for (index, part) in self.0.iter().enumerate() {
            count += write_next(index, self.1, *part, &mut buffer[count..]);
        }
        count
    }

    fn text_len(self) -> Option<usize> {
        let separators = self.0.len().saturating_sub(1);
        let mut count: usize = 0;
        for part in self.0 {
            count = count.checked_add(part.text_len()?)?;
        }
        count.checked_add(separators.checked_mul(self.1.len())?)
    }

    fn is_known_valid_and_utf8(self, sealed: Sealed) -> bool
        ensures valid { IsTrue result → All P.is_valid self.entry.0.now }
        ensures utf8 { IsTrue result → All P.is_utf8 self.entry.0.now }
        ensures empty { self.entry.0.now ≡ [] → IsTrue result }
    {
        for part in self.0 {
            if !part.is_known_valid_and_utf8(sealed) {
                return false;
            }
        }
        // Also without parts, since an empty text is UTF-8.
        true
    }

    fn room_bound(self, sealed: Sealed) -> usize {
        let separators = self.0.len().saturating_sub(1);
        let mut bound = separators.saturating_mul(self.1.len());
        for part in self.0 {
            bound = bound.saturating_add(part.room_bound(sealed));
        }
        bound
    }
}

impl<P: Show> Show for Joined<'_, P> {
    ghost text = { λ part. joined_text P.text part.1.now part.0.now };

    fn is_showable(self) -> bool {
        for part in self.0 {
            if !part.is_showable() {
                return false;
            }
        }
        true
    }

    fn write_pieces<O: fmt::Write>(self, out: &mut O) -> fmt::Result {
        for (index, part) in self.0.iter().enumerate() {
            out.write_str(separator_before(index, self.1))?;
            part.write_pieces(out)?;
        }
        Ok(())
    }
}

/// A law: if no part of the slice has a room above `most`, their rooms are together at most `most` for
/// each part. With it the room of a `Joined` is known from the length of the slice: eight `i64` with
/// `","` between them have a room of 8 * 20 + 7 bytes.
pub fn rooms_at_most<P: Part>(parts: &[P], most: usize)
    requires { All (λ part. P.room part ≤ most) parts.now }
    ensures { sum_by P.room parts.now ≤ length parts.now * most }
{}
