//! Parts in lowercase.
#![tactic(auto, using(crate::proofs::OfTexts::Parts::parts))]

ghost use Rattle.std.specs.Char.{to_ascii_lowercase};
ghost use Rattle.std.specs.Fmt.{WritesInCalls};
ghost use Rattle.std.specs.Prelude.{◌≡◌, ◌+◌, ◌<◌, ◌≤◌, ℕ, length, map, min, slice_range};
ghost use Rattle.std.specs.Str.{IsCharBoundary};
ghost use Rattle.lexical_parts.specs.Lower.{lower_text};
ghost use Rattle.lexical_write_integer.specs.Lowercase.{IsLowercase};

use crate::part::Part;
use crate::sealed::Sealed;
use crate::show::Show;
use std::fmt;

/// A part in lowercase: its text with `A` to `Z` as `a` to `z`, and every other byte unchanged.
///
/// `Lower(PaddedDigits(16, 255u32, 4))` writes `00ff`. Its room is that of the part.
///
/// In a format string it is a text, and not a number: `{:04}` of `Lower(Hex(255u32))` writes `ff` and two spaces,
/// although `{:04}` of `Hex(255u32)` writes `00FF`.
///
/// ```
/// use lexical_parts::{Lower, PaddedDigits, Part};
///
/// assert_eq!(rt; Lower(PaddedDigits(16, 255u32, 4)).to_str(&mut [0; 64]), "00ff");
/// ```
#[derive(Clone, Copy, Debug, Drop)]
pub struct Lower<P>(pub P);

impl<P: Part> Part for Lower<P> {
    ghost is_text = { λ part. IsLowercase (P.is_text part.0) };

    ghost is_valid = { λ part. P.is_valid part.0 };

    ghost room = { λ part. P.room part.0 };

    ghost is_utf8 = { λ part. P.is_utf8 part.0 };

    fn room(self) -> usize {
        self.0.room()
    }

    fn write_to(self, buffer: &mut [u8]) -> usize {
        let count = self.0.write_to(buffer);
        buffer[..count].make_ascii_lowercase();
        count
    }

    fn text_len(self) -> Option<usize> {
        self.0.text_len()
    }

    fn room_bound(self, sealed: Sealed) -> usize {
        self.0.room_bound(sealed)
    }

    fn is_known_valid_and_utf8(self, sealed: Sealed) -> bool {
        self.0.is_known_valid_and_utf8(sealed)
    }
}

impl<P: Show> Show for Lower<P> {
    ghost text = { λ part. lower_text (P.text part.0) };

    fn is_showable(self) -> bool {
        self.0.is_showable()
    }

    fn write_pieces<O: fmt::Write>(self, out: &mut O) -> fmt::Result {
        if !self.is_showable() {
            return Err(fmt::Error);
        }
        let mut lowering = Lowering { out };
        let result = self.0.write_pieces(&mut lowering);
        // No effect at run time, but by this use it is known what the writer is now.
        let Lowering { out } = lowering;
        let _ = &*out;
        result
    }
}

// A writer of what is written to it in lowercase.
#[derive(Drop)]
struct Lowering<'a, O> {
    out: &'a mut O,
}

impl<O: fmt::Write> fmt::Write for Lowering<'_, O> {
    ghost write_str_gives = { λ s bytes t. (t.out.ghost_name ≡ s.out.ghost_name)
        × WritesInCalls O.write_str_gives s.out.now (map to_ascii_lowercase bytes) t.out.now };

    fn write_str(&mut self, text: &str) -> fmt::Result {
        let mut start = 0;
        while start < text.len() {
            let piece = piece_at(text, start);
            if piece.is_empty() {
                return Err(fmt::Error);
            }
            self.out.write_str(Lower(piece).to_str(&mut [0; 64]))?;
            start += piece.len();
        }
        Ok(())
    }
}

// Returns a piece of the text, of at most 64 bytes: the longest that ends where a character ends.
fn piece_at(text: &str, start: usize) -> &str
    requires { start ≤ length text.now }
    ensures piece { result.now ≡ slice_range text.now start (start + length result.now) }
    ensures within { start + length result.now ≤ length text.now }
    ensures at_most { length result.now ≤ 64 }
    // A character has at most four bytes, so one of the last four places is the end of one.
    ensures longest { (end : ℕ) → IsCharBoundary text.now start → IsCharBoundary text.now end → end ≤ start + 64
        → min (length text.now) (start + 64) < end + 4 → end ≤ start + length result.now }
{
    let end = text.len().min(start.saturating_add(64));
    for fewer in 0..4 {
        if let Some(piece) = text.get(start..end.saturating_sub(fewer)) {
            return piece;
        }
    }
    ""
}
