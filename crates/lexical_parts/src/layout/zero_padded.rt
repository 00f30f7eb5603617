//! Numbers with leading zeros, up to at least a width.
#![tactic(auto, using(crate::proofs::OfTexts::Parts::parts))]

ghost use Rattle.std.specs.Fmt.{WritesInCalls};
ghost use Rattle.std.specs.Prelude.{◌≡◌, ◌≤◌, length, max};
ghost use Rattle.lexical_write_integer.specs.ZerosAfterSign.{sign_length};
ghost use Rattle.lexical_parts.specs.ZeroPadded.{IsZeroPadded, piece_with_zeros, zero_padded_text, zeros_after};

use crate::formatting::limited::{count_bytes, write_exactly};
use crate::layout::fill::{insert_fill, write_copies};
use crate::part::Part;
use crate::sealed::Sealed;
use crate::show::Show;
use std::fmt;

// Returns the length of the sign with which the text begins: 1 for `-` or `+`, and otherwise 0.
fn length_of_sign(text: &[u8]) -> usize
    ensures sign { result ≡ sign_length text.now }
    ensures within { result ≤ length text.now }
{
    match text {
        [b'-' | b'+', ..] => 1,
        _ => 0,
    }
}

/// A part with zeros after its sign, up to the width: `ZeroPadded(Decimal(-42), 6)` writes `-00042`, as `{:06}` does.
///
/// A text that is longer than the width gets no zeros. The room is the width or that of the part, whichever is larger.
/// [`Padded`](super::super::Padded) has a width that the number must fit.
///
/// ```
/// use lexical_parts::{Decimal, Part, ZeroPadded};
///
/// assert_eq!(rt; ZeroPadded(Decimal(-42), 6).to_str(&mut [0; 64]), "-00042");
/// ```
#[derive(Clone, Copy, Debug, Drop)]
pub struct ZeroPadded<P>(
    /// The part, such as a number.
    pub P,
    /// The width, in bytes.
    pub usize,
);

impl<P: Part> Part for ZeroPadded<P> {
    ghost is_text = { λ part. IsZeroPadded part.1 (P.is_text part.0) };

    ghost is_valid = { λ part. P.is_valid part.0 };

    ghost room = { λ part. max (P.room part.0) part.1 };

    ghost is_utf8 = { λ part. P.is_utf8 part.0 };

    fn room(self) -> usize {
        self.0.room().max(self.1)
    }

    fn write_to(self, buffer: &mut [u8]) -> usize {
        let count = self.0.write_to(buffer);
        let sign = length_of_sign(&buffer[..count]);
        let zeros = self.1.saturating_sub(count);
        insert_fill(b'0', zeros, count - sign, &mut buffer[sign..]);
        zeros + count
    }

    fn text_len(self) -> Option<usize> {
        Some(self.0.text_len()?.max(self.1))
    }

    fn is_known_valid_and_utf8(self, sealed: Sealed) -> bool {
        self.0.is_known_valid_and_utf8(sealed)
    }

    fn room_bound(self, sealed: Sealed) -> usize {
        self.0.room_bound(sealed).max(self.1)
    }
}

impl<P: Show> Show for ZeroPadded<P> {
    ghost text = { λ part. zero_padded_text part.1 (P.text part.0) };

    fn is_showable(self) -> bool {
        self.0.is_showable()
    }

    fn write_pieces<O: fmt::Write>(self, out: &mut O) -> fmt::Result {
        if !self.is_showable() {
            return Err(fmt::Error);
        }
        let count = count_bytes(self.0)?;
        let mut adding = AddingZeros {
            out,
            zeros: self.1.saturating_sub(count),
        };
        write_exactly(self.0, count, &mut adding)?;
        // An empty text has taken no zeros, so they are written now.
        let zeros = adding.zeros;
        // By this use it is known what the writer is now.
        let AddingZeros { out, .. } = adding;
        write_copies(b'0', zeros, out)
    }
}

// A writer that adds zeros after the sign of the first piece that is not empty.
#[derive(Drop)]
struct AddingZeros<'a, O> {
    out: &'a mut O,
    // How many zeros are still to be added.
    zeros: usize,
}

impl<O: fmt::Write> fmt::Write for AddingZeros<'_, O> {
    ghost write_str_gives = { λ s bytes t. (t.out.ghost_name ≡ s.out.ghost_name)
        × WritesInCalls O.write_str_gives s.out.now (piece_with_zeros s.zeros bytes) t.out.now
        × (t.zeros ≡ zeros_after s.zeros bytes) };

    fn write_str(&mut self, text: &str) -> fmt::Result {
        if text.is_empty() {
            return Ok(());
        }
        let sign = length_of_sign(text.as_bytes());
        let zeros = self.zeros;
        self.zeros = 0;
        match (text.get(..sign), text.get(sign..)) {
            (Some(sign), Some(number)) => {
                self.out.write_str(sign)?;
                write_copies(b'0', zeros, self.out)?;
                self.out.write_str(number)
            }
            _ => Err(fmt::Error),
        }
    }
}
