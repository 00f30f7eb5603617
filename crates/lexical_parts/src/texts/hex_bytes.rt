//! Bytes in radix 16.
#![tactic(auto, using(crate::proofs::OfTexts::Parts::parts))]

ghost use Rattle.std.specs.Prelude.{◌+◌, ◌-◌, ◌*◌, length, Some};
ghost use Rattle.lexical_write_integer.specs.Computed.{padded_text};
ghost use Rattle.lexical_write_integer.specs.Padded.{IsPadded};
ghost use Rattle.lexical_write_integer.specs.Sequence.{AreJoined};
ghost use Rattle.lexical_parts.specs.HexBytes.{hex_bytes_text};

use crate::layout::joined::{separator_before, write_next};
use crate::part::Part;
use crate::sealed::Sealed;
use crate::show::{MOST_IN_ONE_PIECE, Show, write_in_one_piece};
use crate::texts::strings::str_is_utf8;
use lexical_tables::get_table;
use std::fmt;

// The two digits of a byte in radix 16.
#[derive(Clone, Copy, Drop)]
struct HexByte(u8);

impl Part for HexByte {
    ghost is_text = { λ part. IsPadded 16 2 part.0 };

    ghost room = { λ _. 2 };

    fn room(self) -> usize {
        2
    }

    fn write_to(self, buffer: &mut [u8]) -> usize {
        let table = get_table(16);
        let index = 2 * usize::from(self.0);
        // Both characters are read first, so a compiler moves them as one number.
        let (first, second) = (table[index], table[index + 1]);
        // rustc tests the end of these bytes once.
        let written = &mut buffer[..2];
        written[1] = second;
        written[0] = first;
        2
    }
}

/// The bytes of a slice in radix 16, each in two digits, with a separator between adjacent bytes.
///
/// `HexBytes(&[1, 255], "")` writes `01FF`, and `HexBytes(&[1, 255], ":")` writes `01:FF`. The room is the length of
/// the text.
///
/// ```
/// use lexical_parts::{HexBytes, Part};
///
/// assert_eq!(rt; HexBytes(&[1, 255], "").to_str(&mut [0; 64]), "01FF");
/// assert_eq!(rt; HexBytes(&[1, 255], ":").to_str(&mut [0; 64]), "01:FF");
/// ```
#[derive(Clone, Copy, Debug, Drop)]
pub struct HexBytes<'a>(
    /// The bytes.
    pub &'a [u8],
    /// The separator.
    pub &'a str,
);

impl Part for HexBytes<'_> {
    ghost is_text = { λ part. AreJoined (IsPadded 16 2) part.1.now part.0.now };

    ghost room = { λ part. 2 * length part.0.now + (length part.0.now - 1) * length part.1.now };

    fn room(self) -> usize {
        let separators = self.0.len().saturating_sub(1);
        let digits = self.0.len().saturating_mul(2);
        digits.saturating_add(separators.saturating_mul(self.1.len()))
    }

    fn write_to(self, buffer: &mut [u8]) -> usize {
        str_is_utf8(self.1);
        // The loop of `Joined`, whose slice contains the parts: here each byte becomes one.
        let mut count = 0;
        for (index, byte) in self.0.iter().enumerate() {
            count += write_next(index, self.1, HexByte(*byte), &mut buffer[count..]);
        }
        count
    }

    fn text_len(self) -> Option<usize> {
        let digits = self.0.len().checked_mul(2)?;
        let separators = self.0.len().saturating_sub(1);
        digits.checked_add(separators.checked_mul(self.1.len())?)
    }

    fn is_known_valid_and_utf8(self, _sealed: Sealed) -> bool {
        true
    }
}

impl Show for HexBytes<'_> {
    ghost text = { λ part. Some (hex_bytes_text part.1.now part.0.now) };

    fn is_showable(self) -> bool {
        true
    }

    fn write_pieces<O: fmt::Write>(self, out: &mut O) -> fmt::Result {
        if self.room() <= MOST_IN_ONE_PIECE {
            return write_in_one_piece(self, out);
        }
        for (index, byte) in self.0.iter().enumerate() {
            out.write_str(separator_before(index, self.1))?;
            out.write_str(HexByte(*byte).to_str(&mut [0; 2]))?;
        }
        Ok(())
    }
}
