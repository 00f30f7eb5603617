//! References to parts, which have the text of the part.

use crate::part::Part;
use crate::sealed::Sealed;
use crate::show::Show;
use std::fmt;

impl<P: Part> Part for &P {
    ghost is_text = { λ part. P.is_text part.now };

    ghost is_valid = { λ part. P.is_valid part.now };

    ghost room = { λ part. P.room part.now };

    ghost is_utf8 = { λ part. P.is_utf8 part.now };

    fn room(self) -> usize {
        (*self).room()
    }

    fn write_to(self, buffer: &mut [u8]) -> usize {
        (*self).write_to(buffer)
    }

    fn text_len(self) -> Option<usize> {
        (*self).text_len()
    }

    fn is_known_valid_and_utf8(self, sealed: Sealed) -> bool {
        (*self).is_known_valid_and_utf8(sealed)
    }

    fn room_bound(self, sealed: Sealed) -> usize {
        (*self).room_bound(sealed)
    }
}

impl<P: Show> Show for &P {
    ghost text = { λ part. P.text part.now };

    fn is_showable(self) -> bool {
        (*self).is_showable()
    }

    fn write_pieces<O: fmt::Write>(self, out: &mut O) -> fmt::Result {
        (*self).write_pieces(out)
    }
}
