//! A digit in radix 10^19, which is a part of a text: it is written in nineteen digits.

ghost use Rattle.std.specs.Prelude.{◌^◌, ◌<◌};

use lexical_parts::{Padded, Part};

/// A number below 10^19.
#[derive(Clone, Copy, Drop)]
pub struct Limb {
    /// The number.
    pub value: u64,
    ghost value_fits: { value < 10 ^ 19 },
}

impl Part for Limb {
    ghost use Rattle.uses.specs.Limbs.{IsLimb};

    ghost is_text = { IsLimb };

    ghost room = { λ _. 19 };

    fn room(self) -> usize {
        19
    }

    fn write_to(self, buffer: &mut [u8]) -> usize {
        Padded(self.value, 19).write_to(buffer)
    }
}
