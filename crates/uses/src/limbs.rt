//! Writes integers of several words, whose lower words are written in all their digits.

ghost use Rattle.std.specs.Prelude.{◌^◌, ◌<◌, ◌≤◌, ◌+◌, ◌*◌, IfSome, [], length, pos, slice_get, slice_range};
ghost use Rattle.lexical_write_integer.specs.Buffer.{Writes};
ghost use Rattle.lexical_write_integer.specs.Padded.{IsPadded};
ghost use Rattle.lexical_write_integer.specs.Sequence.{AreJoined};
ghost use Rattle.lexical_write_integer.specs.Text.{IsDigits};
ghost use Rattle.lexical_parts.specs.Sequence.{◌then◌, IsDecimal};
ghost use Rattle.uses.specs.Limbs.{IsLimb};

use crate::limb::Limb;
use lexical_parts::{Hex, Joined, Padded, PaddedDigits, Part, part_starts_at, rooms_at_most};
use lexical_write_integer::laws::{
    decimal_then_padded, digits_then_padded, padded_length, padded_then_padded,
};

/// Writes `high` times 10^19, and `low` added, in decimal, as a `u128` of these two halves, and returns the length.
pub fn write_wide(high: u64, low: u64, buffer: &mut [u8; 39]) -> usize
    requires high { 0 < high }
    requires low { low < 10 ^ 19 }
    ensures { Writes (IsDecimal (pos (high * 10 ^ 19 + low))) buffer.old buffer.new result }
{
    decimal_then_padded(high, 19, low);
    (high, Padded(low, 19)).write_to(buffer)
}

/// Writes `high` times 2^64, and `low` added, in radix 16, and returns the length.
pub fn write_wide_hexadecimal(high: u64, low: u64, buffer: &mut [u8; 32]) -> usize
    requires { 0 < high }
    ensures { Writes (IsDigits 16 (high * 16 ^ 16 + low)) buffer.old buffer.new result }
{
    digits_then_padded(16, high, 16, low);
    (Hex(high), PaddedDigits(16, low, 16)).write_to(buffer)
}

/// Writes the same in 32 digits.
pub fn write_digest_of_words(high: u64, low: u64, buffer: &mut [u8; 32]) -> usize
    ensures { Writes (IsPadded 16 32 (high * 16 ^ 16 + low)) buffer.old buffer.new result }
{
    padded_then_padded(16, 16, high, 16, low);
    (PaddedDigits(16, high, 16), PaddedDigits(16, low, 16)).write_to(buffer)
}

/// Writes the first limb, which is not 0 unless it is the only one, and the others in nineteen digits each, and returns
/// the length.
pub fn write_limbs(first: u64, rest: &[Limb], buffer: &mut [u8]) -> usize
    requires { 19 * length rest.now + 20 ≤ length buffer.old }
    ensures { Writes (IsDecimal (pos first) then AreJoined IsLimb [] rest.now) buffer.old buffer.new result }
{
    rooms_at_most(rest, 19);
    (first, Joined(rest, "")).write_to(buffer)
}

/// Returns the limbs in nineteen digits each. The limb with the index is at nineteen times this index.
pub fn limbs<'a>(limbs: &[Limb], index: usize, buffer: &'a mut [u8]) -> &'a [u8]
    requires { length limbs.now * 19 ≤ length buffer.old }
    ensures whole { AreJoined IsLimb [] limbs.now result.now }
    ensures limb { IfSome (slice_get limbs.now index) (λ limb. IsLimb limb
        (slice_range result.now (index * 19) (index * 19 + 19))) }
{
    rooms_at_most(limbs, 19);
    padded_length(10, 19);
    part_starts_at(limbs, "", 19, index);
    Joined(limbs, "").to_text(buffer)
}
