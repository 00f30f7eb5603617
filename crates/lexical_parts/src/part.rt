//! The trait that each part of a text implements.

ghost use Rattle.std.specs.Prelude.{◌≡◌, ◌+◌, ◌<◌, ◌≤◌, IsTrue, List, ℕ, drop, length, min, take, ⊤};
ghost use Rattle.std.specs.Prelude.{IfNone, IfSome, IsSome};
ghost use Rattle.std.specs.Borrow.{sem};
ghost use Rattle.lexical_write_integer.specs.Buffer.{Writes};
ghost use Rattle.lexical_write_integer.specs.Lending.{LendsFront};
ghost use Rattle.lexical_write_integer.specs.Sequence.{IsExactly};
ghost use Rattle.lexical_parts.specs.Fields.{bytes_between};
ghost use Rattle.lexical_parts.specs.Length.{HasLength, HasLonger};
ghost use Rattle.lexical_parts.specs.Sequence.{◌then◌};
ghost use Rattle.lexical_parts.specs.Utf8.{AreUtf8};

use crate::sealed::Sealed;
use lexical_write_integer::buffer::{copy_to_front, front_mut};
use std::str::{from_utf8, from_utf8_unchecked};

/// A value that has a text, such as a number or a `&str`. A tuple of 2 to 12 parts is also a part, and its
/// text consists of the texts of its elements, in order: `(250, " g")` writes `250 g`.
///
/// A longer tuple has tuples in it: `((a, b), (c, d))` writes what `(a, b, c, d)` writes. A tuple of one element,
/// `(part,)`, is not a part. For a `String` write `string.as_str()`, or, with the Cargo feature `alloc`, `&string`. A
/// literal needs a type where the part takes unsigned numbers only: `Hex(255u8)` and `Digits(36, 1000u32)`,
/// and not `Hex(255)`.
///
/// A part is *valid* if it meets the condition of its type: a radix is from 2 to 36, and a padded number
/// fits in its width. A part that contains parts is valid if they are valid. A part without a condition is
/// always valid.
///
/// ```
/// use lexical_parts::Part;
///
/// assert_eq!(rt; (250, " g").to_str(&mut [0; 64]), "250 g");
/// ```
pub trait Part: Copy {
    // Whether these bytes are the text of the part.
    ghost is_text: { Self → List ℕ → Type 0 };

    // Whether the part is valid. A valid part has a text.
    ghost is_valid: { Self → Type 0 } = { λ _. ⊤ };

    // A number of bytes that is enough for the text.
    ghost room: { Self → ℕ };

    // The condition under which the text is UTF-8: that each byte that the part names is below 128.
    ghost is_utf8: { Self → Type 0 } = { λ _. ⊤ };

    /// Returns the room: a length of a buffer that is always enough for the text, or `usize::MAX` if that length does
    /// not fit in a `usize`. The part must be valid.
    ///
    /// # Panics
    ///
    /// If the part is not valid, for [some parts](crate::conditions#valid-parts).
    fn room(self) -> usize
        requires { is_valid self }
        ensures { result ≡ min (room self) usize.MAX };

    /// Writes the text to the start of the buffer, and returns its length. Every byte after the text is unchanged. The
    /// part must be valid, and the buffer must have `room` bytes or more. (A shorter buffer [may happen to be
    /// enough](crate::conditions#what-happens-otherwise).)
    ///
    /// # Panics
    ///
    /// If the part is not valid, or if the buffer is [too short](crate::conditions).
    fn write_to(self, buffer: &mut [u8]) -> usize
        requires valid { is_valid self }
        requires room { room self ≤ length buffer.old }
        ensures text { Writes (is_text self) buffer.old buffer.new result }
        ensures at_most { result ≤ room self }
        ensures utf8 { is_utf8 self → AreUtf8 (is_text self) };

    /// Returns the length of the text, if the part knows it without writing the text, and otherwise `None`. The default
    /// returns `None`. The part must be valid.
    ///
    /// # Panics
    ///
    /// If the part is not valid, for [some parts](crate::conditions#valid-parts).
    fn text_len(self) -> Option<usize>
        requires { is_valid self }
        ensures { IfSome result (λ count. HasLength (is_text self) count) }
    {
        None
    }

    // Whether the values of the part show that it is valid and that its text is UTF-8. A part of another crate cannot
    // define this method, since it cannot name `Sealed`.
    #[doc(hidden)]
    fn is_known_valid_and_utf8(self, _sealed: Sealed) -> bool
        ensures valid { IsTrue result → is_valid self }
        ensures utf8 { IsTrue result → is_utf8 self }
    {
        false
    }

    // Returns a number of bytes that is enough for the text, as `room` does. It may be larger, and then takes fewer
    // instructions.
    #[doc(hidden)]
    fn room_bound(self, _sealed: Sealed) -> usize
        requires { is_valid self }
        ensures { min (room self) usize.MAX ≤ result }
    {
        self.room()
    }

    /// Writes the text to the start of the buffer, and returns those bytes of the buffer, which the
    /// caller may read and change. Every byte after the text is unchanged. The part must be valid, and the buffer must
    /// have `room` bytes or more.
    ///
    /// # Panics
    ///
    /// If the part is not valid, or if the buffer is [too short](crate::conditions).
    final fn to_text(self, buffer: &mut [u8]) -> &mut [u8]
        requires valid { is_valid self }
        requires room { room self ≤ length buffer.old }
        ensures* lends { sem 𝓛 (LendsFront buffer.entry (length result.now) result) }
        ensures text { is_text self result.now }
        ensures at_most { length result.now ≤ room self }
        ensures utf8 { is_utf8 self → AreUtf8 (is_text self) }
    {
        let count = self.write_to(buffer);
        front_mut(buffer, count)
    }

    /// Writes the text to the buffer from `index` on, and returns the index after the text. Every other byte is
    /// unchanged. The part must be valid, and the buffer must have `room` bytes or more from `index` on. (Fewer bytes
    /// [may happen to be enough](crate::conditions#what-happens-otherwise).)
    ///
    /// # Panics
    ///
    /// If the part is not valid, or if the buffer is [too short](crate::conditions).
    final fn write_at(self, index: usize, buffer: &mut [u8]) -> usize
        requires valid { is_valid self }
        requires room { index + room self ≤ length buffer.old }
        // The text and the bytes before it are together a text from the start of the buffer, so calls in a row add up.
        ensures text { Writes (IsExactly (take index buffer.old) then is_text self) buffer.old buffer.new result }
        ensures front { (IsExactly (take index buffer.old) then is_text self) (take result buffer.new) }
        ensures before { take index buffer.new ≡ take index buffer.old }
        ensures field { is_text self (bytes_between buffer.new index result) }
        ensures count { result ≡ index + length (bytes_between buffer.new index result) }
        ensures after { drop result buffer.new ≡ drop result buffer.old }
        ensures after_index { index ≤ result }
        ensures kept_before { (from to : ℕ) → to ≤ index
            → bytes_between buffer.new from to ≡ bytes_between buffer.old from to }
        ensures kept_after { (from to : ℕ) → result ≤ from
            → bytes_between buffer.new from to ≡ bytes_between buffer.old from to }
        ensures at_most { result ≤ index + room self }
        ensures utf8 { is_utf8 self → AreUtf8 (is_text self) }
        ensures same_length { length buffer.new ≡ length buffer.old }
    {
        index + self.write_to(&mut buffer[index..])
    }

    /// Writes the text to the start of the buffer if it fits, and returns its length; every byte after the text is
    /// unchanged. If it does not fit, returns `None`, and the buffer is unchanged. If the room is above 256 bytes,
    /// returns `None` for each buffer that is shorter than the room, even if the text fits. Only lengths are tested:
    /// the part must be valid.
    ///
    /// # Panics
    ///
    /// If the part is not valid. If its room is above 256 bytes, it may return `None` instead.
    final fn try_write_to(self, buffer: &mut [u8]) -> Option<usize>
        requires { is_valid self }
        ensures fits { room self ≤ length buffer.old → IsSome result }
        ensures longer { IfNone result (room self ≤ 256 → HasLonger (is_text self) (length buffer.old)) }
        ensures large { IsSome result → 256 < room self → room self ≤ length buffer.old }
        ensures text { IfSome result (Writes (is_text self) buffer.old buffer.new) }
        ensures at_most { IfSome result (λ count. count ≤ room self) }
        ensures utf8 { IfSome result (λ _. is_utf8 self → AreUtf8 (is_text self)) }
        ensures none { IfNone result (buffer.new ≡ buffer.old) }
    {
        if self.room() <= buffer.len() {
            return Some(self.write_to(buffer));
        }
        write_if_it_fits(self, buffer)
    }

    /// Writes the text to the start of the buffer, and returns it as a `&str`, which borrows the buffer. Every byte
    /// after the text is unchanged. The part must be valid, each [`Byte`](super::Byte) in it and each fill byte of a
    /// column must be below 128, each [`Bytes`](super::Bytes) in it must be UTF-8, and the buffer must have `room`
    /// bytes or more.
    ///
    /// `std::str::from_utf8` reads the text once to check it if there is a `Displayed`, a reference to a `String` or a
    /// part of your own in it, if a byte or a fill in it is 128 or above, or if a `Bytes` in it is not UTF-8 by itself.
    /// Other texts need no check.
    ///
    /// # Panics
    ///
    /// If the part is not valid, or if the text of the part is not UTF-8, or if the buffer is
    /// [too short](crate::conditions).
    final fn to_str(self, buffer: &mut [u8]) -> &str
        requires valid { is_valid self }
        requires utf8 { is_utf8 self }
        requires room { room self ≤ length buffer.old }
        ensures text { is_text self result.now }
        ensures at_most { length result.now ≤ room self }
    {
        let is_known_utf8 = self.is_known_valid_and_utf8(Sealed);
        prove!(
            has_room(self, buffer),
            "the buffer is shorter than the room of the part"
        );
        let text = self.to_text(buffer);
        if is_known_utf8 {
            // SAFETY: the part is valid, it is UTF-8, and the buffer has its room. So `to_text` ensures `utf8`: the
            // text is UTF-8.
            unsafe { from_utf8_unchecked(text) }
        } else {
            let checked = from_utf8(text);
            prove!(checked.is_ok(), "the text is not UTF-8");
            checked.unwrap()
        }
    }

    /// Returns the text as `to_str` does, if `try_write_to` writes it. Otherwise returns `None`. The part must meet the
    /// other conditions of `to_str`.
    ///
    /// # Panics
    ///
    /// If the part is not valid, or if the text of the part is not UTF-8. If its room is above 256 bytes, it may return
    /// `None` instead.
    final fn try_to_str(self, buffer: &mut [u8]) -> Option<&str>
        requires valid { is_valid self }
        requires utf8 { is_utf8 self }
        ensures fits { room self ≤ length buffer.old → IsSome result }
        ensures longer { IfNone result (room self ≤ 256 → HasLonger (is_text self) (length buffer.old)) }
        ensures large { IsSome result → 256 < room self → room self ≤ length buffer.old }
        ensures text { IfSome result (λ text. is_text self text.now) }
        ensures at_most { IfSome result (λ text. length text.now ≤ room self) }
    {
        if self.room() <= buffer.len() {
            return Some(self.to_str(buffer));
        }
        str_if_it_fits(self, buffer)
    }
}

// Writes the text to the start of a buffer that is shorter than the room, if the room is at most 256 bytes and the
// buffer is as long as the text. If rustc did not inline it, each caller would write its part to the stack for this
// call.
fn write_if_it_fits<P: Part>(part: P, buffer: &mut [u8]) -> Option<usize>
    requires { P.is_valid part }
    ensures longer { IfNone result (P.room part ≤ 256 → HasLonger (P.is_text part) (length buffer.old)) }
    ensures at_most_256 { IsSome result → P.room part ≤ 256 }
    ensures text { IfSome result (Writes (P.is_text part) buffer.old buffer.new) }
    ensures at_most { IfSome result (λ count. count ≤ P.room part) }
    ensures utf8 { IfSome result (λ _. P.is_utf8 part → AreUtf8 (P.is_text part)) }
    ensures none { IfNone result (buffer.new ≡ buffer.old) }
{
    let mut array = [0; 256];
    if array.len() < part.room() {
        return None;
    }
    let text = part.to_text(&mut array);
    if buffer.len() < text.len() {
        return None;
    }
    Some(copy_to_front(text, buffer))
}

// Returns what `write_if_it_fits` writes as a `&str`.
fn str_if_it_fits<P: Part>(part: P, buffer: &mut [u8]) -> Option<&str>
    requires valid { P.is_valid part }
    requires utf8 { P.is_utf8 part }
    ensures longer { IfNone result (P.room part ≤ 256 → HasLonger (P.is_text part) (length buffer.old)) }
    ensures at_most_256 { IsSome result → P.room part ≤ 256 }
    ensures text { IfSome result (λ text. P.is_text part text.now) }
    ensures at_most { IfSome result (λ text. length text.now ≤ P.room part) }
{
    let count = write_if_it_fits(part, buffer)?;
    let checked = from_utf8(&buffer[..count]);
    prove!(checked.is_ok(), "the text is not UTF-8");
    Some(checked.unwrap())
}

// Returns whether the buffer has the room of the part.
fn has_room<P: Part>(part: P, buffer: &[u8]) -> bool
    requires { P.is_valid part }
    ensures fits { IsTrue result → P.room part ≤ length buffer.now }
    ensures enough { P.room part ≤ length buffer.now → IsTrue result }
{
    part.room_bound(Sealed) <= buffer.len() || part.room() <= buffer.len()
}
