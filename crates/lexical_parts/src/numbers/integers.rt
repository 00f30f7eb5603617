//! The integer types, which are parts: the text of a number is the number in decimal.

ghost use Rattle.lexical_num.specs.Format.{standard};
ghost use Rattle.lexical_write_integer.specs.Computed.{text_of};
ghost use Rattle.std.specs.Prelude.{pos, Some, IfSome, IsSome};
ghost use Rattle.lexical_parts.specs.Sequence.{IsDecimal};
ghost use Rattle.lexical_parts.specs.Length.{HasLength};

use crate::numbers::decimal::Decimal;
use crate::part::Part;
use crate::sealed::Sealed;
use crate::show::Show;

// Each type has its own `impl`: a generic one would also be one for `&str` and tuples, and `rt ci` refuses one that a
// macro of ours writes.
impl Part for u8 {
    ghost is_text = { λ number. IsDecimal (pos number) };

    ghost room = { λ _. 3 };

    fn room(self) -> usize {
        3
    }

    fn write_to(self, buffer: &mut [u8]) -> usize {
        Decimal(self).write_to(buffer)
    }

    fn text_len(self) -> Option<usize>
        ensures known { IsSome result }
        ensures length { IfSome result (λ count. HasLength (IsDecimal (pos self)) count) }
    {
        Decimal(self).text_len()
    }

    fn is_known_valid_and_utf8(self, _sealed: Sealed) -> bool {
        true
    }
}

impl Show for u8 {
    ghost text = { λ number. Some (text_of (pos number) standard) };

    fn is_showable(self) -> bool {
        true
    }
}

impl Part for u16 {
    ghost is_text = { λ number. IsDecimal (pos number) };

    ghost room = { λ _. 5 };

    fn room(self) -> usize {
        5
    }

    fn write_to(self, buffer: &mut [u8]) -> usize {
        Decimal(self).write_to(buffer)
    }

    fn text_len(self) -> Option<usize>
        ensures known { IsSome result }
        ensures length { IfSome result (λ count. HasLength (IsDecimal (pos self)) count) }
    {
        Decimal(self).text_len()
    }

    fn is_known_valid_and_utf8(self, _sealed: Sealed) -> bool {
        true
    }
}

impl Show for u16 {
    ghost text = { λ number. Some (text_of (pos number) standard) };

    fn is_showable(self) -> bool {
        true
    }
}

impl Part for u32 {
    ghost is_text = { λ number. IsDecimal (pos number) };

    ghost room = { λ _. 10 };

    fn room(self) -> usize {
        10
    }

    fn write_to(self, buffer: &mut [u8]) -> usize {
        Decimal(self).write_to(buffer)
    }

    fn text_len(self) -> Option<usize>
        ensures known { IsSome result }
        ensures length { IfSome result (λ count. HasLength (IsDecimal (pos self)) count) }
    {
        Decimal(self).text_len()
    }

    fn is_known_valid_and_utf8(self, _sealed: Sealed) -> bool {
        true
    }
}

impl Show for u32 {
    ghost text = { λ number. Some (text_of (pos number) standard) };

    fn is_showable(self) -> bool {
        true
    }
}

impl Part for u64 {
    ghost is_text = { λ number. IsDecimal (pos number) };

    ghost room = { λ _. 20 };

    fn room(self) -> usize {
        20
    }

    fn write_to(self, buffer: &mut [u8]) -> usize {
        Decimal(self).write_to(buffer)
    }

    fn text_len(self) -> Option<usize>
        ensures known { IsSome result }
        ensures length { IfSome result (λ count. HasLength (IsDecimal (pos self)) count) }
    {
        Decimal(self).text_len()
    }

    fn is_known_valid_and_utf8(self, _sealed: Sealed) -> bool {
        true
    }
}

impl Show for u64 {
    ghost text = { λ number. Some (text_of (pos number) standard) };

    fn is_showable(self) -> bool {
        true
    }
}

impl Part for usize {
    ghost is_text = { λ number. IsDecimal (pos number) };

    ghost room = { λ _. 20 };

    fn room(self) -> usize {
        20
    }

    fn write_to(self, buffer: &mut [u8]) -> usize {
        Decimal(self).write_to(buffer)
    }

    fn text_len(self) -> Option<usize>
        ensures known { IsSome result }
        ensures length { IfSome result (λ count. HasLength (IsDecimal (pos self)) count) }
    {
        Decimal(self).text_len()
    }

    fn is_known_valid_and_utf8(self, _sealed: Sealed) -> bool {
        true
    }
}

impl Show for usize {
    ghost text = { λ number. Some (text_of (pos number) standard) };

    fn is_showable(self) -> bool {
        true
    }
}

impl Part for i8 {
    ghost is_text = { IsDecimal };

    ghost room = { λ _. 4 };

    fn room(self) -> usize {
        4
    }

    fn write_to(self, buffer: &mut [u8]) -> usize {
        Decimal(self).write_to(buffer)
    }

    fn text_len(self) -> Option<usize>
        ensures known { IsSome result }
        ensures length { IfSome result (λ count. HasLength (IsDecimal self) count) }
    {
        Decimal(self).text_len()
    }

    fn is_known_valid_and_utf8(self, _sealed: Sealed) -> bool {
        true
    }
}

impl Show for i8 {
    ghost text = { λ number. Some (text_of number standard) };

    fn is_showable(self) -> bool {
        true
    }
}

impl Part for i16 {
    ghost is_text = { IsDecimal };

    ghost room = { λ _. 6 };

    fn room(self) -> usize {
        6
    }

    fn write_to(self, buffer: &mut [u8]) -> usize {
        Decimal(self).write_to(buffer)
    }

    fn text_len(self) -> Option<usize>
        ensures known { IsSome result }
        ensures length { IfSome result (λ count. HasLength (IsDecimal self) count) }
    {
        Decimal(self).text_len()
    }

    fn is_known_valid_and_utf8(self, _sealed: Sealed) -> bool {
        true
    }
}

impl Show for i16 {
    ghost text = { λ number. Some (text_of number standard) };

    fn is_showable(self) -> bool {
        true
    }
}

impl Part for i32 {
    ghost is_text = { IsDecimal };

    ghost room = { λ _. 11 };

    fn room(self) -> usize {
        11
    }

    fn write_to(self, buffer: &mut [u8]) -> usize {
        Decimal(self).write_to(buffer)
    }

    fn text_len(self) -> Option<usize>
        ensures known { IsSome result }
        ensures length { IfSome result (λ count. HasLength (IsDecimal self) count) }
    {
        Decimal(self).text_len()
    }

    fn is_known_valid_and_utf8(self, _sealed: Sealed) -> bool {
        true
    }
}

impl Show for i32 {
    ghost text = { λ number. Some (text_of number standard) };

    fn is_showable(self) -> bool {
        true
    }
}

impl Part for i64 {
    ghost is_text = { IsDecimal };

    ghost room = { λ _. 20 };

    fn room(self) -> usize {
        20
    }

    fn write_to(self, buffer: &mut [u8]) -> usize {
        Decimal(self).write_to(buffer)
    }

    fn text_len(self) -> Option<usize>
        ensures known { IsSome result }
        ensures length { IfSome result (λ count. HasLength (IsDecimal self) count) }
    {
        Decimal(self).text_len()
    }

    fn is_known_valid_and_utf8(self, _sealed: Sealed) -> bool {
        true
    }
}

impl Show for i64 {
    ghost text = { λ number. Some (text_of number standard) };

    fn is_showable(self) -> bool {
        true
    }
}

impl Part for isize {
    ghost is_text = { IsDecimal };

    ghost room = { λ _. 20 };

    fn room(self) -> usize {
        20
    }

    fn write_to(self, buffer: &mut [u8]) -> usize {
        Decimal(self).write_to(buffer)
    }

    fn text_len(self) -> Option<usize>
        ensures known { IsSome result }
        ensures length { IfSome result (λ count. HasLength (IsDecimal self) count) }
    {
        Decimal(self).text_len()
    }

    fn is_known_valid_and_utf8(self, _sealed: Sealed) -> bool {
        true
    }
}

impl Show for isize {
    ghost text = { λ number. Some (text_of number standard) };

    fn is_showable(self) -> bool {
        true
    }
}
