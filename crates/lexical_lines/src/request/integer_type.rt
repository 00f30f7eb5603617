//! The ten integer types: their names and their ranges.

ghost use Rattle.std.specs.Prelude.{◌≡◌, ◌≢◌, ◌↔◌, ℕ, List, ◌∷◌, ◌++◌, IsTrue, IfSome, IfNone};
ghost use Rattle.lexical_lines.specs.IntegerType.{name_of, width_name, largest, largest_unsigned, Holds};

/// The width of an integer type.
#[derive(Clone, Copy)]
pub enum Width {
    Bits8,
    Bits16,
    Bits32,
    Bits64,
    Size,
}

impl Width {
    // Splits a text after the name of a width and a space. Returns `None` if the text does not begin so.
    fn split_name(text: &[u8]) -> Option<(Width, &[u8])>
        ensures found { IfSome result (λ parts. text.now ≡ width_name parts.0 ++ 32 ∷ parts.1.now) }
        ensures none { IfNone result ((width : Width) (rest : List ℕ) → text.now ≢ width_name width ++ 32 ∷ rest) }
    {
        match text {
            [b'8', b' ', rest @ ..] => Some((Width::Bits8, rest)),
            [b'1', b'6', b' ', rest @ ..] => Some((Width::Bits16, rest)),
            [b'3', b'2', b' ', rest @ ..] => Some((Width::Bits32, rest)),
            [b'6', b'4', b' ', rest @ ..] => Some((Width::Bits64, rest)),
            [b's', b'i', b'z', b'e', b' ', rest @ ..] => Some((Width::Size, rest)),
            _ => None,
        }
    }

    // Returns the largest number of the unsigned type of this width.
    fn largest_unsigned(self) -> u64
        ensures { result ≡ largest_unsigned self }
    {
        match self {
            Width::Bits8 => 0xff,
            Width::Bits16 => 0xffff,
            Width::Bits32 => 0xffff_ffff,
            Width::Bits64 | Width::Size => 0xffff_ffff_ffff_ffff,
        }
    }
}

/// One of Rust's ten integer types of at most 64 bits.
#[derive(Clone, Copy)]
pub struct IntegerType {
    is_signed: bool,
    width: Width,
}

impl IntegerType {
    /// Splits a line after the name of a type and a space. Returns `None` if the line does not begin so.
    pub fn split_name(line: &[u8]) -> Option<(IntegerType, &[u8])>
        ensures found { IfSome result (λ parts. line.now ≡ name_of parts.0 ++ 32 ∷ parts.1.now) }
        ensures none { IfNone result ((kind : IntegerType) (rest : List ℕ) → line.now ≢ name_of kind ++ 32 ∷ rest) }
    {
        let (first, name) = line.split_first()?;
        let is_signed = *first == b'i';
        if !is_signed && *first != b'u' {
            return None;
        }
        let (width, rest) = Width::split_name(name)?;
        Some((IntegerType { is_signed, width }, rest))
    }

    /// Returns the largest number of the type.
    pub fn largest(self) -> u64
        ensures { result ≡ largest self }
    {
        let unsigned = self.width.largest_unsigned();
        if self.is_signed {
            unsigned / 2
        } else {
            unsigned
        }
    }

    /// Returns whether the type has the number with this magnitude, preceded by a `-` if `minus` is
    /// true. An unsigned type allows no `-`, not even before 0.
    pub fn holds(self, minus: bool, magnitude: u64) -> bool
        ensures { IsTrue result ↔ Holds self minus magnitude }
    {
        // The magnitude of the smallest number of a signed type is the largest number plus 1.
        let over = magnitude.saturating_sub(u64::from(minus));
        (!minus || self.is_signed) && over <= self.largest()
    }
}
