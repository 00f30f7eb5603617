//! The constants of the ten integer types, by which a caller chooses the length of a buffer.

ghost use Rattle.std.specs.Prelude.{◌≡◌, [], ◌∷◌, if◌then◌else◌};

use lexical_num::{FormattedSize, LexicalInteger};
use lexical_write_integer::decimal::Decimal;

// Returns the bits of a type, 1 if it has negative numbers, its decimal width, and its two sizes.
fn constants_of<T: FormattedSize>() -> [usize; 5]
    ensures { result ≡ T.BITS ∷ (if T.IS_SIGNED then 1 else 0) ∷ T.DECIMAL_WIDTH
        ∷ T.FORMATTED_SIZE_DECIMAL ∷ T.FORMATTED_SIZE ∷ [] }
{
    [
        T::BITS,
        usize::from(T::IS_SIGNED),
        T::DECIMAL_WIDTH,
        T::FORMATTED_SIZE_DECIMAL,
        T::FORMATTED_SIZE,
    ]
}

/// Returns a row for each integer type: its bits, 1 if it has negative numbers, its decimal width, and the lengths of a
/// buffer in decimal and in another radix.
pub fn constants_of_types() -> [[usize; 5]; 10]
    ensures { result
        ≡ (8 ∷ 0 ∷ 3 ∷ 3 ∷ 16 ∷ [])
        ∷ (16 ∷ 0 ∷ 5 ∷ 5 ∷ 32 ∷ [])
        ∷ (32 ∷ 0 ∷ 10 ∷ 10 ∷ 64 ∷ [])
        ∷ (64 ∷ 0 ∷ 20 ∷ 20 ∷ 128 ∷ [])
        ∷ (64 ∷ 0 ∷ 20 ∷ 20 ∷ 128 ∷ [])
        ∷ (8 ∷ 1 ∷ 3 ∷ 4 ∷ 16 ∷ [])
        ∷ (16 ∷ 1 ∷ 5 ∷ 6 ∷ 32 ∷ [])
        ∷ (32 ∷ 1 ∷ 10 ∷ 11 ∷ 64 ∷ [])
        ∷ (64 ∷ 1 ∷ 19 ∷ 20 ∷ 128 ∷ [])
        ∷ (64 ∷ 1 ∷ 19 ∷ 20 ∷ 128 ∷ []) ∷ [] }
{
    [
        constants_of::<u8>(),
        constants_of::<u16>(),
        constants_of::<u32>(),
        constants_of::<u64>(),
        constants_of::<usize>(),
        constants_of::<i8>(),
        constants_of::<i16>(),
        constants_of::<i32>(),
        constants_of::<i64>(),
        constants_of::<isize>(),
    ]
}

/// Returns the largest number of decimal digits of the signed type of each width.
pub fn signed_widths() -> [usize; 5]
    ensures { result ≡ 3 ∷ 5 ∷ 10 ∷ 19 ∷ 19 ∷ [] }
{
    [
        u8::SIGNED_WIDTH,
        u16::SIGNED_WIDTH,
        u32::SIGNED_WIDTH,
        u64::SIGNED_WIDTH,
        usize::SIGNED_WIDTH,
    ]
}
