//! Tables of the pairs of digits of a radix: `00`, `01` and so on.

ghost use Rattle.std.specs.Prelude.{◌+◌, ◌*◌, ◌<◌, ◌≤◌, length};
ghost use Rattle.lexical_num.specs.Format.{IsRadix};
ghost use Rattle.lexical_write_integer.specs.Buffer.{WritesBlock};
ghost use Rattle.lexical_write_integer.specs.Table.{BeginsWithPairs};

use lexical_tables::get_table;

// A table that begins with the digit pairs of the radix `R`, one for each number below the square of the radix.
#[derive(Clone, Copy, Drop)]
pub(super) struct RadixTable<'a, const R: u32> {
    pub(super) pairs: &'a [u8],
    ghost is_radix: { IsRadix R },
    ghost begins: { BeginsWithPairs R pairs.now },
}

impl<const R: u32> RadixTable<'static, R> {
    // Returns the table that `get_table` returns.
    pub(super) fn new() -> Self
        requires { IsRadix R }
    {
        RadixTable {
            pairs: get_table(R),
        }
    }
}

impl<const R: u32> RadixTable<'_, R> {
    // Writes the pair of a number at index `at`.
    pub(super) fn write(self, number: u32, buffer: &mut [u8], at: usize)
        requires number { number < R * R }
        requires room { at + 2 ≤ length buffer.old }
        ensures { WritesBlock R 2 number at buffer.old buffer.new }
    {
        let index = 2 * number as usize;
        let pair = &self.pairs[index..index + 2];
        // rustc tests the end of each slice once. Both bytes are read first, so a compiler moves them as one number.
        let (first, second) = (pair[0], pair[1]);
        let written = &mut buffer[at..at + 2];
        written[1] = second;
        written[0] = first;
    }
}
