//! Calls that use a table of digit pairs.
#![tactic(auto, using(std::proofs::lemmas::List::take_all), unfolding(lexical_write_integer::specs::DigitCount::digit_count, lexical_write_integer::specs::DigitCount::least_exponent))]

ghost use Rattle.lexical_num.specs.Format.{IsRadix};
ghost use Rattle.lexical_write_integer.specs.Table.{BeginsWithPairs};

use lexical_write_integer::algorithm::algorithm;
use lexical_write_integer::table::get_table;

/// Returns the length of the table of the largest radix.
pub fn length_of_the_largest_table() -> usize {
    get_table(36).len()
}

// Returns the table of a radix, which begins with the pairs of its digits.
fn table_of(radix: u32) -> &'static [u8]
    requires { IsRadix radix }
    ensures { BeginsWithPairs radix result.now }
{
    get_table(radix)
}

/// Writes 128 with the table of its radix, and returns the digit count.
pub fn digits_by_the_table_of_the_radix() -> usize {
    algorithm(128u8, 12, table_of(12), &mut [0; 2])
}

/// Writes 128 with the whole table of its radix, and returns the digit count.
pub fn digits_by_the_whole_table() -> usize {
    let table = get_table(16);
    algorithm(128u8, 16, &table[..table.len()], &mut [0; 2])
}
