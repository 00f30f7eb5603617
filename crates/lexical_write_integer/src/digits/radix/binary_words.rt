//! Writing binary digits, eight at a time, as the bytes of a word.

ghost use Rattle.std.specs.Prelude.{◌≡◌, ◌+◌, ◌/◌, ◌<◌, ◌≤◌, ◌++◌, length};
ghost use Rattle.lexical_write_integer.specs.Buffer.{WritesBlock, WritesDigits};
ghost use Rattle.lexical_write_integer.specs.DigitCount.{digit_count};
ghost use Rattle.lexical_write_integer.specs.LoopTurns.{loop_notes, table_notes};

use super::count_then_write::count_of_nonzero;
use super::steps::{note_up_to_four, remove_four};
use crate::turns::Turns;

// Writes the eight binary digits of a number below 256 at index `at`. Each byte of the product is the number, of which
// the mask keeps another bit. The sum carries a bit that is set to bit 7 of its byte, and no further.
fn write_eight_bits(bits: u64, buffer: &mut [u8], at: usize)
    requires below { bits < 256 }
    requires room { at + 8 ≤ length buffer.old }
    ensures { WritesBlock 2 8 bits at buffer.old buffer.new }
{
    let kept = (bits * 0x0101_0101_0101_0101) & 0x0102_0408_1020_4080;
    let carried = kept + 0x7f7f_7f7f_7f7f_7f7f;
    let characters = ((carried >> 7) & 0x0101_0101_0101_0101 | 0x3030_3030_3030_3030).to_le_bytes();
    buffer[at..at + 8].copy_from_slice(&characters);
}

// Notes the quotients of a number of up to eight digits: by 16 if it has more than four, and then by 4 if more than
// two are left.
fn note_up_to_eight(number: u64, turns: &mut Turns)
    requires { number < 256 }
    ensures { turns.new ≡ turns.old ++ loop_notes 2 number }
{
    if number < 16 {
        note_up_to_four::<2>(number, turns);
        return;
    }
    let left = number / 16;
    turns.tick(left);
    note_up_to_four::<2>(left, turns);
}

// Returns the number without its last eight digits.
fn remove_eight(value: u64, turns: &mut Turns) -> u64
    requires { 256 ≤ value }
    ensures left { result ≡ value / 256 }
    ensures notes { turns.new ++ loop_notes 2 result ≡ turns.old ++ loop_notes 2 value }
{
    let first = remove_four::<2>(value, turns);
    remove_four::<2>(first, turns)
}

// Writes a number of more than eight binary digits, from the last: eight per iteration while more than 16 are left. Of
// those, the first are written with zeros after them, eight characters in total, and then the last eight.
#[cold]
pub(super) fn write_binary(value: u64, buffer: &mut [u8], turns: &mut Turns) -> usize
    requires long { 256 ≤ value }
    requires room { digit_count 2 value ≤ length buffer.old }
    ensures digits { WritesDigits 2 value buffer.old buffer.new result }
    ensures notes { turns.new ≡ turns.old ++ table_notes 2 value }
{
    let count = count_of_nonzero(value, 2);
    let mut left = value;
    let mut at = count;
    while at > 16 {
        at -= 8;
        write_eight_bits(left % 256, buffer, at);
        left = remove_eight(left, turns);
    }
    let rest = remove_eight(left, turns);
    note_up_to_eight(rest, turns);
    // rustc tests the end of these bytes once.
    let written = &mut buffer[..at];
    write_eight_bits(rest << (16 - at), written, 0);
    write_eight_bits(left % 256, written, at - 8);
    count
}
