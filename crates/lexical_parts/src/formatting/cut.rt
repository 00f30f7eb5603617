//! The first characters of a text that is written in pieces, and how many they are.

ghost use Rattle.std.specs.Fmt.{WritesInCalls, char_count, is_char_start, take_chars};
ghost use Rattle.std.specs.Prelude.{◌≡◌, ℕ, ◌-◌, IfOk, List, [], take};

use crate::show::Show;
use std::fmt;

// A writer of the first characters of what is written to it.
#[derive(Drop)]
struct Cut<'a, O> {
    out: &'a mut O,
    // How many more characters it writes.
    left: usize,
}

impl<O: fmt::Write> fmt::Write for Cut<'_, O> {
    ghost write_str_gives = { λ s bytes t. (t.out.ghost_name ≡ s.out.ghost_name) × (take_chars 0 bytes ≡ [])
        × WritesInCalls O.write_str_gives s.out.now (take_chars s.left bytes) t.out.now
        × (t.left ≡ s.left - char_count bytes) };

    fn write_str(&mut self, text: &str) -> fmt::Result {
        let (end, left) = end_of_chars(text.as_bytes(), self.left);
        match text.get(..end) {
            Some(first) => {
                self.left = left;
                self.out.write_str(first)
            }
            None => Err(fmt::Error),
        }
    }
}

// Returns where the first `most` characters of the text end, and how many fewer than `most` it has.
fn end_of_chars(text: &[u8], most: usize) -> (usize, usize)
    ensures end { take result.0 text.now ≡ take_chars most text.now }
    ensures left { result.1 ≡ most - char_count text.now }
{
    let mut left = most;
    for (index, byte) in text.iter().enumerate() {
        if is_char_start(*byte) {
            if left == 0 {
                return (index, 0);
            }
            left -= 1;
        }
    }
    (text.len(), left)
}

// Returns whether the byte is the first of a character.
fn is_char_start(byte: u8) -> bool
    ensures { result ≡ is_char_start byte }
{
    !(128..192).contains(&byte)
}

// Writes the first `most` characters of the text, and returns how many fewer than that it has.
pub(crate) fn write_first_chars<P: Show, O: fmt::Write>(
    part: P,
    most: usize,
    out: &mut O,
) -> Result<usize, fmt::Error>
    ensures { IfOk result (λ left. (text : List ℕ) × P.is_text part text
        × WritesInCalls O.write_str_gives out.old (take_chars most text) out.new × (left ≡ most - char_count text)) }
{
    let mut cut = Cut { out, left: most };
    part.write_pieces(&mut cut)?;
    let left = cut.left;
    // No effect at run time, but by this use it is known what the writer is now.
    let Cut { out, .. } = cut;
    let _ = &*out;
    Ok(left)
}

// A writer that writes nothing.
#[derive(Drop)]
pub(crate) struct Nowhere;

impl fmt::Write for Nowhere {
    fn write_str(&mut self, _text: &str) -> fmt::Result {
        Ok(())
    }
}
