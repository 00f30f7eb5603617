//! The length of a text that is written in pieces.

ghost use Rattle.std.specs.Fmt.{WritesInCalls};
ghost use Rattle.std.specs.Prelude.{◌≡◌, ◌+◌, IsOk, length};
ghost use Rattle.lexical_parts.specs.Length.{IsOfLength};
ghost use Rattle.lexical_parts.specs.ShownParts.{WritesSome};

use crate::formatting::cut::Nowhere;
use crate::show::Show;
use std::fmt;

// A writer that passes on a limited number of bytes.
#[derive(Drop)]
struct Limited<'a, O> {
    out: &'a mut O,
    // How many more bytes it passes on.
    left: usize,
}

impl<O: fmt::Write> fmt::Write for Limited<'_, O> {
    ghost write_str_gives = { λ s bytes t. (t.out.ghost_name ≡ s.out.ghost_name)
        × WritesInCalls O.write_str_gives s.out.now bytes t.out.now × (length bytes + t.left ≡ s.left) };

    fn write_str(&mut self, text: &str) -> fmt::Result {
        match self.left.checked_sub(text.len()) {
            Some(left) => {
                self.left = left;
                self.out.write_str(text)
            }
            None => Err(fmt::Error),
        }
    }
}

// Returns the length of the text. If the part does not know it, the text is written to count its bytes. No clause says
// that the count is right: `write_exactly` compares it with what is then written.
pub(crate) fn count_bytes<P: Show>(part: P) -> Result<usize, fmt::Error>
    requires valid { P.is_valid part }
    requires utf8 { P.is_utf8 part }
{
    if let Some(count) = part.text_len() {
        return Ok(count);
    }
    let mut nowhere = Nowhere;
    let mut limited = Limited {
        out: &mut nowhere,
        left: usize::MAX,
    };
    part.write_pieces(&mut limited)?;
    Ok(usize::MAX.saturating_sub(limited.left))
}

// Writes a text of this length, or returns an error if the part has another one.
pub(crate) fn write_exactly<P: Show, O: fmt::Write>(
    part: P,
    count: usize,
    out: &mut O,
) -> fmt::Result
    ensures { IsOk result → WritesSome O.write_str_gives (IsOfLength (P.is_text part) count) out.old out.new }
{
    let mut limited = Limited { out, left: count };
    part.write_pieces(&mut limited)?;
    let left = limited.left;
    // No effect at run time, but by this use it is known what the writer is now.
    let Limited { out, .. } = limited;
    let _ = &*out;
    if left == 0 { Ok(()) } else { Err(fmt::Error) }
}
