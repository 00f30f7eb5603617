//! Finding the newline that ends a line.

ghost use Rattle.std.specs.Prelude.{◌≤◌, IfSome, IfNone, length, take};
ghost use Rattle.std.specs.Int.{to_le_bytes, w64};
ghost use Rattle.lexical_lines.specs.Lines.{IsFirstNewline, NoNewline};

/// The byte that ends a line.
pub const NEWLINE: u8 = b'\n';

// Returns the index of the first newline in the eight bytes of a word, or `None` if there is none.
fn newline_in(word: u64) -> Option<usize>
    ensures found { IfSome result (λ index. IsFirstNewline (to_le_bytes w64 word) index) }
    ensures none { IfNone result (NoNewline (to_le_bytes w64 word)) }
{
    // Each newline becomes 0, from which 1 cannot be subtracted without the bits above it. So bit 7 of the difference
    // is set in the first byte that is 0, and in no byte before it that has a bit 7 of 0.
    let left = word ^ 0x0a0a_0a0a_0a0a_0a0a;
    let found = left.wrapping_sub(0x0101_0101_0101_0101) & !left & 0x8080_8080_8080_8080;
    if found == 0 {
        None
    } else {
        Some(found.trailing_zeros() as usize / 8)
    }
}

// Returns the index of the first newline, or `None` if there is none. No newline precedes the index `start`.
fn newline_from(start: usize, bytes: &[u8]) -> Option<usize>
    requires within { start ≤ length bytes.now }
    requires before { NoNewline (take start bytes.now) }
    ensures found { IfSome result (λ index. IsFirstNewline bytes.now index) }
    ensures none { IfNone result (NoNewline bytes.now) }
{
    for index in start..bytes.len() {
        if bytes[index] == NEWLINE {
            return Some(index);
        }
    }
    None
}

/// Returns the index of the first newline, or `None` if there is none. It is found in eight bytes at a time.
pub fn first_newline(bytes: &[u8]) -> Option<usize>
    ensures found { IfSome result (λ index. IsFirstNewline bytes.now index) }
    ensures none { IfNone result (NoNewline bytes.now) }
{
    let mut start = 0;
    while bytes.len() - start >= 8 {
        let mut word = [0; 8];
        word.copy_from_slice(&bytes[start..start + 8]);
        if let Some(index) = newline_in(u64::from_le_bytes(word)) {
            return Some(start + index);
        }
        start += 8;
    }
    newline_from(start, bytes)
}
