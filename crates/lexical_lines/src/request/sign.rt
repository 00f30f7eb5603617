//! Removes an optional sign.

ghost use Rattle.std.specs.Prelude.{◌≡◌, [], ◌∷◌, ◌++◌, true};
ghost use Rattle.std.specs.Io.{StartsWith};
ghost use Rattle.lexical_lines.specs.Split.{optional_sign};

/// Returns whether the text begins with the sign, and the text without that sign.
pub fn strip_sign(sign: u8, text: &[u8]) -> (bool, &[u8])
    ensures whole { text.now ≡ optional_sign result.0 sign ++ result.1.now }
    ensures stripped { StartsWith text.now (sign ∷ []) → result.0 ≡ true }
{
    match text.split_first() {
        Some((first, rest)) if *first == sign => (true, rest),
        _ => (false, text),
    }
}
