//! Laws about lines and their answers. Each contract is a law over the definitions: a caller calls the
//! function to use the law.

ghost use Rattle.std.specs.Prelude.{◌≡◌, List, ℕ, ℤ};
ghost use Rattle.lexical_write_integer.specs.Read.{AreReadAs};
ghost use Rattle.lexical_lines.specs.Answer.{AnswersAll, IsAnsweredBy};
ghost use Rattle.lexical_lines.specs.Lines.{AreLines};
ghost use Rattle.lexical_lines.specs.Request.{IsRequestFor};

/// A law: every input is cut into lines in exactly one way. This function does nothing.
pub fn lines_unique(input: &[u8])
    ensures exists { (all : List (List ℕ)) × AreLines input.now all }
    ensures only { (all other : List (List ℕ)) → AreLines input.now all → AreLines input.now other → all ≡ other }
{}

/// A law: two texts that are both the answers to one input are equal. This function does nothing.
pub fn answers_unique(input: &[u8], a: &[u8], b: &[u8])
    requires a { AnswersAll input.now a.now }
    requires b { AnswersAll input.now b.now }
    ensures { a.now ≡ b.now }
{}

/// A law: if a line requests a number in a radix, std reads its answer, without the newline, back as that number, at
/// each type that has the number. In radix 10 `parse` does the same. This function does nothing.
pub fn answer_read_back(line: &[u8])
    ensures { (radix : ℕ) (number : ℤ) → IsRequestFor radix number line.now
        → AreReadAs radix number (IsAnsweredBy line.now) }
{}
