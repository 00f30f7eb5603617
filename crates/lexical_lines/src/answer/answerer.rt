//! Answers lines whose bytes arrive in chunks.

ghost use Rattle.std.specs.Prelude.{◌≡◌, ◌≤◌, ℕ, List, [], ◌∷◌, ◌++◌, ◌<◌, length, take, false, true, IfOk, IfSome};
ghost use Rattle.std.specs.Prelude.{OnOk, OnErr, IfNone};
ghost use Rattle.std.specs.Io.{StartsWith};
ghost use Rattle.lexical_lines.specs.Answer.{AnswersAll};
ghost use Rattle.lexical_lines.specs.Answerer.{HasAnswered, PutsMore};
ghost use Rattle.lexical_lines.specs.Lines.{NoNewline};
ghost use Rattle.lexical_lines.specs.Sink.{IsBeginning};
ghost use Rattle.lexical_lines.specs.RunOutcome.{added, ReportsAllValid, BreaksOff};

use crate::answer::newline::{NEWLINE, first_newline};
use crate::answer::{MAX_ANSWER, write_answer};
use crate::devices::sink::{ByteSink, put_all};
use crate::request::line::Line;
use std::io;

/// Answers lines whose bytes arrive in chunks. The answer to a line is the text of the number that the
/// line requests, or `bad line` and the number of the line; the documentation of `lexical_lines::run` has the details.
/// An answerer writes the answer to a sink as soon as it gets the newline that ends the line.
///
/// An answerer keeps the line that has not ended yet, the number of that line, and whether all lines
/// before it are valid. It must not be used again after an error.
#[derive(Drop)]
pub struct Answerer {
    line: Line,
    line_number: u64,
    all_valid: bool,
    // The buffer for an answer. It is a field so that it is zeroed once and not for each line.
    answer: [u8; MAX_ANSWER],
}

impl Answerer {
    /// Returns an answerer that has received no bytes.
    #[tactic(auto, unfolding(crate::specs::Answerer::HasAnswered))]
    pub fn new() -> Answerer
        ensures { HasAnswered [] [] result }
    {
        Answerer {
            line: Line::new(),
            line_number: 1,
            all_valid: true,
            answer: [0; MAX_ANSWER],
        }
    }

    /// Takes the next byte. If it is a newline, the answer to the line that it ends is written to `sink`.
    ///
    /// # Errors
    ///
    /// An error of the sink at this answer.
    pub fn push<K: ByteSink>(&mut self, byte: u8, sink: &mut K) -> io::Result<()>
        // After an error the answerer is of no more use. `err` says what was written.
        ensures ok { OnOk result ((read written : List ℕ) → HasAnswered read written self.old
            → HasAnswered (read ++ byte ∷ []) (written ++ added (K.taken sink.old) (K.taken sink.new)) self.new) }
        ensures err { OnErr result ((read written : List ℕ) → HasAnswered read written self.old
            → BreaksOff false (read ++ byte ∷ []) (written ++ added (K.taken sink.old) (K.taken sink.new))) }
        ensures puts { PutsMore K.taken K.failures K.keeps sink.old sink.new result }
    {
        self.push_all(&[byte], sink)
    }

    /// Takes the next bytes, as a call of `push` for each of them would, and stops at the first error.
    ///
    /// # Errors
    ///
    /// An error of the sink at the answer to a line that ends in `bytes`.
    pub fn push_all<K: ByteSink>(&mut self, bytes: &[u8], sink: &mut K) -> io::Result<()>
        ensures ok { OnOk result ((read written : List ℕ) → HasAnswered read written self.old
            → HasAnswered (read ++ bytes.now) (written ++ added (K.taken sink.old) (K.taken sink.new)) self.new) }
        ensures err { OnErr result ((read written : List ℕ) → HasAnswered read written self.old
            → (front : List ℕ) × (0 < length front) × StartsWith bytes.now front
            × BreaksOff false (read ++ front) (written ++ added (K.taken sink.old) (K.taken sink.new))) }
        ensures puts { PutsMore K.taken K.failures K.keeps sink.old sink.new result }
    {
        let mut rest = bytes;
        while let Some((tail, more)) = split_line(rest) {
            let count = self.answer_line(tail);
            let (_, put) = put_all(sink, &self.answer[..count]);
            put?;
            rest = more;
        }
        self.line.push_all(rest);
        Ok(())
    }

    // Takes `tail`, the last bytes of a line, and the newline after them. Writes the answer to the line to
    // the start of its buffer, and returns its length.
    fn answer_line(&mut self, tail: &[u8]) -> usize
        requires { NoNewline tail.now }
        ensures within { result ≤ MAX_ANSWER }
        ensures whole { (read written : List ℕ) → HasAnswered read written self.old
            → HasAnswered (read ++ (tail.now ++ 10 ∷ [])) (written ++ take result self.new.answer) self.new }
        ensures part { (read written part : List ℕ) → HasAnswered read written self.old
            → IsBeginning part (take result self.new.answer)
            → BreaksOff false (read ++ (tail.now ++ 10 ∷ [])) (written ++ part) }
    {
        let line = self.line.ended_with(tail);
        let (count, is_valid) = write_answer(line, self.line_number, &mut self.answer);
        self.line.clear();
        self.line_number = self.line_number.saturating_add(1);
        self.all_valid &= is_valid;
        count
    }

    /// Ends the input, and returns whether all lines are valid. If there are bytes after the last
    /// newline, they are a line too, and the answer to it is written first.
    ///
    /// # Errors
    ///
    /// An error of the sink at this answer.
    pub fn finish<K: ByteSink>(mut self, sink: &mut K) -> io::Result<bool>
        ensures ok { OnOk result ((read written : List ℕ) → HasAnswered read written self
            → AnswersAll read (written ++ added (K.taken sink.old) (K.taken sink.new))) }
        ensures valid { IfOk result (λ all_valid. (read written : List ℕ)
            → HasAnswered read written self → ReportsAllValid read all_valid) }
        ensures err { OnErr result ((read written : List ℕ) → HasAnswered read written self
            → BreaksOff true read (written ++ added (K.taken sink.old) (K.taken sink.new))) }
        ensures puts { PutsMore K.taken K.failures K.keeps sink.old sink.new result }
    {
        if self.line.is_empty() {
            return Ok(self.all_valid);
        }
        self.push(NEWLINE, sink)?;
        Ok(self.all_valid)
    }
}

// Returns the bytes before the first newline and the bytes after it, or `None` if there is no newline.
fn split_line(bytes: &[u8]) -> Option<(&[u8], &[u8])>
    ensures found { IfSome result (λ parts. bytes.now ≡ parts.0.now ++ 10 ∷ parts.1.now) }
    ensures first { IfSome result (λ parts. NoNewline parts.0.now) }
    ensures none { IfNone result (NoNewline bytes.now) }
{
    let end = first_newline(bytes)?;
    Some((&bytes[..end], &bytes[end + 1..]))
}
