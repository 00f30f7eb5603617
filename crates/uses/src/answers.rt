//! Collects the answers to lines in a vector.
#![tactic(auto, using(lexical_lines::proofs::Callers::callers))]

ghost use Rattle.std.specs.Prelude.{◌≡◌, ◌⊎◌, List, ℕ, ◌+◌, ◌++◌, IfOk, IsTrue, OnErr, OnOk};
ghost use Rattle.lexical_lines.specs.Answer.{AnswersAll};
ghost use Rattle.lexical_lines.specs.RunOutcome.{added, ReportsAllValid, BreaksOff};
ghost use Rattle.lexical_lines.specs.Source.{failures_of};

use lexical_lines::{Answerer, ByteSink, ByteSource, Writing, run};
use std::alloc::Global;
use std::io;

/// Reads a source to its end, and returns the answers to its lines. The error is that of the source, or
/// an allocation failure during the answer to a line.
pub fn answers_to<S: ByteSource>(alloc: Global, source: &mut S) -> io::Result<Vec<u8>>
    ensures ended { OnOk result (IsTrue (S.is_ended source.new)) }
    ensures answers { IfOk result (λ answers.
        AnswersAll (added (S.yielded source.old) (S.yielded source.new)) answers.items) }
    ensures err { OnErr result ((S.failures source.new ≡ S.failures source.old + 1)
        ⊎ ((put : List ℕ) × BreaksOff (S.is_ended source.new)
        (added (S.yielded source.old) (S.yielded source.new)) put)) }
{
    let mut sink = Writing::new(Vec::new(alloc));
    run(source, &mut sink)?;
    Ok(sink.into_inner())
}

/// Writes the answers to the lines of a text, which is passed in two chunks, to a sink, and returns
/// whether all lines are valid. A line may begin in the first chunk and end in the second. The error is
/// that of the sink.
pub fn answer_pieces<K: ByteSink>(first: &[u8], second: &[u8], sink: &mut K) -> io::Result<bool>
    ensures answers { OnOk result (AnswersAll (first.now ++ second.now)
        (added (K.taken sink.old) (K.taken sink.new))) }
    ensures valid { IfOk result (λ all_valid. ReportsAllValid (first.now ++ second.now) all_valid) }
    ensures failures { K.failures sink.new ≡ K.failures sink.old + failures_of result }
{
    let mut answerer = Answerer::new();
    answerer.push_all(first, sink)?;
    answerer.push_all(second, sink)?;
    let all_valid = answerer.finish(sink)?;
    Ok(all_valid)
}
