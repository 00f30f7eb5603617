//! The loop that reads bytes and answers lines.

ghost use Rattle.std.specs.Prelude.{◌≡◌, ◌⊎◌, ℕ, ◌++◌, IfOk, OnErr};
ghost use Rattle.lexical_lines.specs.RunOutcome.{added, RunAnswered, SourceFailed, SinkFailed};

use crate::answer::answerer::Answerer;
use crate::devices::sink::ByteSink;
use crate::devices::source::ByteSource;
use std::io;

/// Reads lines from `source`, and writes the answer to each line to `sink` before it reads the next
/// byte. Returns whether all lines are valid.
///
/// Each newline ends a line. If there are bytes after the last newline, they are a line too. A valid
/// line has at most 64 bytes: the name of one of the ten integer types, a space, an optional `+`, a
/// radix from `2` to `36`, a space, and a decimal number of the type. The number may have leading
/// zeros, and if the type is signed, a `-` before its digits.
///
/// The answer to a valid line is the text of the number in the radix. If the line has the `+`, the
/// text of a number that is not negative begins with that sign. The answer to any other line is
/// `bad line ` and the number of the line; the first line is line 1. Each answer ends with a newline.
///
/// # Errors
///
/// The error of the first failure of a device, which ends the run.
#[tactic(auto, using(crate::proofs::Added::grown))]
pub fn run<S: ByteSource, K: ByteSink>(source: &mut S, sink: &mut K) -> io::Result<bool>
    // The run only appends to what the source has yielded and to what the sink has taken.
    ensures yielded { S.yielded source.new
        ≡ S.yielded source.old ++ added (S.yielded source.old) (S.yielded source.new) }
    ensures taken { K.taken sink.new
        ≡ K.taken sink.old ++ added (K.taken sink.old) (K.taken sink.new) }
    ensures kept_source { S.keeps source.old source.new }
    ensures kept_sink { K.keeps sink.old sink.new }

    // If the run succeeds, no device failed, the source reported its end, and all lines are answered.
    ensures ok { IfOk result (λ all_valid.
        let bytes = added (S.yielded source.old) (S.yielded source.new) in
        let put = added (K.taken sink.old) (K.taken sink.new) in
        let before : ℕ × ℕ = (S.failures source.old, K.failures sink.old) in
        let after : ℕ × ℕ = (S.failures source.new, K.failures sink.new) in
        RunAnswered before after (S.is_ended source.new) bytes put all_valid) }

    // If the run fails, either the source failed, and all lines that ended are answered, or the sink
    // failed during the answer to the last line. The error is not named.
    ensures err { OnErr result
        (let bytes = added (S.yielded source.old) (S.yielded source.new) in
        let put = added (K.taken sink.old) (K.taken sink.new) in
        let before : ℕ × ℕ = (S.failures source.old, K.failures sink.old) in
        let after : ℕ × ℕ = (S.failures source.new, K.failures sink.new) in
        SourceFailed before after bytes put ⊎ SinkFailed before after (S.is_ended source.new) bytes put) }
{
    let mut answerer = Answerer::new();
    while let Some(byte) = source.next()? {
        answerer.push(byte, sink)?;
    }
    // The last line may have no newline.
    answerer.finish(sink)
}
