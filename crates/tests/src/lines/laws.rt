//! Every input has answers, since a run computes them.

ghost use Rattle.std.specs.Prelude.{◌≡◌, ◌++◌, ℕ, List, refl};
ghost use Rattle.std.proofs.Common.{◌∙◌};
ghost use Rattle.lexical_lines.specs.Answer.{AnswersAll};

use crate::checks::check_equal;
use lexical_lines::{ByteSink, SliceSource, Trace, run};
use std::io;

// A sink that counts the bytes, and does not keep them.
#[derive(Drop)]
struct CountingSink {
    count: usize,
    trace: Trace,
}

impl ByteSink for CountingSink {
    ghost taken = { λ s. s.trace.bytes };

    ghost failures = { λ s. s.trace.failures };

    ghost keeps = { λ a b. b.trace.failures ≡ a.trace.failures };

    ghost keeps_reflexive = { λ a. refl };

    ghost keeps_transitive = { λ a b c p q. q ∙ p };

    fn put(&mut self, bytes: &[u8]) -> io::Result<usize> {
        self.count = self.count.saturating_add(bytes.len());
        self.trace.note(bytes);
        Ok(bytes.len())
    }
}

// Returns the length of the answers.
fn answers_exist(input: &[u8]) -> usize
    ensures { (text : List ℕ) × AnswersAll input.now text }
{
    let mut sink = CountingSink {
        count: 0,
        trace: Trace::new(),
    };
    let _all_good = run(&mut SliceSource::new(input), &mut sink);
    sink.count
}

#[test]
fn every_input_has_answers(rt: HostRuntime) {
    check_equal(&rt, "length", answers_exist(b"u8 10 5\nu8 2 5\n8"), 17);
}
