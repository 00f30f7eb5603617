//! The answers to the lines of a slice, in a vector.

ghost use Rattle.std.specs.Prelude.{◌-◌, ◌^◌, ◌≤◌, take};
ghost use Rattle.lexical_lines.specs.Answer.{AnswersAll};

use super::check;
use lexical_lines::{BlockWriter, Writing, answer_reader};
use std::alloc::Global;

// Returns the exit status, and the answers to the lines of a slice.
fn answered(alloc: Global, bytes: &[u8]) -> (u8, Vec<u8>)
    ensures { result.0 ≤ 1 → AnswersAll (take (2 ^ 63 - 1) bytes.now) result.1.items }
{
    let mut writer = BlockWriter::<_, 7>::new(Writing::new(Vec::new(alloc)));
    let status = answer_reader(bytes, &mut writer);
    (status, writer.into_inner().into_inner())
}

#[test]
fn answers_go_into_a_vector(rt: HostRuntime) {
    let (status, answers) = answered(rt.alloc(), b"u8 10 5\nu8 2 256\ni8 16 -128");
    check(&rt, status, 1);
    check(&rt, answers.as_slice(), b"5\nbad line 2\n-80\n".as_slice());
}
