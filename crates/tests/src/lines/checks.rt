//! The assertions of the tests of lines. Each failure shows the row of the test, which has its inputs.

ghost use Rattle.std.specs.Prelude.{◌≡◌, ◌≤◌, IfOk, Ok};

use crate::checks::check_equal;
use crate::lines::devices::TestWriter;
use lexical_lines::{
    ByteSink, ByteSource, SliceSink, SliceSource, Writing, answer_slice, run, status,
};
use std::fmt::Debug;
use std::io;
use std::io::ErrorKind;
use std::process::Abort;

/// What the buffers of the tests contain before a call.
pub const UNCHANGED: [u8; 256] = [b'.'; 256];

/// How a run should end: whether all lines are valid, or the kind of its error.
pub type Outcome = Result<bool, ErrorKind>;

/// Returns the value, or the kind of the error.
pub fn kind_of(outcome: io::Result<usize>) -> Result<usize, ErrorKind>
    ensures { IfOk result (λ value. outcome ≡ Ok value) }
{
    match outcome {
        Ok(value) => Ok(value),
        Err(error) => Err(error.kind()),
    }
}

/// Checks that the buffer begins with the text, and that every byte after it is unchanged.
pub fn check_buffer<R: Copy + Debug + Drop>(rt: &impl Abort, row: R, buffer: &[u8], text: &[u8]) {
    let (written, rest) = buffer.split_at(text.len().min(buffer.len()));
    check_equal(rt, row, written, text);
    check_equal(rt, row, UNCHANGED.ends_with(rest), true);
}

/// Checks how a run ended, and the exit status if the last flush succeeds and if it fails.
pub fn check_outcome<R: Copy + Debug + Drop>(
    rt: &impl Abort,
    row: R,
    ran: io::Result<bool>,
    expected: Outcome,
) {
    let wanted = match expected {
        Ok(true) => 0,
        Ok(false) => 1,
        Err(_) => 2,
    };
    check_equal(
        rt,
        row,
        [status(&ran, true), status(&ran, false)],
        [wanted, 2],
    );
    let outcome = match ran {
        Ok(all_valid) => Ok(all_valid),
        Err(error) => Err(error.kind()),
    };
    check_equal(rt, row, outcome, expected);
}

/// Answers the lines of the source in a buffer of `room` bytes, and checks what was written and how the run
/// ended.
pub fn check_run<R: Copy + Debug + Drop, S: ByteSource>(
    rt: &impl Abort,
    row: R,
    source: &mut S,
    room: usize,
    output: &[u8],
    expected: Outcome,
)
    requires { room ≤ 256 }
{
    let mut buffer = UNCHANGED;
    let mut sink = SliceSink::new(&mut buffer[..room]);
    let ran = run(source, &mut sink);
    check_equal(rt, row, sink.len(), output.len());
    check_buffer(rt, row, &buffer, output);
    check_outcome(rt, row, ran, expected);
}

/// Answers the input with `run` and with `answer_slice`, each in a buffer of `room` bytes.
pub fn check_slice<R: Copy + Debug + Drop>(
    rt: &impl Abort,
    row: R,
    input: &[u8],
    room: usize,
    output: &[u8],
    expected: Outcome,
)
    requires { room ≤ 256 }
{
    check_run(
        rt,
        row,
        &mut SliceSource::new(input),
        room,
        output,
        expected,
    );
    let mut buffer = UNCHANGED;
    let count = answer_slice(input, &mut buffer[..room]);
    let wanted = if expected.is_ok() {
        Some(output.len())
    } else {
        None
    };
    check_equal(rt, row, count, wanted);
    check_buffer(rt, row, &buffer, output);
}

/// Checks what a call of the sink returns.
pub fn check_put(
    rt: &impl Abort,
    sink: &mut Writing<TestWriter<'_>>,
    bytes: &[u8],
    expected: Result<usize, ErrorKind>,
) {
    check_equal(rt, bytes, kind_of(sink.put(bytes)), expected);
}

/// Checks how often a writer was called, and what it has taken.
pub fn check_taker(
    rt: &impl Abort,
    taker: &TestWriter<'_>,
    writes: usize,
    flushes: usize,
    text: &[u8],
) {
    check_equal(rt, "writes", taker.writes, writes);
    check_equal(rt, "flushes", taker.flushes, flushes);
    check_equal(rt, "the text", taker.taken(), Some(text));
}
