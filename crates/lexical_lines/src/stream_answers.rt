//! Answers the lines of a source, and writes the answers to a sink, both in blocks of bytes.

ghost use Rattle.std.specs.Prelude.{◌≡◌, ◌⊎◌, ◌≤◌, true, false, []};
ghost use Rattle.std.specs.Prelude.{IfSome, IfOk, OnOk, OnErr};
ghost use Rattle.lexical_lines.specs.BlockWriter.{TakesMore};
ghost use Rattle.lexical_lines.specs.RunOutcome.{ReportsAllValid};
ghost use Rattle.lexical_lines.specs.StreamAnswers.{AllAnswered, FailsAfter, OneFailed, ReadFailed, WriteFailed};
ghost use Rattle.lexical_lines.specs.StreamAnswers.{WritesAllAnswers, Yields, bytes_read};

use crate::answer::answerer::Answerer;
use crate::answer::exit_status::status;
use crate::devices::block_writer::BlockWriter;
use crate::devices::sink::BlockSink;
use crate::devices::source::BlockSource;
use crate::devices::stream::{Reading, Writing};
use std::io;
use std::io::Read;

// The writer is flushed before each read, so a larger block leads to fewer, longer writes. It is on the stack, where
// 128 KiB leave room even in a thread of 1 MiB.
const READ_BLOCK: usize = 128 * 1024;

const WRITE_BLOCK: usize = 16 * 1024;

/// Answers the lines of standard input on standard output with `answer_reader`, and returns the exit
/// status. It writes blocks of 16 KiB.
pub fn answer_lines(rt: HostRuntime) -> u8
    ensures { result ≤ 2 }
{
    let mut writer = BlockWriter::<_, WRITE_BLOCK>::new(Writing::new(io::writer(&rt)));
    answer_reader(rt.reader(), &mut writer)
}

/// Answers the lines of a reader with `answer_stream`, and returns the exit status. The writer must not have
/// failed. Of a longer input only the first 2^63 - 1 bytes are read.
///
/// # Not checked
///
/// Rust does not check that the writer has not failed. Otherwise the answers follow what the writer has taken.
pub fn answer_reader<R: Read + Drop, K: BlockSink, const SIZE: usize>(
    reader: R,
    writer: &mut BlockWriter<K, SIZE>,
) -> u8
    requires { writer.old.failures ≡ 0 }
    ensures range { result ≤ 2 }
    // If the status is 0 or 1, the sink has taken what was in the block, the answers to all lines, and nothing else.
    ensures answered { result ≤ 1 → WritesAllAnswers (R.remaining reader) writer.old writer.new }
    ensures valid { result ≡ 0 → IfSome (R.remaining reader) (λ bytes. ReportsAllValid (bytes_read bytes) true) }
    ensures bad { result ≡ 1 → IfSome (R.remaining reader) (λ bytes. ReportsAllValid (bytes_read bytes) false) }
    // If the status is 2, a read, or a write or flush, failed. std's `Read` does not say whether a read has failed, so
    // it is not said which.
    ensures failed { result ≡ 2 → FailsAfter (R.remaining reader) writer.old writer.new }
{
    answer_stream(&mut Reading::whole(reader), writer)
}

/// Reads lines and writes their answers, as `run` does for a source and a sink, and then flushes the writer.
/// Returns the exit status: 0 if all lines are valid, 1 if a line is invalid, and 2 if a read, a write
/// or a flush failed. The source must be new, that is, it must not have yielded any bytes, and neither
/// device may have failed before.
///
/// When a read begins, every line that has ended is answered, and the answers are written and flushed.
/// So an answer never waits for the next line. A failure ends the call.
///
/// The block of 128 KiB that is read into is on the stack. With a `BlockWriter` of 16 KiB, a call uses
/// about 160 KB of stack (180 KB if Rattle's own compiler builds it), and no other memory.
///
/// # Not checked
///
/// Rust does not check that both devices are new. Otherwise only the rest of the input is answered, after what the
/// writer has taken.
pub fn answer_stream<S: BlockSource, K: BlockSink, const SIZE: usize>(
    source: &mut S,
    writer: &mut BlockWriter<K, SIZE>,
) -> u8
    requires fresh { S.yielded source.old ≡ [] }
    requires no_failure { (S.failures source.old ≡ 0) × (writer.old.failures ≡ 0) }
    ensures range { result ≤ 2 }
    // The bytes that `source` yielded were read, in order. The bytes that `writer` took are written to its
    // sink in order, or are still in its block.
    ensures read { Yields S.yielded S.remaining S.unread S.is_ended source.old source.new (S.yielded source.new) }
    ensures written { TakesMore writer.old writer.new }
    // If the status is 0 or 1, no device failed, and the answers to all lines are written and flushed.
    ensures answered { result ≤ 1 → AllAnswered (S.failures source.new) (S.unread source.old)
        (S.is_ended source.new) (S.yielded source.new) writer.old writer.new }
    ensures valid { result ≡ 0 → ReportsAllValid (S.yielded source.new) true }
    ensures bad { result ≡ 1 → ReportsAllValid (S.yielded source.new) false }
    // If the status is 2, one read failed, and the answers to all lines that had ended are written and
    // flushed; or one write or flush failed, and the bytes that `writer` took are a prefix of the answers.
    ensures failed { result ≡ 2
        → ReadFailed (S.failures source.new) (S.yielded source.new) writer.old writer.new
        ⊎ WriteFailed (S.failures source.new) (S.is_ended source.new) (S.yielded source.new) writer.old writer.new }
{
    // `Ok` also says that the last flush succeeded.
    status(&answer_blocks(source, writer), true)
}

// Answers all lines of the source, up to the first failure of a device, and flushes the writer before each
// read and at the end. Returns whether all lines are valid.
fn answer_blocks<S: BlockSource, K: BlockSink, const SIZE: usize>(
    source: &mut S,
    writer: &mut BlockWriter<K, SIZE>,
) -> io::Result<bool>
    requires fresh { S.yielded source.old ≡ [] }
    requires no_failure { (S.failures source.old ≡ 0) × (writer.old.failures ≡ 0) }
    ensures ok { OnOk result (AllAnswered (S.failures source.new) (S.unread source.old)
        (S.is_ended source.new) (S.yielded source.new) writer.old writer.new) }
    ensures valid { IfOk result (λ all_valid. ReportsAllValid (S.yielded source.new) all_valid) }
    ensures err { OnErr result (OneFailed (S.failures source.new) (S.is_ended source.new) (S.yielded source.new)
        writer.old writer.new) }
    ensures read { Yields S.yielded S.remaining S.unread S.is_ended source.old source.new (S.yielded source.new) }
    ensures written { TakesMore writer.old writer.new }
{
    let mut block = [0u8; READ_BLOCK];
    let mut answerer = Answerer::new();
    loop {
        // A read may wait for input. Here all lines that have ended are answered.
        writer.flush()?;
        let count = source.read_block(&mut block)?;
        if count == 0 {
            break;
        }
        answerer.push_all(&block[..count], writer)?;
    }
    let all_valid = answerer.finish(writer)?;
    writer.flush()?;
    Ok(all_valid)
}
