//! Answers lines: each line of an input requests the text of a number in a radix, and gets one line as
//! its answer. Also writes several numbers with a separator between adjacent ones.
//!
//! # Examples
//!
//! Each line names a type, a radix and a number. The input
//!
//! ```text
//! i8 10 -128
//! u8 +10 5
//! u8 10 256
//! u8 37 5
//! ```
//!
//! has the answers
//!
//! ```text
//! -128
//! +5
//! bad line 3
//! bad line 4
//! ```
//!
//! `run` reads lines from a source and writes their answers to a sink, and returns whether all lines are
//! valid. Both devices are here over slices:
//!
//! ```
//! use lexical_lines::{SliceSink, SliceSource, run};
//!
//! let mut buffer = [0; 40];
//! let mut sink = SliceSink::new(&mut buffer);
//! let valid = run(&mut SliceSource::new(b"i8 10 -128\nu8 37 5\n"), &mut sink).unwrap_or(false);
//! let length = sink.len();
//! assert!(rt; !valid);
//! assert_eq!(rt; &buffer[..length], b"-128\nbad line 2\n".as_slice());
//! ```
//!
//! `answer_reader` answers the lines of a reader in blocks of bytes, so that reads and writes are large, and
//! returns an exit status. The answers go to a `BlockWriter`, which here writes to a vector:
//!
//! ```
//! use lexical_lines::{BlockWriter, Writing, answer_reader};
//!
//! let mut writer = BlockWriter::<_, 7>::new(Writing::new(Vec::new(alloc)));
//! let status = answer_reader(b"i8 10 -128\nu8 37 5\n".as_slice(), &mut writer);
//! assert_eq!(rt; status, 1);
//! assert_eq!(rt; writer.into_inner().into_inner(), b"-128\nbad line 2\n");
//! ```
//!
//! `write_joined` writes several numbers, and `join` returns their text.
//!
//! No call allocates memory: the blocks are on the stack.

// The lines above are in `crates/tests/src/lines/answers.rt`. `answered` in
// `crates/uses/src/tests/streams.rt` is like the example of blocks, and `length_of_joined_texts`
// in `crates/uses/src/exact_conditions/texts.rt` calls `join`. A device records its own
// failures, since the traits of the standard library do not say that a call failed.
#![tactic(auto)]

// Several numbers with a separator between them.
mod joined_text;

// Answers: of a line, of bytes as they arrive, and of a whole input, and the exit status of the program.
mod answer;

// The devices that answers are written to and lines are read from.
mod devices;

// A line, its parts, and what it requests.
mod request;

// Answers to the lines of a source, in blocks.
mod stream_answers;

// Laws about lines and answers, for callers.
pub mod laws;

pub use answer::answerer::Answerer;
pub use answer::exit_status::status;
pub use answer::line_loop::run;
pub use devices::block_writer::BlockWriter;
pub use devices::sink::{BlockSink, ByteSink, put_all};
pub use devices::slice::{SliceSink, SliceSource, answer_slice};
pub use devices::source::{BlockSource, ByteSource};
pub use devices::stream::{Reading, Writing};
pub use devices::trace::Trace;
pub use joined_text::{join, write_joined};
pub use stream_answers::{answer_lines, answer_reader, answer_stream};
