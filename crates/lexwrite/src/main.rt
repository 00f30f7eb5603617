//! Reads lines from standard input, and writes their answers to standard output. The exit status is
//! 0 if all lines are valid, 1 if a line is invalid, and 2 if the input or the output failed.
#![tactic(auto)]

use lexical_lines::answer_lines;
use std::process::ExitCode;

fn main(rt: HostRuntime) -> ExitCode {
    ExitCode::from(answer_lines(rt))
}
