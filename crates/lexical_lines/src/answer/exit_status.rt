//! The exit status of the program.

ghost use Rattle.std.specs.Prelude.{◌≡◌};
ghost use Rattle.lexical_lines.specs.ExitStatus.{status_of};

use std::io;

/// Returns the exit status of the program: 0 if all lines are valid, 1 if a line is invalid, and 2 if
/// `ran` is an error or the last flush failed. `flushed` is whether that flush succeeded.
pub fn status(ran: &io::Result<bool>, flushed: bool) -> u8
    ensures { result ≡ status_of ran.now flushed }
{
    match ran {
        Ok(true) if flushed => 0,
        Ok(false) if flushed => 1,
        _ => 2,
    }
}
