//! Prints a number, a day and a row.
#![tactic(auto)] // the toolchain looks for the proofs by itself

use lexical_parts::{Joined, Padded, Part};
use lexical_write_integer::ToLexical;
use std::io;

fn main(rt: HostRuntime) -> io::Result<()> {
    let mut buffer = [0; 64];
    let text = 1234u64.to_lexical(&mut buffer);
    rt.write_all(text)?;
    let day = ("\n", Padded(11u8, 2), "-", Padded(3u8, 2), "\n");
    rt.write_all(day.to_text(&mut buffer))?;
    let row = (Joined(&[1i64, -2, 3], ","), "\n");
    rt.write_all(row.to_text(&mut buffer))
}
