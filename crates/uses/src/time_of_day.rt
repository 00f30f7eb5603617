//! Writes a time of day by calls that each write after the one before, and by a tuple that has a tuple.

ghost use Rattle.std.specs.Prelude.{◌≡◌, ◌/◌, ◌%◌, ◌<◌, ◌≤◌, length};
ghost use Rattle.lexical_write_integer.specs.Buffer.{Writes};
ghost use Rattle.lexical_write_integer.specs.Padded.{IsPadded};
ghost use Rattle.lexical_parts.specs.Sequence.{◌then◌, IsStr};

use lexical_parts::{Padded, Part};
use lexical_write_integer::buffer::copy_to_front;
use lexical_write_integer::padded::write_padded;

// Writes the two digits of an hour or a minute, and returns 2.
#[tactic(auto, using(lexical_write_integer::proofs::Sequences::written_first))]
fn write_two(number: u32, time: &mut [u8]) -> usize
    requires number { number < 60 }
    requires room { 2 ≤ length time.old }
    ensures text { Writes (IsPadded 10 2 number) time.old time.new result }
    ensures width { result ≡ 2 }
{
    write_padded(number, 10, &mut time[..2])
}

/// Writes the time, such as `07:05Z`, to the array, and returns its length. The argument is the number of
/// minutes since midnight, below 1440.
pub fn write_time(minutes: u32, time: &mut [u8; 6]) -> usize
    requires { minutes < 1440 }
    ensures { Writes (((IsPadded 10 2 (minutes / 60) then IsStr ":") then IsPadded 10 2 (minutes % 60))
        then IsStr "Z") time.old time.new result }
{
    let end = write_two(minutes / 60, time);
    let end = end + copy_to_front(b":", &mut time[end..]);
    let end = end + write_two(minutes % 60, &mut time[end..]);
    end + copy_to_front(b"Z", &mut time[end..])
}

/// Returns the hour and the minute, such as `07:05`, as bytes of the array. A tuple can be a member of another one.
pub fn hour_and_minute(hour: u8, minute: u8, buffer: &mut [u8; 5]) -> &[u8]
    requires hour { hour < 24 }
    requires minute { minute < 60 }
    ensures { (IsPadded 10 2 hour then IsStr ":" then IsPadded 10 2 minute) result.now }
{
    let before_minute = (Padded(hour, 2), ":");
    (before_minute, Padded(minute, 2)).to_text(buffer)
}
