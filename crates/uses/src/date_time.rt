//! A date with a time of day, which is a part of a text that a caller defines, and a timestamp that contains it.

ghost use Rattle.std.specs.Prelude.{◌≡◌, ◌<◌, ◌≤◌, length, true, unsigned_abs, ⊤};
ghost use Rattle.lexical_num.specs.Sign.{sign_of};

use lexical_parts::{Padded, Part, Sign};

/// A date with a time of day, whose text is as in `2026-11-23T07:05:09`.
#[derive(Clone, Copy, Drop)]
pub struct DateTime {
    /// The year, of at most four digits.
    pub year: u16,
    /// The month.
    pub month: u8,
    /// The day of the month.
    pub day: u8,
    /// The hour of the day.
    pub hour: u8,
    /// The minute of the hour.
    pub minute: u8,
    /// The second of the minute.
    pub second: u8,
    ghost year_fits: { year < 10000 },
    ghost month_fits: { month < 100 },
    ghost day_fits: { day < 100 },
    ghost hour_fits: { hour < 100 },
    ghost minute_fits: { minute < 100 },
    ghost second_fits: { second < 100 },
}

impl Part for DateTime {
    ghost use Rattle.uses.specs.DateTime.{IsDateTime};

    ghost is_text = { IsDateTime };

    ghost is_valid = { λ _. ⊤ };

    ghost room = { λ _. 19 };

    fn room(self) -> usize {
        19
    }

    fn write_to(self, buffer: &mut [u8]) -> usize {
        (
            Padded(self.year, 4),
            "-",
            Padded(self.month, 2),
            "-",
            Padded(self.day, 2),
            "T",
            Padded(self.hour, 2),
            ":",
            Padded(self.minute, 2),
            ":",
            Padded(self.second, 2),
        )
            .write_to(buffer)
    }
}

/// The length of a timestamp.
pub const TIMESTAMP_SIZE: usize = "2026-11-23T07:05:09.042+01:00".len();

impl DateTime {
    ghost use Rattle.uses.specs.DateTime.{IsTimestamp};

    /// Returns the timestamp of RFC 3339 with these milliseconds and this offset from UTC, such as
    /// `2026-11-23T07:05:09.042+01:00`, which borrows the array. The offset is in minutes, and less than
    /// a day.
    pub fn timestamp(self, millisecond: u16, offset: i16, buffer: &mut [u8; TIMESTAMP_SIZE]) -> &str
        requires millisecond { millisecond < 1000 }
        requires offset { unsigned_abs offset < 1440 }
        ensures { IsTimestamp self millisecond offset result.now }
    {
        let minutes = offset.unsigned_abs();
        let zone = (
            Sign(offset, true),
            Padded(minutes / 60, 2),
            ":",
            Padded(minutes % 60, 2),
        );
        (self, ".", Padded(millisecond, 3), zone).to_str(buffer)
    }
}
