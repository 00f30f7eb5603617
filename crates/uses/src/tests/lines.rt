//! Tests of the callers of `lexical_parts`.

use super::{check, check_buffer, check_bytes, check_part, check_room, check_str};
use crate::csv_row::{Summary, try_write_list, write_entries, write_row, write_summary};
use crate::date_time::DateTime;
use crate::key_value::try_write_setting;
use crate::measurement::write_measurement;
use lexical_parts::{
    Byte, Bytes, Decimal, Digits, Formatted, Hex, Joined, Left, Lower, Padded, PaddedDigits, Part,
    Right, ZeroPadded,
};
use lexical_write_integer::NumberFormatBuilder;
use lexical_write_integer::laws::digit_count_at_most;

const MORNING: DateTime = DateTime {
    year: 2026,
    month: 11,
    day: 23,
    hour: 7,
    minute: 5,
    second: 9,
};

#[test]
fn readings(rt: HostRuntime) {
    let mut buffer = [7; 60];
    let count = write_measurement(MORNING, -125, 255, &mut buffer);
    check_buffer(&rt, &buffer, count, b"2026-11-23T07:05:09 -12.5 kg 0xFF;");
    let mut buffer = [7; 47];
    let count = write_measurement(MORNING, -5, 0, &mut buffer);
    check_buffer(&rt, &buffer, count, b"2026-11-23T07:05:09 -0.5 kg 0x0;");
}

#[test]
fn timestamps(rt: HostRuntime) {
    let mut buffer = [7; 29];
    let east = MORNING.timestamp(42, 60, &mut buffer);
    check(&rt, east, "2026-11-23T07:05:09.042+01:00");
    let west = MORNING.timestamp(0, -1439, &mut buffer);
    check(&rt, west, "2026-11-23T07:05:09.000-23:59");
}

#[test]
fn texts_as_str(rt: HostRuntime) {
    check_str(&rt, (Decimal(-5i8), " °C"), &mut [7; 40], "-5 °C");
    check_str(&rt, Lower(("É ", Hex(255u8))), &mut [7; 40], "É ff");
    let angle = ZeroPadded((Decimal(-5i8), "°"), 6);
    check_part(&rt, angle, "-005°".as_bytes());
    check_str(&rt, angle, &mut [7; 40], "-005°");
    let row = (Byte(b'<'), Joined(&[1u8, 20], ", "), Byte(b'>'));
    check_str(&rt, row, &mut [7; 40], "<1, 20>");
}

#[test]
fn cells_as_str(rt: HostRuntime) {
    let digits = Left(Digits(16, 255u8), 4, b' ');
    let bits = Right(Some(PaddedDigits(2, 5u8, 4)), 6, b' ');
    digit_count_at_most(16, 255, 2);
    let cells = (digits, bits, None::<Decimal<u8>>);
    check_str(&rt, cells, &mut [7; 40], "FF    0101");
}

// The longest texts of the types fill the rooms.
#[test]
fn numbers_in_a_format(rt: HostRuntime) {
    let thousands = NumberFormatBuilder::new()
        .digit_grouping(3, b',')
        .build_strict();
    let amount = Formatted(1234567u32, &thousands);
    check_str(&rt, amount, &mut [7; 40], "1,234,567");
    check_str(
        &rt,
        Formatted(u32::MAX, &thousands),
        &mut [7; 13],
        "4,294,967,295",
    );
    let signed = NumberFormatBuilder::new()
        .required_mantissa_sign(true)
        .build_strict();
    check_str(
        &rt,
        Formatted(i32::MIN, &signed),
        &mut [7; 11],
        "-2147483648",
    );
    let padded = ZeroPadded(Formatted(42, &signed), 8);
    check_str(&rt, padded, &mut [7; 11], "+0000042");
    check_room(&rt, Formatted(1u8, &signed), 4);
    check_room(&rt, Formatted(1u64, &NumberFormatBuilder::binary()), 64);
    check_room(&rt, Formatted(1i64, &NumberFormatBuilder::binary()), 65);
    check_room(
        &rt,
        Formatted(1i32, &NumberFormatBuilder::from_radix(36)),
        7,
    );
}

#[test]
fn a_name_as_str(rt: HostRuntime) {
    let mut buffer = [7; 40];
    let name = (Padded(7u8, 3), "é");
    check(&rt, name.try_to_str(&mut buffer[..5]), Some("007é"));
    check(&rt, name.try_to_str(&mut buffer[..4]), None);
}

// Every byte after a text is unchanged, and the whole buffer if it is shorter than the text. The room is 8 here.
#[test]
fn bytes_after_a_text(rt: HostRuntime) {
    let part = (Decimal(-5i8), " °C");
    let text = "-5 °C";
    let mut buffer = [7; 12];
    check_bytes(&rt, part.to_text(&mut buffer), text.as_bytes());
    check_buffer(&rt, &buffer, 6, text.as_bytes());
    let mut buffer = [7; 12];
    check(&rt, part.try_write_to(&mut buffer), Some(6));
    check_buffer(&rt, &buffer, 6, text.as_bytes());
}

#[test]
fn bytes_after_a_str(rt: HostRuntime) {
    let part = (Decimal(-5i8), " °C");
    let text = "-5 °C";
    let mut buffer = [7; 12];
    check(&rt, part.to_str(&mut buffer), text);
    check_buffer(&rt, &buffer, 6, text.as_bytes());
    let mut buffer = [7; 12];
    check(&rt, part.try_to_str(&mut buffer), Some(text));
    check_buffer(&rt, &buffer, 6, text.as_bytes());
}

#[test]
fn short_buffers(rt: HostRuntime) {
    let part = (Decimal(-5i8), " °C");
    let text = "-5 °C";
    let mut short = [7; 5];
    check(&rt, part.try_write_to(&mut short), None);
    check(&rt, part.try_to_str(&mut short), None);
    check_buffer(&rt, &short, 0, b"");
    let mut exact = [7; 7];
    check(&rt, part.try_write_to(&mut exact[..6]), Some(6));
    check_buffer(&rt, &exact, 6, text.as_bytes());
    check(&rt, part.try_to_str(&mut exact[..6]), Some(text));
    check(&rt, part.text_len(), Some(6));
}

#[test]
fn rows_of_numbers(rt: HostRuntime) {
    let mut buffer = [7; 168];
    let count = write_row(&[-1, 0, 23, 4, 5, 6, 7, 8], &mut buffer);
    check_buffer(&rt, &buffer, count, b"-1,0,23,4,5,6,7,8\n");
    let mut buffer = [7; 168];
    let summary = Summary {
        count: 9,
        missing: -8,
        first: 7,
        last: 6,
        least: 5,
        greatest: 4,
        median: 3,
        sum: 2,
    };
    let count = write_summary(&summary, &mut buffer);
    check_buffer(&rt, &buffer, count, b"9,-8,7,6,5,4,3,2\n");
}

#[test]
fn lists_of_numbers(rt: HostRuntime) {
    let mut buffer = [7; 45];
    let count = try_write_list(&[-1, 20], &mut buffer[..44]);
    check(&rt, count, Some(8));
    check_buffer(&rt, &buffer, 8, b"[-1, 20]");
    check(&rt, try_write_list(&[-1, 20], &mut [7; 43]), Some(8));
    check(&rt, try_write_list(&[-1, 20], &mut [7; 8]), Some(8));
    check(&rt, try_write_list(&[-1, 20], &mut [7; 7]), None);
    // The room of twelve numbers is 264 bytes, so their 36 bytes need all of it.
    check(&rt, try_write_list(&[0; 12], &mut [7; 264]), Some(36));
    check(&rt, try_write_list(&[0; 12], &mut [7; 263]), None);
    check(&rt, try_write_list(&[], &mut [7; 2]), Some(2));
    let mut buffer = [7; 45];
    let count = write_entries(&[5, -6], &mut buffer);
    check_buffer(&rt, &buffer, count, b"5;-6;");
}

#[test]
fn settings(rt: HostRuntime) {
    let mut buffer = [7; 30];
    let limit = Some(Decimal(-40i64));
    check(
        &rt,
        try_write_setting(b"limit", limit, &mut buffer),
        Some(10),
    );
    check_buffer(&rt, &buffer, 10, b"limit=-40\n");
    let mut buffer = [7; 10];
    let none = None::<Decimal<u8>>;
    check(&rt, try_write_setting(b"limit", none, &mut buffer), Some(7));
    check_buffer(&rt, &buffer, 7, b"limit=\n");
    check(
        &rt,
        try_write_setting(b"limit", limit, &mut buffer[..9]),
        None,
    );
    check_buffer(&rt, &buffer, 7, b"limit=\n");
}

// The example of the crate `lexical_parts`, and a change to the text that it returns.
#[test]
fn texts_for_writing(rt: HostRuntime) {
    let mut buffer = [7; 40];
    let date = (
        Padded(2026u16, 4),
        "-",
        Padded(11u8, 2),
        "-",
        Padded(3u8, 2),
    );
    let flags = PaddedDigits(16, 255u32, 2);
    let text = (date, " ", Decimal(-12i32), " kg 0x", flags, ";").to_text(&mut buffer);
    check_bytes(&rt, text, b"2026-11-03 -12 kg 0xFF;");
    text[4] = b'.';
    check_buffer(&rt, &buffer, 23, b"2026.11-03 -12 kg 0xFF;");
}
