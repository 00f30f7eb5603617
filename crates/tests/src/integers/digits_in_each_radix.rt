//! Tests of the writers of digits and of the digit counts, in each radix.

use crate::checks::check_equal;
use crate::integers::checks::valid;
use crate::integers::exact_buffers::digits::check_types;
use crate::integers::numbers::NUMBERS;
use crate::integers::rows::read;
use lexical_write_integer::NumberFormatBuilder;
use lexical_write_integer::algorithm::algorithm;
use lexical_write_integer::decimal::fast_digit_count;
use lexical_write_integer::digit_count::DigitCount;
use lexical_write_integer::laws::digit_count_at_most;
use lexical_write_integer::table::get_table;
use std::process::Abort;

// Checks the texts of a number in the radices from 2 to 36, which are in that order.
fn check_radices(rt: &impl Abort, number: u64, texts: &str) {
    let mut texts = texts.split(' ');
    for radix in 2..37 {
        let text = texts.next().expect(rt, "a text in each radix");
        check_types(rt, number, radix, text.as_bytes());
    }
}

const TEXTS_OF_37: &str = "\
    100101 1101 211 122 101 52 45 41 37 34 31 2B 29 27 25 23 21 1I 1H 1G 1F 1E 1D 1C 1B 1A \
    19 18 17 16 15 14 13 12 11";

const TEXTS_OF_54321: &str = "\
    1101010000110001 2202111220 31100301 3214241 1055253 314241 152061 82456 54321 378A3 \
    27529 1B957 15B21 11166 D431 B0G6 95BF 7H90 6FG1 5I3F 5253 4AFI 3M79 3BML 3297 2KDO 2D81 \
    26H4 20AL 1PG9 1L1H 1GT3 1CXN 19C1 15WX";

const TEXTS_OF_3735928559: &str = "\
    11011110101011011011111011101111 100122100210211112102 3132223123323233 30122344203214 \
    1414413525315 161402603666 33653337357 10570724472 3735928559 164791A470 8831A383B \
    476CC321C 276253DDD 16CEB1BDE DEADBEEF 91D36G78 61F275CB 437F27AH 2I79B17J 21BFF96K \
    1AKK16EB 125A44IB JD49B1N F7DOAH9 C2B8DDP 9H9LMEB 7L226RR 6842PHL 53M7LLT 46F9IMF \
    3FARFNF 2TF7NOB 2E7M43P 214KCKY 1PS9WXB";

const TEXTS_OF_20_DIGITS: &str = "\
    1010101101010100101010011000110011101011000111110000101011010010 \
    10001020211011120100112110012121122102100 22231110222120303223013300223102 \
    1312030340311104212022133030 2334440255314523150301230 31050262160105055621201 \
    1255245230635307605322 101224146315405548370 12345678901234567890 2247503844228971741 \
    5693760686551B7816 157268021CA1B407C1 595043150AA9B7238 1D2D765EEDEDDB360 \
    AB54A98CEB1F0AD2 4557E833D200EADD 1EGFHAEGEDFBA0H0 F8AH6DGB64EE69D 7AE1CE21BFG0JEA \
    3GJ78IH8D5DAE4F 1LE87D3K4H3477C 11B82M4M9CB8137 E2149LIECABB0I 8733KG64BAC8FF \
    4P9G9DH3HL9LCE 316M4F9EC5GHB9 1P4GIJ5FDC2I1M 15PQ1L7BKO5D6P N6RFE1Q0D1C30 FKRGH3UG71N8R \
    AML59HJLHU2MI 7D8ORA3WSB21C 55UBHW3PH1S6U 3MUEXREA0KVFF 2LSOHXAWJUI8I";

#[test]
fn numbers_in_each_radix(rt: HostRuntime) {
    check_radices(&rt, 37, TEXTS_OF_37);
    check_radices(&rt, 54321, TEXTS_OF_54321);
    check_radices(&rt, 3735928559, TEXTS_OF_3735928559);
    check_radices(&rt, 12345678901234567890, TEXTS_OF_20_DIGITS);
}

// Each line has a radix, a number and its digits: numbers near the first and the second power of some
// radices, and the largest numbers of the types. In radix 4 and radix 16, a power of the radix by which a loop
// divides does not fit in the smaller types, so the loop does not run. In the table of radix 12, the index of
// the last pair of 128 does not fit in a byte.
const DIGITS: &str = "\
2 0 0
2 1 1
2 2 10
2 3 11
2 4 100
2 5 101
2 18446744073709551615 1111111111111111111111111111111111111111111111111111111111111111
3 255 100110
4 0 0
4 1 1
4 3 3
4 4 10
4 5 11
4 15 33
4 16 100
4 17 101
4 255 3333
8 0 0
8 1 1
8 7 7
8 8 10
8 9 11
8 63 77
8 64 100
8 65 101
10 0 0
10 1 1
10 9 9
10 10 10
10 11 11
10 99 99
10 100 100
10 101 101
12 128 A8
15 255 120
15 65535 14640
16 0 0
16 1 1
16 15 F
16 16 10
16 17 11
16 255 FF
16 256 100
16 257 101
16 65535 FFFF
16 18446744073709551615 FFFFFFFFFFFFFFFF
32 0 0
32 1 1
32 31 V
32 32 10
32 33 11
32 1023 VV
32 1024 100
32 1025 101
36 0 0
36 35 Z
36 36 10
36 18446744073709551615 3W5E11264SGSF
";

// Checks a line in each type that has its number.
fn check_line(rt: &impl Abort, line: &str) {
    let (radix, rest) = read::<u8>(rt, line);
    let (number, digits) = read::<u64>(rt, rest);
    let format = valid(rt, NumberFormatBuilder::new().radix(radix));
    check_types(rt, number, format.mantissa_radix(), digits.as_bytes());
}

#[test]
fn digits_of_known_numbers(rt: HostRuntime) {
    for line in DIGITS.lines() {
        check_line(&rt, line);
    }
}

#[test]
fn decimal_digits(rt: HostRuntime) {
    for text in NUMBERS.split(' ') {
        if let Ok(number) = text.parse::<u64>() {
            check_types(&rt, number, 10, text.as_bytes());
        }
        if let Ok(number) = text.parse::<u32>() {
            check_equal(&rt, number, fast_digit_count(number), text.len());
        }
    }
}

#[test]
fn longer_table(rt: HostRuntime) {
    let mut table = [7u8; 300];
    table[..288].copy_from_slice(get_table(12));
    let mut buffer = [0u8; 2];
    digit_count_at_most(12, 128, 2);
    check_equal(&rt, 128, 128u8.digit_count(12), 2);
    let count = algorithm(128u8, 12, &table, &mut buffer);
    check_equal(&rt, 128, (count, buffer), (2, *b"A8"));
}
