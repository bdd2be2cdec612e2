// Bytes, code points and days.
use crate::reading::{number, unhex, word};
use text::Class;

fn class_named(name: &[u8]) -> Class {
    match name {
        b"digit" => Class::Digit,
        b"capital" => Class::Capital,
        b"capital_digit" => Class::CapitalDigit,
        b"alphanumeric" => Class::Alphanumeric,
        b"printable" => Class::Printable,
        b"capital_hash" => Class::CapitalHash,
        b"minus" => Class::CapitalDigitMinus,
        _ => Class::CapitalDigitSign,
    }
}

// class.NAME, le16 and le32, both from the second byte on, on bytes in hexadecimal.
fn of_bytes(call: &[u8], input: &[u8]) -> Option<u64> {
    let bytes = unhex(input);
    let bytes = bytes.as_slice();
    if let Some(name) = call.strip_prefix(b"class.") {
        return Some(u64::from(text::all_of(bytes, class_named(name))));
    }
    match call {
        b"le16" => Some(u64::from(text::le16(bytes, 1))),
        b"le32" => Some(u64::from(text::le32(bytes, 1))),
        _ => None,
    }
}

// Prefixes are asked one by one here and in the calls beside: what follows them is read by `word` or as it stands.
// shape.PATTERN, same.WORD, begins.WORD, word4.WORDS and number on a text.
pub fn of_text(call: &[u8], input: &[u8]) -> Option<u64> {
    if let Some(pattern) = call.strip_prefix(b"shape.") {
        return Some(u64::from(text::shaped(input, pattern)));
    }
    if let Some(word) = call.strip_prefix(b"same.") {
        return Some(u64::from(text::same(input, word)));
    }
    if let Some(word) = call.strip_prefix(b"begins.") {
        return Some(u64::from(text::starts_with(input, word)));
    }
    if let Some(words) = call.strip_prefix(b"word4.") {
        return Some(u64::from(text::one_of(input, words, 4)));
    }
    if text::same(call, b"number") {
        return Some(text::number_in(input));
    }
    of_bytes(call, input)
}

// points on bytes in hexadecimal, 999 where they are malformed; within.N on a text.
pub fn of_utf8(call: &[u8], input: &[u8]) -> Option<u64> {
    if text::same(call, b"points") {
        return Some(utf8::code_points(unhex(input).as_slice()).unwrap_or(999) as u64);
    }
    let most = call.strip_prefix(b"within.")?;
    Some(u64::from(utf8::points_within(input, number(most) as usize)))
}

// date on a cell, moment_day and moment_micro on one; 0 where it is malformed.
fn of_cell(call: &[u8], input: &[u8]) -> Option<u64> {
    match call {
        b"date" => Some(calendar::parse_date(input).map_or(0, u64::from)),
        b"moment_day" => Some(calendar::parse_moment(input).map_or(
            0,
            |moment| u64::from(moment.day),
        )),
        b"moment_micro" => Some(calendar::parse_moment(input).map_or(0, |moment| moment.micro)),
        _ => None,
    }
}

// is_day, is_day_of.FIRST.LAST, five_years_before and is_moment.DAY on a number; the calls on a cell.
pub fn of_calendar(call: &[u8], input: &[u8]) -> Option<u64> {
    if text::same(call, b"is_day") {
        return Some(u64::from(calendar::is_day(number(input))));
    }
    if text::starts_with(call, b"is_day_of.") {
        let first = number(word(call, 1));
        let last = number(word(call, 2));
        return Some(u64::from(calendar::is_day_of(first, last, number(input))));
    }
    if text::same(call, b"five_years_before") {
        return Some(u64::from(calendar::five_years_before(number(input))));
    }
    if let Some(day) = call.strip_prefix(b"is_moment.") {
        let micro = text::number_in(input);
        return Some(u64::from(calendar::is_moment(number(day), micro)));
    }
    of_cell(call, input)
}
