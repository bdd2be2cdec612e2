// Lists and registers, in hexadecimal.
ghost use Rattle.std.specs.Prelude.{◌≤◌};

use crate::reading::{number, parted, unhex, word};
use lists::Mark;
use register::Standing;

fn mark_named(name: &[u8]) -> Mark {
    match name {
        b"LEI" => Mark::Lei,
        b"CTY" => Mark::Cty,
        b"CCY" => Mark::Ccy,
        b"VEN" => Mark::Ven,
        _ => Mark::Ins,
    }
}

// Up to three answers as digits.
fn digits(first: bool, second: bool, third: bool) -> u64 {
    u64::from(first) * 100 + u64::from(second) * 10 + u64::from(third)
}

// What the list named by its mark says of a key on a day.
fn looked_up(mark: Mark, list: &[u8], key: &[u8], day: u32) -> u64 {
    match mark {
        Mark::Lei => {
            let r = lists::lei_rows(list, key, day);
            digits(r.unlapsed, r.any, r.whenever)
        }
        Mark::Cty => digits(false, false, lists::country_known(list, key, day)),
        Mark::Ccy => {
            let r = lists::currency_rows(list, key, day);
            digits(false, r.current, r.pre_euro)
        }
        Mark::Ven => {
            let r = lists::venue_rows(list, key, day);
            digits(r.kind1, r.kind2, r.kind3)
        }
        Mark::Ins => {
            let r = lists::instrument_rows(list, key, day);
            digits(r.listed, r.debt, r.bond)
        }
    }
}

// framed.MARK and rows.MARK.KEY.DAY on a list, the key in hexadecimal too.
pub fn of_lists(call: &[u8], input: &[u8]) -> Option<u64> {
    let list = unhex(input);
    let list = list.as_slice();
    let mark = mark_named(word(call, 1));
    if text::starts_with(call, b"framed.") {
        return Some(u64::from(lists::framed(mark, list)));
    }
    if text::starts_with(call, b"rows.") {
        let key = unhex(word(call, 2));
        let day = number(word(call, 3));
        return Some(looked_up(mark, list, key.as_slice(), day));
    }
    None
}

fn state_number(standing: Standing) -> u64
    ensures { result ≤ 2 }
{
    match standing {
        Standing::Absent => 0,
        Standing::Live => 1,
        Standing::Cancelled => 2,
    }
}

// Sets the pair live or cancelled on a day.
fn set_pair(lent: &mut [u8], live: bool, pair: &[u8; 73], day: u32) {
    let width = register::row_width(lent);
    let found = register::find(lent, width, pair);
    if live {
        register::set_live(lent, width, found, pair, day);
    } else {
        register::set_cancelled(lent, width, found, day);
    }
}

// Whether a register, after its pair was set live or cancelled on a day, is what is written behind it.
fn is_after(live: bool, pair: &[u8; 73], day: u32, input: &[u8]) -> bool {
    let (before, after) = parted(input, b' ');
    let mut lent = unhex(before);
    lent.change(|rows| set_pair(rows, live, pair, day));
    text::same(lent.as_slice(), unhex(after).as_slice())
}

// The answer of converting a register into a target, where the target then is what is written behind both; else 99.
fn answer_of_conversion(input: &[u8]) -> u64 {
    let (from, rest) = parted(input, b' ');
    let (to, after) = parted(rest, b' ');
    let mut target = unhex(to);
    let answer = target.change(|rows| register::convert(unhex(from).as_slice(), rows));
    if text::same(target.as_slice(), unhex(after).as_slice()) {
        return u64::from(answer);
    }
    99
}

// trn_width, trn_used, trn_full on a register.
fn of_head(call: &[u8], register: &[u8]) -> Option<u64> {
    let width = register::row_width(register);
    match call {
        b"trn_width" => Some(width as u64),
        b"trn_used" => Some(u64::from(register::used(register))),
        b"trn_full" => Some(u64::from(register::full(register, width))),
        _ => None,
    }
}

// pair.ENTITY.REFERENCE on the pair's bytes; stands on a register, the row in front of the state; live and cancelled, with a
// day behind the reference, on one before and one after; convert on a source, a target before and the target after.
pub fn of_register(call: &[u8], input: &[u8]) -> Option<u64> {
    let pair = register::pair_bytes(word(call, 1), word(call, 2));
    if text::starts_with(call, b"live.") {
        return Some(u64::from(is_after(true, &pair, number(word(call, 3)), input)));
    }
    if text::starts_with(call, b"cancelled.") {
        return Some(u64::from(is_after(false, &pair, number(word(call, 3)), input)));
    }
    if text::same(call, b"convert") {
        return Some(answer_of_conversion(input));
    }
    let lent = unhex(input);
    let lent = lent.as_slice();
    if text::starts_with(call, b"pair.") {
        return Some(u64::from(text::same(lent, &pair)));
    }
    if text::starts_with(call, b"stands.") {
        let found = register::find(lent, register::row_width(lent), &pair);
        let row = found.map_or(99, |row| row as u64) % 100;
        return Some(row * 10 + state_number(register::standing_of(lent, &pair)));
    }
    of_head(call, lent)
}
