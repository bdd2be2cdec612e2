// PESEL and NIP, and the cells that hold one.
use crate::reading::{number, word};
use crate::values::allowed_in;
use polish::Polish;

// 3307 gives 1, 3308 gives 2 and 3309 gives 4.
fn given(polish: Polish) -> u64 {
    u64::from(polish.form) + u64::from(polish.check) * 2 + u64::from(polish.birth) * 4
}

// What a cell of the kinds that a call names gives, beside a date cell or without one.
fn cell_gives(call: &[u8], cell: &[u8], dated: bool) -> u64 {
    let party = ident::parse_party(cell, allowed_in(word(call, 1)));
    given(polish::polish_of(party, cell, dated, number(word(call, 2))))
}

// pesel_right, nip_right, birth_day and is_birth on a number; dated.CELL.DAY and undated.CELL.DAY on a cell.
pub fn of_polish(call: &[u8], input: &[u8]) -> Option<u64> {
    if text::starts_with(call, b"dated.") {
        return Some(cell_gives(call, input, true));
    }
    if text::starts_with(call, b"undated.") {
        return Some(cell_gives(call, input, false));
    }
    match call {
        b"pesel_right" => Some(u64::from(polish::pesel_right(input))),
        b"nip_right" => Some(u64::from(polish::nip_right(input))),
        b"birth_day" => Some(u64::from(polish::birth_day(input))),
        b"is_birth" => Some(u64::from(polish::is_birth(input))),
        _ => None,
    }
}
