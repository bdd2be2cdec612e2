// What each call of a case answers, as a number: 1 and 0 for yes and no.
use crate::judging::{of_cfi, of_verdict};
use crate::leaves::{of_calendar, of_text, of_utf8};
use crate::lent::{of_lists, of_register};
use crate::lines::{of_cells, of_forms, of_reader};
use crate::poland::of_polish;
use crate::underlying::of_baskets;
use crate::values::{of_amount, of_ident};

pub fn answer(call: &[u8], input: &[u8]) -> Option<u64> {
    of_text(call, input)
        .or_else(|| of_utf8(call, input))
        .or_else(|| of_calendar(call, input))
        .or_else(|| of_ident(call, input))
        .or_else(|| of_baskets(call, input))
        .or_else(|| of_polish(call, input))
        .or_else(|| of_amount(call, input))
        .or_else(|| of_cells(call, input))
        .or_else(|| of_forms(call, input))
        .or_else(|| of_reader(call, input))
        .or_else(|| of_lists(call, input))
        .or_else(|| of_register(call, input))
        .or_else(|| of_cfi(call, input))
        .or_else(|| of_verdict(call, input))
}
