// The findings of a line that is NEW, one line a cell: whether the line needs it, and its form.
#![tactic(auto, using(crate::proofs::ReadLaws::or_cond, crate::proofs::ReadLaws::and_cond), unfolding(crate::specs::Findings::form_finding, crate::specs::Forms::form_of, crate::specs::Forms::holds, crate::specs::Read::read_of))]

ghost use Rattle.std.specs.Prelude.{◌≡◌, true, false, not, cond};
ghost use Rattle.text.specs.Word.{blank};
ghost use Rattle.cells.specs.Cells.{cell};
ghost use Rattle.forms.specs.Findings.{status_of, form_findings};
ghost use Rattle.forms.specs.Read.{new_forms};

use crate::findings::Status;
use crate::meanings::{is_second_currency, is_status, is_terms, is_truth};
use crate::read::ReadLine;
use text::Class;

// Of a cell, found: blank or not of its form, where the line needs it; there and not of its form, where not.
fn needed(s: &[u8], ok: bool) -> bool
    ensures { result ≡ cond (blank s.now) true (not ok) }
{
    (s.len() == 0) | !ok
}

fn optional(s: &[u8], ok: bool) -> bool
    ensures { result ≡ cond (blank s.now) false (not ok) }
{
    (s.len() != 0) & !ok
}

// Cells 1 to 13.
fn opening(line: &ReadLine) -> [bool; 13]
    ensures { result ≡ new_forms line.now.split.now.line.now 1 }
{
    let c1 = line.cell(1);
    let c2 = line.cell(2);
    let c3 = line.cell(3);
    let c4 = line.cell(4);
    let c5 = line.cell(5);
    let c6 = line.cell(6);
    let c7 = line.cell(7);
    let c8 = line.cell(8);
    let c9 = line.cell(9);
    let c10 = line.cell(10);
    let c11 = line.cell(11);
    let c12 = line.cell(12);
    let c13 = line.cell(13);
    let read = &line.read;
    [
        needed(c1, is_status(c1)),
        needed(c2, text::run_of(c2, Class::CapitalDigit, 1, 52)),
        optional(c3, text::run_of(c3, Class::CapitalDigit, 1, 52)),
        needed(c4, ident::lei_shaped(c4)),
        needed(c5, is_truth(c5)),
        needed(c6, ident::lei_shaped(c6)),
        needed(c7, !ident::is_malformed(read.buyer.identifier)),
        optional(c8, text::run_of(c8, Class::Capital, 2, 2)),
        optional(c9, utf8::points_within(c9, 140)),
        optional(c10, utf8::points_within(c10, 140)),
        optional(c11, calendar::is_date(read.date11)),
        optional(c12, !ident::is_malformed(read.buyer_for.identifier)),
        optional(c13, utf8::points_within(c13, 140)),
    ]
}

// Cells 14 to 26.
fn persons(line: &ReadLine) -> [bool; 13]
    ensures { result ≡ new_forms line.now.split.now.line.now 14 }
{
    let c14 = line.cell(14);
    let c15 = line.cell(15);
    let c16 = line.cell(16);
    let c17 = line.cell(17);
    let c18 = line.cell(18);
    let c19 = line.cell(19);
    let c20 = line.cell(20);
    let c21 = line.cell(21);
    let c22 = line.cell(22);
    let c23 = line.cell(23);
    let c24 = line.cell(24);
    let c25 = line.cell(25);
    let c26 = line.cell(26);
    let read = &line.read;
    [
        optional(c14, utf8::points_within(c14, 140)),
        optional(c15, calendar::is_date(read.date15)),
        needed(c16, !ident::is_malformed(read.seller.identifier)),
        optional(c17, text::run_of(c17, Class::Capital, 2, 2)),
        optional(c18, utf8::points_within(c18, 140)),
        optional(c19, utf8::points_within(c19, 140)),
        optional(c20, calendar::is_date(read.date20)),
        optional(c21, !ident::is_malformed(read.seller_for.identifier)),
        optional(c22, utf8::points_within(c22, 140)),
        optional(c23, utf8::points_within(c23, 140)),
        optional(c24, calendar::is_date(read.date24)),
        needed(c25, is_truth(c25)),
        optional(c26, ident::lei_shaped(c26)),
    ]
}

// Cells 27 to 39.
fn trade(line: &ReadLine) -> [bool; 13]
    ensures { result ≡ new_forms line.now.split.now.line.now 27 }
{
    let c27 = line.cell(27);
    let c28 = line.cell(28);
    let c29 = line.cell(29);
    let c30 = line.cell(30);
    let c31 = line.cell(31);
    let c32 = line.cell(32);
    let c33 = line.cell(33);
    let c34 = line.cell(34);
    let c35 = line.cell(35);
    let c36 = line.cell(36);
    let c37 = line.cell(37);
    let c38 = line.cell(38);
    let c39 = line.cell(39);
    let read = &line.read;
    [
        optional(c27, ident::lei_shaped(c27)),
        needed(c28, calendar::is_when(read.moment)),
        needed(c29, text::one_of(c29, b"DEALMTCHAOTC", 4)),
        needed(c30, amount::quantity_kind(read.quantity) != 0),
        optional(c31, text::run_of(c31, Class::Capital, 3, 3)),
        optional(c32, text::one_of(c32, b"INCRDECR", 4)),
        needed(c33, amount::price_kind(read.price) != 0),
        optional(c34, text::run_of(c34, Class::Capital, 3, 3)),
        optional(c35, amount::is_decimal(c35, 18, 5, 19)),
        needed(c36, ident::mic_shaped(c36)),
        optional(c37, text::run_of(c37, Class::Capital, 2, 2)),
        optional(c38, amount::signed_kind(amount::parse_signed(c38, 5)) != 0),
        optional(c39, text::run_of(c39, Class::Capital, 3, 3)),
    ]
}

// Cells 40 to 52.
fn instrument(line: &ReadLine) -> [bool; 13]
    ensures { result ≡ new_forms line.now.split.now.line.now 40 }
{
    let c40 = line.cell(40);
    let c41 = line.cell(41);
    let c42 = line.cell(42);
    let c43 = line.cell(43);
    let c44 = line.cell(44);
    let c45 = line.cell(45);
    let c46 = line.cell(46);
    let c47 = line.cell(47);
    let c48 = line.cell(48);
    let c49 = line.cell(49);
    let c50 = line.cell(50);
    let c51 = line.cell(51);
    let c52 = line.cell(52);
    let read = &line.read;
    [
        optional(c40, text::run_of(c40, Class::Alphanumeric, 1, 35)),
        optional(c41, ident::isin_right(c41)),
        optional(c42, utf8::points_within(c42, 350)),
        optional(c43, text::run_of(c43, Class::Capital, 6, 6)),
        optional(c44, text::run_of(c44, Class::Capital, 3, 3)),
        optional(c45, is_second_currency(c45)),
        optional(c46, amount::is_decimal(c46, 18, 17, 19)),
        optional(c47, baskets::is_underlying(read.underlying.kind)),
        optional(c48, text::run_of(c48, Class::Printable, 1, 400)),
        optional(c49, is_terms(c49, c47, read.underlying.kind)),
        optional(c50, text::one_of(c50, b"PUTOCALLOTHR", 4)),
        optional(c51, amount::price_kind(amount::parse_price(c51)) != 0),
        optional(c52, text::run_of(c52, Class::Capital, 3, 3)),
    ]
}

// Cells 53 to 65.
fn closing(line: &ReadLine) -> [bool; 13]
    ensures { result ≡ new_forms line.now.split.now.line.now 53 }
{
    let c53 = line.cell(53);
    let c54 = line.cell(54);
    let c55 = line.cell(55);
    let c56 = line.cell(56);
    let c57 = line.cell(57);
    let c58 = line.cell(58);
    let c59 = line.cell(59);
    let c60 = line.cell(60);
    let c61 = line.cell(61);
    let c62 = line.cell(62);
    let c63 = line.cell(63);
    let c64 = line.cell(64);
    let c65 = line.cell(65);
    let read = &line.read;
    [
        optional(c53, text::one_of(c53, b"EUROAMERASIABERMOTHR", 4)),
        optional(c54, calendar::is_date(read.date54)),
        optional(c55, calendar::is_date(read.date55)),
        optional(c56, text::one_of(c56, b"PHYSCASHOPTL", 4)),
        optional(c57, !ident::is_malformed(read.investor.identifier)),
        optional(c58, text::run_of(c58, Class::Capital, 2, 2)),
        needed(c59, !ident::is_malformed(read.executor.identifier)),
        optional(c60, text::run_of(c60, Class::Capital, 2, 2)),
        optional(c61, text::one_of(c61, b"RFPTNLIQOILQPRICSIZEILQD", 4)),
        optional(c62, text::one_of(c62, b"SESHSSEXSELLUNDI", 4)),
        optional(
            c63,
            text::one_of(
                c63,
                b"BENCACTXLRGSILQDSIZECANCAMNDSDIVPRICDUPLTNCPTPACXFPH",
                4,
            ),
        ),
        optional(c64, is_truth(c64)),
        needed(c65, is_truth(c65)),
    ]
}

// The 65 flags of a line that is NEW.
pub fn new_findings(line: &ReadLine) -> [bool; 65]
    requires { status_of (cell line.now.split.now.line.now 1) ≡ Status.New }
    ensures { result ≡ form_findings line.now.split.now.line.now }
{
    let mut flags = [false; 65];
    flags[0..13].copy_from_slice(&opening(line));
    flags[13..26].copy_from_slice(&persons(line));
    flags[26..39].copy_from_slice(&trade(line));
    flags[39..52].copy_from_slice(&instrument(line));
    flags[52..].copy_from_slice(&closing(line));
    flags
}
