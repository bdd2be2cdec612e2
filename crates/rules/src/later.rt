// Codes 290 to 570, of a line that is NEW.
//
// That the line is NEW and the facts are those of the call stands in the contract of each group and in no type: a struct could hold the facts
// and no call for its ghost field to speak of.
ghost use Rattle.std.specs.Prelude.{◌≡◌, true, map};
ghost use Rattle.facts.specs.Call.{Call};
ghost use Rattle.facts.specs.Rules.{is_new, given, rules4, rules5, rules6};
ghost use Rattle.facts.specs.Facts.{facts_of};
ghost use Rattle.verdict.specs.Findings.{put};

use facts::Facts;
use verdict::CODE_COUNT;

// 290 310 330 331 340 350 351 360 361 362 370 371.
pub fn price_and_venue(base: [bool; CODE_COUNT], f: Facts) -> [bool; CODE_COUNT]
    ensures { (c : Call) → is_new c.line ≡ true → f ≡ facts_of c → result ≡ put base 36 (map (given c) rules4) }
{
    let ok = f.ok;
    let group = [
        ok[29] & ok[7] & ok[16] & ok[4] & f.deal.not_own,
        ok[31] & ok[28] & f.money.quantity,
        ok[43] & ok[30] & ok[33] & f.cfi[0],
        ok[41] & ok[28] & ok[30] & ok[33] & f.trade.debt_in_units,
        ok[34] & ok[28] & f.money.price,
        ok[43] & ok[35] & f.cfi[1],
        ok[41] & ok[28] & ok[35] & f.trade.bond_without_net,
        ok[36] & ok[28] & f.trade.unknown,
        ok[36] & ok[41] & ok[28] & f.trade.listed_off,
        ok[25] & ok[36] & f.trade.transmitted,
        ok[36] & ok[28] & ok[37] & f.trade.no_branch,
        ok[37] & ok[28] & f.country37,
    ];
    verdict::place(base, 36, &group)
}

// 372 380 440 451 470 473 480 481 490 500 501 502 510.
pub fn currencies_and_cfi(base: [bool; CODE_COUNT], f: Facts) -> [bool; CODE_COUNT]
    ensures { (c : Call) → is_new c.line ≡ true → f ≡ facts_of c → result ≡ put base 48 (map (given c) rules5) }
{
    let ok = f.ok;
    let group = [
        ok[37] & ok[36] & ok[28] & f.trade.branch,
        ok[43] & ok[38] & f.cfi[2],
        ok[44] & ok[28] & f.money.notional,
        ok[45] & ok[28] & f.money.second,
        ok[47] & f.trade.wrong_isin,
        ok[43] & ok[47] & ok[48] & f.cfi[3],
        ok[43] & ok[48] & f.cfi[4],
        ok[43] & ok[48] & f.cfi[5],
        ok[43] & ok[49] & f.cfi[6],
        ok[43] & ok[50] & f.cfi[7],
        ok[43] & ok[50] & f.cfi[8],
        ok[43] & ok[50] & f.cfi[9],
        ok[43] & ok[51] & f.cfi[10],
    ];
    verdict::place(base, 48, &group)
}

// 511 520 530 531 540 541 542 550 551 552 560 570.
pub fn cfi_and_dates(base: [bool; CODE_COUNT], f: Facts) -> [bool; CODE_COUNT]
    ensures { (c : Call) → is_new c.line ≡ true → f ≡ facts_of c → result ≡ put base 61 (map (given c) rules6) }
{
    let ok = f.ok;
    let group = [
        ok[43] & ok[51] & f.cfi[11],
        ok[52] & ok[28] & f.money.strike,
        ok[43] & ok[53] & f.cfi[12],
        ok[43] & ok[53] & f.cfi[13],
        ok[43] & ok[54] & f.cfi[14],
        ok[54] & ok[28] & f.time.past54,
        ok[43] & ok[54] & f.cfi[15],
        ok[43] & ok[55] & f.cfi[16],
        ok[43] & ok[55] & f.cfi[17],
        ok[55] & ok[28] & f.time.past55,
        ok[43] & ok[56] & f.cfi[18],
        ok[29] & ok[26] & ok[27] & ok[57] & f.deal.undecided,
    ];
    verdict::place(base, 61, &group)
}
