// Codes 023 to 281, of a line that is NEW.
//
// That the line is NEW and the facts are those of the call stands in the contract of each group and in no type: a struct could hold the facts
// and no call for its ghost field to speak of.
ghost use Rattle.std.specs.Prelude.{◌≡◌, true, map};
ghost use Rattle.facts.specs.Call.{Call};
ghost use Rattle.facts.specs.Rules.{is_new, given, rules1, rules2, rules3};
ghost use Rattle.facts.specs.Facts.{facts_of};
ghost use Rattle.verdict.specs.Findings.{put};

use facts::Facts;
use verdict::CODE_COUNT;

// 023 024 025 030 040 041 060 070 071 072 073 074. The second and the third are for CXL alone.
pub fn pair_and_buyer(base: [bool; CODE_COUNT], f: Facts) -> [bool; CODE_COUNT]
    ensures { (c : Call) → is_new c.line ≡ true → f ≡ facts_of c → result ≡ put base 0 (map (given c) rules1) }
{
    let ok = f.ok;
    let group = [
        ok[4] & ok[2] & f.live,
        false,
        false,
        ok[3] & ok[36] & ok[28] & f.trade.no_code,
        ok[4] & ok[5] & ok[28] & f.entity.member,
        ok[4] & ok[5] & ok[28] & f.entity.other,
        ok[6] & f.entity.submitter,
        ok[7] & ok[28] & f.parties.buyer.lei,
        ok[7] & ok[28] & f.parties.buyer.country,
        ok[7] & ok[28] & f.parties.buyer.mic,
        ok[7] & ok[11] & f.parties.buyer.birth,
        ok[7] & f.parties.buyer.shape,
    ];
    verdict::place(base, 0, &group)
}

// 080 110 120 121 122 123 150 160 161 162 163 164.
pub fn deciders_and_seller(base: [bool; CODE_COUNT], f: Facts) -> [bool; CODE_COUNT]
    ensures { (c : Call) → is_new c.line ≡ true → f ≡ facts_of c → result ≡ put base 12 (map (given c) rules2) }
{
    let ok = f.ok;
    let group = [
        ok[8] & ok[28] & f.country8,
        ok[11] & ok[28] & f.parties.buyer.late,
        ok[12] & ok[28] & f.parties.buyer_for.lei,
        ok[12] & ok[28] & f.parties.buyer_for.country,
        ok[12] & ok[15] & f.parties.buyer_for.birth,
        ok[12] & f.parties.buyer_for.shape,
        ok[15] & ok[28] & f.parties.buyer_for.late,
        ok[16] & ok[28] & f.parties.seller.lei,
        ok[16] & ok[28] & f.parties.seller.country,
        ok[16] & ok[28] & f.parties.seller.mic,
        ok[16] & ok[20] & f.parties.seller.birth,
        ok[16] & f.parties.seller.shape,
    ];
    verdict::place(base, 12, &group)
}

// 170 200 210 211 212 213 240 251 260 270 280 281.
pub fn seller_and_time(base: [bool; CODE_COUNT], f: Facts) -> [bool; CODE_COUNT]
    ensures { (c : Call) → is_new c.line ≡ true → f ≡ facts_of c → result ≡ put base 24 (map (given c) rules3) }
{
    let ok = f.ok;
    let group = [
        ok[17] & ok[28] & f.country17,
        ok[20] & ok[28] & f.parties.seller.late,
        ok[21] & ok[28] & f.parties.seller_for.lei,
        ok[21] & ok[28] & f.parties.seller_for.country,
        ok[21] & ok[24] & f.parties.seller_for.birth,
        ok[21] & f.parties.seller_for.shape,
        ok[24] & ok[28] & f.parties.seller_for.late,
        ok[29] & ok[25] & f.deal.transmitted,
        ok[26] & ok[28] & f.entity.buyers_firm,
        ok[27] & ok[28] & f.entity.sellers_firm,
        ok[28] & f.time.not_before,
        ok[28] & f.time.too_old,
    ];
    verdict::place(base, 24, &group)
}
