// Polish identifiers in a line: 3307, 3308 and 3309.
#![tactic(auto, unfolding(crate::specs::Facts::polish_facts, polish::specs::Cells::polish_of, forms::specs::Read::read_of, crate::specs::Words::day_of))]

ghost use Rattle.std.specs.Prelude.{◌≡◌};
ghost use Rattle.cells.specs.Cells.{cell};
ghost use Rattle.polish.specs.Cells.{polish_of};
ghost use Rattle.facts.specs.Words.{present, day_in};
ghost use Rattle.facts.specs.Rules.{good_cells};
ghost use Rattle.facts.specs.Facts.{polish_facts};

use crate::times::day_in;
use forms::ReadLine;
use ident::Party;
use polish::Polish;

// The party in cell f, with the date in cell d.
fn dated(line: &ReadLine, party: Party, f: usize, date: Option<u32>, d: usize) -> Polish
    ensures { result ≡ polish_of party (cell line.now.split.now.line.now f) (present (cell line.now.split.now.line.now d)) (day_in date) }
{
    polish::polish_of(party, line.cell(f), line.cell(d).len() != 0, day_in(date))
}

// 3307, 3308 and 3309 of a line; `ok` tells which cells have no form finding. Each cell by itself: it counts where it has no form finding, its
// birth day where its date has none either. 57 and 59 have no date: of them 3307 and 3308 alone.
pub fn polish_facts(line: &ReadLine, ok: [bool; 66]) -> Polish
    requires { ok ≡ good_cells line.now.split.now.line.now }
    ensures { result ≡ polish_facts line.now.split.now.line.now }
{
    let read = &line.read;
    let p7 = dated(line, read.buyer, 7, read.date11, 11);
    let p12 = dated(line, read.buyer_for, 12, read.date15, 15);
    let p16 = dated(line, read.seller, 16, read.date20, 20);
    let p21 = dated(line, read.seller_for, 21, read.date24, 24);
    let p57 = polish::polish_of(read.investor, line.cell(57), false, 0);
    let p59 = polish::polish_of(read.executor, line.cell(59), false, 0);
    Polish {
        form: (ok[7] & p7.form)
            | (ok[12] & p12.form)
            | (ok[16] & p16.form)
            | (ok[21] & p21.form)
            | ((ok[57] & p57.form) | (ok[59] & p59.form)),
        check: (ok[7] & p7.check)
            | (ok[12] & p12.check)
            | (ok[16] & p16.check)
            | (ok[21] & p21.check)
            | ((ok[57] & p57.check) | (ok[59] & p59.check)),
        birth: (ok[7] & ok[11] & p7.birth)
            | (ok[12] & ok[15] & p12.birth)
            | (ok[16] & ok[20] & p16.birth)
            | (ok[21] & ok[24] & p21.birth),
    }
}
