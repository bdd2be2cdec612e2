// The 141 flags of a line: 73 rules, 65 forms, 3 rules for Polish identifiers.
ghost use Rattle.std.specs.Prelude.{◌≡◌, Bool, true, false, List, [], ◌∷◌, ◌++◌, ℕ};
ghost use Rattle.cells.specs.Cells.{cell};
ghost use Rattle.forms.specs.Findings.{form_findings};
ghost use Rattle.facts.specs.Call.{Call, call};
ghost use Rattle.facts.specs.Rules.{is_new, pair_stands, flags, all_flags};
ghost use Rattle.facts.specs.Asked.{lei_fit};
ghost use Rattle.facts.specs.Facts.{asked_in, facts_of};

use crate::early::{deciders_and_seller, pair_and_buyer, seller_and_time};
use crate::later::{cfi_and_dates, currencies_and_cfi, price_and_venue};
use calendar::Moment;
use cells::SplitLine;
use facts::{Asked, Facts, LeiFit};
use forms::ReadLine;
use register::Standing;
use verdict::{BASE_COUNT, CODE_COUNT, RULE_COUNT};

// A line that is not NEW: of its rules 024, 025 and 060 are judged, and they if it is CXL. `submitting` is what is asked of cell 6.
pub fn unless_new(split: &SplitLine, submitting: LeiFit, standing: Standing) -> [bool; CODE_COUNT]
    requires { is_new split.now.line.now ≡ false }
    ensures { (lei cty ccy ven ins register : List ℕ) (day micro : ℕ) (polish : Bool) → submitting ≡ lei_fit lei (cell split.now.line.now 6) day → standing ≡ pair_stands register split.now.line.now → result ≡ all_flags (call split.now.line.now lei cty ccy ven ins register day micro polish) }
{
    let forms = forms::other_findings(split);
    let ok = facts::good_cells(&forms);
    let cxl = text::same(split.cell(1), b"CXL");
    let mut found = [false; CODE_COUNT];
    found[1] = cxl & ok[4] & ok[2] & facts::is_absent(standing);
    found[2] = cxl & ok[4] & ok[2] & facts::is_cancelled(standing);
    found[6] = cxl & ok[6] & !submitting.any;
    verdict::place(found, RULE_COUNT, &forms)
}

// The rules of a line that is NEW, in groups of 12 or 13, then its forms; of the rules for Polish identifiers none.
fn by_facts(forms: &[bool; 65], f: Facts) -> [bool; CODE_COUNT]
    ensures { (c : Call) → is_new c.line ≡ true → f ≡ facts_of c → forms.now ≡ form_findings c.line → result ≡ flags c ++ (form_findings c.line ++ (false ∷ false ∷ false ∷ [])) }
{
    let found = pair_and_buyer([false; CODE_COUNT], f);
    let found = deciders_and_seller(found, f);
    let found = seller_and_time(found, f);
    let found = price_and_venue(found, f);
    let found = currencies_and_cfi(found, f);
    let found = cfi_and_dates(found, f);
    verdict::place(found, RULE_COUNT, forms)
}

// A line that is NEW, with what was read of it: what the lists say of it, how its pair stands in the register, the submission moment, and
// whether Polish identifiers are judged. Where they are not, no cell is looked at for them.
pub fn when_new(
    line: &ReadLine,
    asked: Asked,
    standing: Standing,
    submitted: Moment,
    polish: bool,
) -> [bool; CODE_COUNT]
    requires { is_new line.now.split.now.line.now ≡ true }
    ensures { (lei cty ccy ven ins register : List ℕ) → asked ≡ asked_in (call line.now.split.now.line.now lei cty ccy ven ins register submitted.day submitted.micro polish) → standing ≡ pair_stands register line.now.split.now.line.now → result ≡ all_flags (call line.now.split.now.line.now lei cty ccy ven ins register submitted.day submitted.micro polish) }
{
    let forms = forms::new_findings(line);
    let f = facts::line_facts(line, &forms, asked, standing, submitted);
    let found = by_facts(&forms, f);
    if !polish {
        return found;
    }
    let p = facts::polish_facts(line, f.ok);
    verdict::place(found, BASE_COUNT, &[p.form, p.check, p.birth])
}
