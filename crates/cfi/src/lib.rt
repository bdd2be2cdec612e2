// The rules by CFI: patterns of cell 43 with their codes, cells and required values stand in constant tables, which one
// matcher walks.
//
// What the cells hold comes in as `kinds`, one number for each cell (its index is the cell's number): 1 where it is blank, from
// 2 on where it is present, its values counted as the paper lists them, so that what is wrong with a cell is a comparison. The
// number of a cell with a form finding does not matter, since no rule that reads it is given; 0 stands for no value.
#![tactic(auto)]

ghost use Rattle.std.specs.Prelude.{◌≡◌, [], ◌∷◌};
ghost use Rattle.std.specs.List.{list_any};
ghost use Rattle.text.specs.Shape.{shape};
ghost use Rattle.cfi.specs.Rules.{wrong, broken, matches_code, cfi_findings, codes};
ghost use Rattle.cfi.specs.Table.{fault_of, rule_of, marked};

mod tables;

use tables::{CODES, Fault, Row, UNT, rows_of};
use text::{byte_at, shaped};

// The CFI matches one of the patterns.
fn matches_one(cfi: &[u8], patterns: &[[u8; 6]]) -> bool
    ensures { result ≡ list_any (λ pattern. shape pattern cfi.now) patterns.now }
{
    for pattern in patterns {
        if shaped(cfi, pattern) {
            return true;
        }
    }
    false
}

impl Fault {
    // Of a cell of this kind, where cell 30 is of kind `quantity`.
    fn is_found(self, quantity: u8, kind: u8) -> bool
        ensures { result ≡ wrong (fault_of self) quantity kind }
    {
        match self {
            Fault::Blank => kind == 1,
            Fault::Present => 2 <= kind,
            Fault::PresentNot(value) => (2 <= kind) & (kind != value),
            Fault::Not(value) => (1 <= kind) & (kind != value),
            Fault::UnitsAnd(value) => (quantity == UNT) & (kind == value),
        }
    }
}

impl Row {
    // The cell decides first: patterns are looked at only where it is wrong.
    fn is_broken(&self, kinds: &[u8; 66], cfi: &[u8]) -> bool
        ensures { result ≡ broken kinds.now cfi.now (rule_of self.now) }
    {
        self.fault.is_found(kinds[30], byte_at(kinds, self.cell)) && matches_one(cfi, self.patterns)
    }
}

// Sets the flag of the code.
fn mark(found: &mut [bool; 19], code: u16)
    ensures { found.new ≡ marked code codes found.old }
{
    for i in 0..19 {
        found[i] |= code == CODES[i];
    }
}

// Whether a CFI matches a pattern of 330, and one of 350: for the rules that look at another CFI than that of cell 43. The few
// patterns stand here again, since these are tried with no look at a cell; that they are those of 330 and 350 is the contract, which
// knows one table only. To find them in the rows would be a walk for their codes, and no plainer.
#[tactic(auto, using(crate::proofs::Spelling::debt_text, crate::proofs::Spelling::bond_text))]
pub fn debt_and_bond(cfi: &[u8]) -> [bool; 2]
    ensures { result ≡ matches_code 330 cfi.now ∷ matches_code 350 cfi.now ∷ [] }
{
    let debt = matches_one(cfi, &[*b"D*****"]);
    let bond = matches_one(cfi, &[*b"DB****", *b"DC****", *b"DT****", *b"DN****"]);
    [debt, bond]
}

// Of each of the 19 codes by CFI, in rising order, whether it is violated. Every pattern has six letters, and most lines have
// no CFI: then nothing is walked.
#[tactic(auto, using(crate::proofs::NoCfi::no_cfi))]
pub fn cfi_findings(kinds: &[u8; 66], cfi: &[u8]) -> [bool; 19]
    ensures { result ≡ cfi_findings kinds.now cfi.now }
{
    let mut found = [false; 19];
    if cfi.len() != 6 {
        return found;
    }
    for row in rows_of(cfi[0]) {
        if row.is_broken(kinds, cfi) {
            mark(&mut found, row.code);
        }
    }
    found
}
