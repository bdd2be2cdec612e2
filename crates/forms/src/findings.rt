// The findings 1001 to 1065 of a line.
ghost use Rattle.std.specs.Prelude.{◌≡◌, false};
ghost use Rattle.text.specs.Word.{same};
ghost use Rattle.cells.specs.Cells.{cell};
ghost use Rattle.forms.specs.Forms.{status_word};
ghost use Rattle.forms.specs.Findings.{status_of, form_findings};

use crate::meanings::is_status;
use crate::new_cells::new_findings;
use crate::read::read_cells;
use cells::SplitLine;
use text::Class;

// What cell 1 says of a line.
#[derive(Clone, Copy, PartialEq, Eq)]
pub enum Status {
    // NEW
    New,
    // CXL
    Cancellation,
    Neither,
}

#[tactic(auto, unfolding(crate::specs::Findings::status_of))]
pub fn status_of(s: &[u8]) -> Status
    ensures { result ≡ status_of s.now }
{
    if text::same(s, b"NEW") {
        return Status::New;
    }
    if text::same(s, b"CXL") {
        return Status::Cancellation;
    }
    Status::Neither
}

// Of a CXL only the cells that it needs are read: 1, 2, 4 and 6.
fn cancellation_findings(split: &SplitLine) -> [bool; 65]
    requires { status_of (cell split.now.line.now 1) ≡ Status.Cancellation }
    ensures { result ≡ form_findings split.now.line.now }
{
    let c1 = split.cell(1);
    let c2 = split.cell(2);
    let c4 = split.cell(4);
    let c6 = split.cell(6);
    let mut flags = [false; 65];
    flags[0] = (c1.len() == 0) | !is_status(c1);
    flags[1] = (c2.len() == 0) | !text::run_of(c2, Class::CapitalDigit, 1, 52);
    flags[3] = (c4.len() == 0) | !ident::lei_shaped(c4);
    flags[5] = (c6.len() == 0) | !ident::lei_shaped(c6);
    flags
}

// Of a line that is not NEW. Where it is not CXL either, the one finding is 1001.
pub fn other_findings(split: &SplitLine) -> [bool; 65]
    requires { same (status_word Status.New) (cell split.now.line.now 1) ≡ false }
    ensures { result ≡ form_findings split.now.line.now }
{
    if text::same(split.cell(1), b"CXL") {
        return cancellation_findings(split);
    }
    let mut flags = [false; 65];
    flags[0] = true;
    flags
}

// The 65 flags of a line: flag f - 1 is finding 1000 + f.
#[tactic(auto, unfolding(crate::specs::Findings::status_of))]
pub fn form_findings(split: &SplitLine) -> [bool; 65]
    ensures { result ≡ form_findings split.now.line.now }
{
    if text::same(split.cell(1), b"NEW") {
        return new_findings(&read_cells(split));
    }
    other_findings(split)
}
