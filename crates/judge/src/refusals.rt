// Why a line is refused, in the order of checking.
ghost use Rattle.std.specs.Prelude.{◌≡◌, List, ℕ};
ghost use Rattle.text.specs.FirstFrom.{first_from};
ghost use Rattle.register.specs.Frame.{row_width};
ghost use Rattle.facts.specs.Call.{call};
ghost use Rattle.judge.specs.Refusal.{early};
ghost use Rattle.judge.specs.Answer.{number, number_in};

use calendar::Moment;
use lists::{Lists, Mark};

// The most bytes that a line has.
const LONGEST_LINE: usize = 4096;

#[derive(Clone, Copy)]
pub enum Refusal {
    // 1 to 5: the list is not framed
    LeiList,
    CtyList,
    CcyList,
    VenList,
    InsList,
    // 6: nor is the register
    Register,
    // 7: there is no such moment
    Moment,
    // 8: the findings buffer is too short
    Findings,
    // 9: the line is too long
    Length,
    // 10: it has not 65 cells
    Cells,
    // 11: no row is left for its pair
    Full,
}

// The match is the paper's list, as `number` of specs/ is.
pub fn number(refusal: Refusal) -> u16
    ensures { result ≡ number refusal }
{
    match refusal {
        Refusal::LeiList => 1,
        Refusal::CtyList => 2,
        Refusal::CcyList => 3,
        Refusal::VenList => 4,
        Refusal::InsList => 5,
        Refusal::Register => 6,
        Refusal::Moment => 7,
        Refusal::Findings => 8,
        Refusal::Length => 9,
        Refusal::Cells => 10,
        Refusal::Full => 11,
    }
}

// Refusals 1 to 9, over a register whose rows have that width.
#[tactic(auto, unfolding(text::specs::FirstFrom::first_from))]
pub fn check_call(
    line: &[u8],
    lists: &Lists,
    width: usize,
    submitted: Moment,
    polish: bool,
    room: usize,
) -> Result<(), Refusal>
    ensures { (register : List ℕ) → width ≡ row_width register → number_in result ≡ first_from 1 (early (call line.now lists.now.lei.now lists.now.cty.now lists.now.ccy.now lists.now.ven.now lists.now.ins.now register submitted.day submitted.micro polish) room) }
{
    if !lists::framed(Mark::Lei, lists.lei) {
        return Err(Refusal::LeiList);
    }
    if !lists::framed(Mark::Cty, lists.cty) {
        return Err(Refusal::CtyList);
    }
    if !lists::framed(Mark::Ccy, lists.ccy) {
        return Err(Refusal::CcyList);
    }
    if !lists::framed(Mark::Ven, lists.ven) {
        return Err(Refusal::VenList);
    }
    if !lists::framed(Mark::Ins, lists.ins) {
        return Err(Refusal::InsList);
    }
    if width == 0 {
        return Err(Refusal::Register);
    }
    if !calendar::is_moment(submitted.day, submitted.micro) {
        return Err(Refusal::Moment);
    }
    if room < verdict::entries_needed(polish) {
        return Err(Refusal::Findings);
    }
    if LONGEST_LINE < line.len() {
        return Err(Refusal::Length);
    }
    Ok(())
}
