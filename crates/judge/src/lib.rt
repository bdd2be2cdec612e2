// One line judged: refused by number, or answered with its findings, and the register written where there are none.
#![tactic(auto)]

ghost use Rattle.std.specs.Prelude.{◌≡◌, cond, List, ℕ, length};
ghost use Rattle.register.specs.Frame.{row_width};
ghost use Rattle.register.specs.Written.{set_live, set_cancelled};
ghost use Rattle.facts.specs.Call.{call};
ghost use Rattle.facts.specs.Rules.{pair_stands, all_flags};
ghost use Rattle.judge.specs.Answer.{answered};
ghost use Rattle.judge.specs.Outcome.{pair_of, outcome, Judged};

mod refusals;

use crate::refusals::{Refusal, check_call, number};
use calendar::Moment;
use cells::SplitLine;
use lists::Lists;
use register::Standing;
use verdict::{CODE_COUNT, Verdict};

fn pair_of(split: &SplitLine) -> [u8; 73]
    ensures { result ≡ pair_of split.now.line.now }
{
    register::pair_bytes(split.cell(4), split.cell(2))
}

// The register once a line is accepted.
fn settle(
    register: &mut [u8],
    width: usize,
    new: bool,
    found: Option<usize>,
    pair: &[u8; 73],
    day: u32,
)
    requires { width ≡ row_width register.old }
    ensures { register.new ≡ cond new (set_live register.old found pair.now day) (set_cancelled register.old found day) }
{
    if new {
        register::set_live(register, width, found, pair, day);
    } else {
        register::set_cancelled(register, width, found, day);
    }
}

// The flags of a line: of one that is NEW all is read and asked, of another its submitting entity only.
fn flags_of(
    split: &SplitLine,
    lists: &Lists,
    standing: Standing,
    submitted: Moment,
    polish: bool,
) -> [bool; CODE_COUNT]
    ensures { (register : List ℕ) → standing ≡ pair_stands register split.now.line.now → result ≡ all_flags (call split.now.line.now lists.now.lei.now lists.now.cty.now lists.now.ccy.now lists.now.ven.now lists.now.ins.now register submitted.day submitted.micro polish) }
{
    if text::same(split.cell(1), b"NEW") {
        let line = forms::read_cells(split);
        let asked = asked::ask(split, &line.read, lists, submitted.day);
        return rules::when_new(&line, asked, standing, submitted, polish);
    }
    let submitting = asked::lei_fit(lists.lei, split.cell(6), submitted.day);
    rules::unless_new(split, submitting, standing)
}

// The verdict on a line, or why it is refused.
fn judge_line(
    line: &[u8],
    lists: &Lists,
    register: &mut [u8],
    submitted: Moment,
    polish: bool,
    findings: &mut [u16],
) -> Result<Verdict, Refusal>
    ensures { Judged (outcome (call line.now lists.now.lei.now lists.now.cty.now lists.now.ccy.now lists.now.ven.now lists.now.ins.now register.old submitted.day submitted.micro polish) (length findings.old)) findings.old (answered result) findings.new register.new }
{
    let width = register::row_width(register);
    check_call(line, lists, width, submitted, polish, findings.len())?;
    let Some(split) = cells::split(line) else {
        return Err(Refusal::Cells);
    };
    let pair = pair_of(&split);
    let found = register::find(register, width, &pair);
    let standing = register::standing_at(register, width, found);
    let flags = flags_of(&split, lists, standing, submitted, polish);
    let verdict = verdict::judged(&flags);
    if verdict.count != 0 {
        verdict::list_by_words(verdict.words, findings);
        return Ok(verdict);
    }
    let new = text::same(split.cell(1), b"NEW");
    if new & facts::is_absent(standing) & register::full(register, width) {
        return Err(Refusal::Full);
    }
    settle(register, width, new, found, &pair, submitted.day);
    Ok(verdict)
}

// The parameters are those of `boanhetri_judge`, the C interface; `judge_contract` ties them by name.
pub fn judge(
    line: &[u8],
    lei: &[u8],
    cty: &[u8],
    ccy: &[u8],
    ven: &[u8],
    ins: &[u8],
    register: &mut [u8],
    day: u32,
    micro: u64,
    polish: bool,
    findings: &mut [u16],
) -> Verdict
    ensures { Judged (outcome (call line.now lei.now cty.now ccy.now ven.now ins.now register.old day micro polish) (length findings.old)) findings.old result findings.new register.new }
{
    let lists = Lists {
        lei,
        cty,
        ccy,
        ven,
        ins,
    };
    let submitted = Moment { day, micro };
    match judge_line(line, &lists, register, submitted, polish, findings) {
        Ok(verdict) => verdict,
        Err(refusal) => verdict::refused(number(refusal)),
    }
}
