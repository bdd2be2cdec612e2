// What include/boanhetri.h declares: one line judged, a register converted, and a judged line noted in the day's summary. The crate
// capi_c exports these for a host that links C.
#![tactic(auto)]

ghost use Rattle.std.specs.Prelude.{not, eqb, length};
ghost use Rattle.register.specs.Conversion.{Converted};
ghost use Rattle.facts.specs.Call.{call};
ghost use Rattle.judge.specs.Outcome.{outcome, Judged};
ghost use Rattle.summary.specs.Judged.{line_of};
ghost use Rattle.summary.specs.Noting.{note_of, Noting};

use summary::{Noted, Record};
use verdict::Verdict;

// Polish identifiers are judged where `polish` is any number but 0.
pub fn boanhetri_judge(
    line: &[u8],
    lei: &[u8],
    cty: &[u8],
    ccy: &[u8],
    ven: &[u8],
    ins: &[u8],
    register: &mut [u8],
    day: u32,
    micro: u64,
    polish: u32,
    findings: &mut [u16],
) -> Verdict
    ensures { Judged (outcome (call line.now lei.now cty.now ccy.now ven.now ins.now register.old day micro (not (eqb polish 0))) (length findings.old)) findings.old result findings.new register.new }
{
    judge::judge(
        line,
        lei,
        cty,
        ccy,
        ven,
        ins,
        register,
        day,
        micro,
        polish != 0,
        findings,
    )
}

// A register of version 1, written into another buffer as version 2.
pub fn boanhetri_convert(from: &[u8], to: &mut [u8]) -> u16
    ensures { Converted from.now to.old result to.new }
{
    register::convert(from, to)
}

// A judged line in the record of its entity, or in the first free one; else in the common record.
pub fn boanhetri_note(
    records: &mut [Record],
    common: &mut Record,
    line: &[u8],
    verdict: Verdict,
) -> Noted
    ensures { Noting (note_of records.old common.old (line_of line.now verdict)) result records.new common.new }
{
    summary::note(records, common, line, verdict)
}
