// What include/boanhetri.h declares, exported for a host that links C: each call is the one of the same name in capi, with its clauses.
#![tactic(auto)]

ghost use Rattle.std.specs.Prelude.{not, eqb, length};
ghost use Rattle.register.specs.Conversion.{Converted};
ghost use Rattle.facts.specs.Call.{call};
ghost use Rattle.judge.specs.Outcome.{outcome, Judged};
ghost use Rattle.summary.specs.Judged.{line_of};
ghost use Rattle.summary.specs.Noting.{note_of, Noting};

use summary::{Noted, Record};
use verdict::Verdict;

#[unsafe(no_mangle)]
pub extern "C" fn boanhetri_judge(
    line: &[u8],
    lei: &[u8],
    cty: &[u8],
    ccy: &[u8],
    ven: &[u8],
    ins: &[u8],
    register: &mut [u8],
    day: u32,
    micro: u64,
    polish: u32,
    findings: &mut [u16],
) -> Verdict
    ensures { Judged (outcome (call line.now lei.now cty.now ccy.now ven.now ins.now register.old day micro (not (eqb polish 0))) (length findings.old)) findings.old result findings.new register.new }
{
    capi::boanhetri_judge(
        line, lei, cty, ccy, ven, ins, register, day, micro, polish, findings,
    )
}

#[unsafe(no_mangle)]
pub extern "C" fn boanhetri_convert(from: &[u8], to: &mut [u8]) -> u16
    ensures { Converted from.now to.old result to.new }
{
    capi::boanhetri_convert(from, to)
}

#[unsafe(no_mangle)]
pub extern "C" fn boanhetri_note(
    records: &mut [Record],
    common: &mut Record,
    line: &[u8],
    verdict: Verdict,
) -> Noted
    ensures { Noting (note_of records.old common.old (line_of line.now verdict)) result records.new common.new }
{
    capi::boanhetri_note(records, common, line, verdict)
}
