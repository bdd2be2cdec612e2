// The program: judges each case of a file on standard input, and writes the results to standard output.
//
// docs/CASES.md has the form of both. What is read and written no contract can say; what is written for a case is
// proved of `result`. No program can give an exit status: where the file is not of that form there is a message, and
// results are missing.
#![tactic(auto)]

ghost use Rattle.std.specs.Prelude.{length};
ghost use Rattle.facts.specs.Call.{call};
ghost use Rattle.judge.specs.Outcome.{outcome};
ghost use Rattle.replay.specs.Results.{Resulted};

mod lent;
mod numbers;
mod reading;
mod results;

use lent::Lists;
use numbers::{ENTRIES, entries_in};
use reading::{Fault, read_bytes, read_field, read_number, read_part};
use results::keep_result;
use std::io::Input;

// The most bytes that a line has.
const LINE: usize = 4200;

// The most bytes that a register has.
const REGISTER: usize = 2048;

// Answer, count and words, the findings, the register: no result is longer.
const LONGEST: usize = 28 + 2 * ENTRIES + REGISTER;

// What a record is: one of the five lists, or a case.
#[derive(Clone, Copy, PartialEq, Eq)]
enum Kind {
    Lei,
    Cty,
    Ccy,
    Ven,
    Ins,
    Case,
}

impl TryFrom<u32> for Kind {
    type Error = Fault;

    fn try_from(kind: u32) -> Result<Kind, Fault> {
        match kind {
            1 => Ok(Kind::Lei),
            2 => Ok(Kind::Cty),
            3 => Ok(Kind::Ccy),
            4 => Ok(Kind::Ven),
            5 => Ok(Kind::Ins),
            6 => Ok(Kind::Case),
            _ => Err(Fault::UnknownKind),
        }
    }
}

// What a case has between its register and its findings.
#[derive(Clone, Copy)]
struct Moment {
    day: u32,
    micro: u64,
    // where it is not 0, Polish identifiers are judged
    polish: u32,
    // how many entries the findings buffer has
    entries: u32,
}

// Judges a case and puts its result at the start of `out`. The parameters are those of `judge`, and the buffer.
fn result(
    line: &[u8],
    lei: &[u8],
    cty: &[u8],
    ccy: &[u8],
    ven: &[u8],
    ins: &[u8],
    register: &mut [u8],
    day: u32,
    micro: u64,
    polish: bool,
    findings: &mut [u16],
    out: &mut [u8],
) -> usize
    ensures { Resulted (outcome (call line.now lei.now cty.now ccy.now ven.now ins.now register.old day micro polish) (length findings.old)) findings.old findings.new register.old register.new out.old out.new result }
{
    let verdict = judge::judge(
        line, lei, cty, ccy, ven, ins, register, day, micro, polish, findings,
    );
    keep_result(out, verdict, findings, register)
}

// What is expected of a case takes as many bytes as its result: it is read over that, and dropped.
fn report(
    rt: &(impl Input + Print),
    line: &[u8],
    lists: &lists::Lists,
    register: &mut [u8],
    moment: &Moment,
    findings: &mut [u16],
) -> Result<(), Fault> {
    let mut out = [0u8; LONGEST];
    let n = result(
        line,
        lists.lei,
        lists.cty,
        lists.ccy,
        lists.ven,
        lists.ins,
        register,
        moment.day,
        moment.micro,
        moment.polish != 0,
        findings,
        &mut out,
    );
    if rt.write_all(text::head(&out, n)).is_err() {
        return Err(Fault::Unwritten);
    }
    read_part(rt, &mut out, n)?;
    Ok(())
}

// All of it is read at once: each read is a call of the system.
fn read_moment(rt: &impl Input) -> Result<Moment, Fault> {
    let bytes: [u8; 20] = read_bytes(rt)?;
    let low = u64::from(text::le32(&bytes, 4));
    let high = u64::from(text::le32(&bytes, 8));
    Ok(Moment {
        day: text::le32(&bytes, 0),
        micro: high << 32 | low,
        polish: text::le32(&bytes, 12),
        entries: text::le32(&bytes, 16),
    })
}

fn take_case(rt: &(impl Input + Print), lists: &Lists) -> Result<(), Fault> {
    let lists = lists.all()?;
    let mut line = [0u8; LINE];
    let line = read_field(rt, &mut line)?;
    let mut register = [0u8; REGISTER];
    let register = read_field(rt, &mut register)?;
    let moment = read_moment(rt)?;
    let n = moment.entries as usize;
    let mut bytes = [0u8; 2 * ENTRIES];
    let mut findings = entries_in(read_part(rt, &mut bytes, 2 * n)?);
    report(rt, line, &lists, register, &moment, &mut findings[..n])
}

fn take_record(rt: &(impl Input + Print), lists: &mut Lists) -> Result<Kind, Fault> {
    let kind = Kind::try_from(read_number(rt)?)?;
    match kind {
        Kind::Lei => lists.lei.read(rt)?,
        Kind::Cty => lists.cty.read(rt)?,
        Kind::Ccy => lists.ccy.read(rt)?,
        Kind::Ven => lists.ven.read(rt)?,
        Kind::Ins => lists.ins.read(rt)?,
        Kind::Case => take_case(rt, lists)?,
    }
    Ok(kind)
}

// Nothing says how many records follow, so the loop has more turns than a run uses up.
fn take_all(rt: &(impl Input + Print), cases: u32) -> Result<(), Fault> {
    let mut lists = Lists::unread();
    let mut left = cases;
    for _ in 0..u64::MAX {
        if left == 0 {
            return Ok(());
        }
        if take_record(rt, &mut lists)? == Kind::Case {
            left -= 1;
        }
    }
    Ok(())
}

fn run(rt: &(impl Input + Print)) -> Result<(), Fault> {
    let head: [u8; 12] = read_bytes(rt)?;
    if !text::starts_with(&head, b"CASE\x02\x00\x00\x00") {
        return Err(Fault::OtherVersion);
    }
    take_all(rt, text::le32(&head, 8))
}

fn main(rt: HostRuntime) {
    if let Err(fault) = run(&rt) {
        let _ = eprintln!(rt; "replay: {fault}");
    }
}
