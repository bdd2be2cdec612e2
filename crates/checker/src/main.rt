// The program: judges standard input line by line over empty lists, and prints an answer for each line; with --summary the day's
// summary by firm behind them.
//
// What is read and written no contract can say. What is handed to the write is proved, whatever chunks the input comes in:
// `advance` takes a chunk up to the end of a line, `finish` the line that has begun where the input ends, and
// proofs/Program.antt has the theorem over both, with the summary's rows. The functions here call read and write, and carry on
// what these leave.
#![tactic(auto)]

ghost use Rattle.std.specs.Prelude.{◌≡◌, ◌+◌, ◌≤◌, [], take, length, IfOk, OnOk};
ghost use Rattle.checker.specs.Progress.{after, start, TookRead, ReadOn};
ghost use Rattle.table.specs.Rows.{record_count};
ghost use Rattle.printing.specs.Printed.{longest};
ghost use Rattle.printing.specs.Report.{part_of, Put};

mod lines;
mod progress;

use printing::put_row;
use progress::{Answer, Progress};
use std::fmt;
use std::io::{Input, Read};
use std::rt::Env;
use table::{ROW_COUNT, Table};

// A call that failed: it ends the run, and the line that it broke off is not judged.
#[derive(Clone, Copy)]
enum Failure {
    Input,
    Answer,
    Summary,
}

impl fmt::Display for Failure {
    fn fmt<W: fmt::Write>(&self, f: &mut fmt::Formatter<W>) -> fmt::Result {
        f.write_str(match self {
            Failure::Input => "the input could not be read",
            Failure::Answer => "an answer could not be written",
            Failure::Summary => "the summary could not be written",
        })
    }
}

fn take_chunk(rt: &impl Print, progress: &mut Progress, chunk: &[u8]) -> Result<(), Failure>
    ensures { OnOk result (progress.new ≡ after progress.old chunk.now) }
{
    let mut out = Answer::new();
    let mut at = 0;
    // A `while`: a turn takes as many bytes as `advance` says, and `turns` and `turn_takes` (proofs/Program.antt) speak of such turns.
    while at < chunk.len() {
        at += progress.advance(text::rest(chunk, at), &mut out);
        if rt.write_all(out.as_slice()).is_err() {
            return Err(Failure::Answer);
        }
    }
    Ok(())
}

// Takes what a read that gave so many bytes put into the chunk, and says whether the input has ended: where it gave none.
fn take_read(
    rt: &impl Print,
    progress: &mut Progress,
    chunk: &[u8],
    given: usize,
) -> Result<bool, Failure>
    ensures { IfOk result (λ ended. TookRead (take given chunk.now) progress.old progress.new ended) }
{
    let bytes = text::head(chunk, given);
    if bytes.is_empty() {
        return Ok(true);
    }
    take_chunk(rt, progress, bytes)?;
    Ok(false)
}

// Whether the input has ended. Nothing says that it does, so the loop counts its turns, up to a number that no run comes to.
fn read_all(rt: &(impl Input + Print), progress: &mut Progress) -> Result<bool, Failure>
    ensures { IfOk result (λ ended. ReadOn progress.old progress.new ended 18446744073709551615) }
{
    let mut input = rt.reader();
    let mut chunk = io::large_buffer();
    for _ in 0..u64::MAX {
        let Ok(given) = input.read(&mut chunk) else {
            return Err(Failure::Input);
        };
        let ended = take_read(rt, progress, &chunk, given)?;
        if ended {
            return Ok(true);
        }
    }
    Ok(false)
}

// Whether the first argument asks for the summary.
fn asks_summary(rt: &impl Env) -> bool {
    let mut word = [0u8; 16];
    match rt.arg(1, &mut word) {
        Ok(n) => text::same(text::head(&word, n), b"--summary"),
        Err(_) => false,
    }
}

// A row of the table, put in `out` and handed to the write; how many there are with it.
fn write_row(rt: &impl Print, out: &mut Answer, table: &Table, i: usize) -> Result<usize, Failure>
    requires { i ≤ record_count }
    ensures put { Put longest [] (part_of table.now i) out.new }
    ensures counted { IfOk result (λ rows. rows ≡ i + 1) }
{
    put_row(out, table, i);
    if rt.write_all(out.as_slice()).is_err() {
        return Err(Failure::Summary);
    }
    Ok(i + 1)
}

// How many rows of the table the summary was put of.
fn write_summary(rt: &impl Print, table: &Table) -> Result<usize, Failure>
    ensures { IfOk result (λ rows. rows ≡ record_count + 1) }
{
    if rt.write_all(b"summary\n").is_err() {
        return Err(Failure::Summary);
    }
    let mut out = Answer::new();
    let mut rows = 0;
    for i in 0..ROW_COUNT {
        rows = write_row(rt, &mut out, table, i)?;
    }
    Ok(rows)
}

fn run(rt: &(impl Input + Print + Env)) -> Result<(), Failure> {
    let mut progress = Progress::start();
    read_all(rt, &mut progress)?;
    let mut out = Answer::new();
    progress.finish(&mut out);
    if rt.write_all(out.as_slice()).is_err() {
        return Err(Failure::Answer);
    }
    if asks_summary(rt) {
        write_summary(rt, &progress.carried.table)?;
    }
    Ok(())
}

fn main(rt: HostRuntime) {
    if let Err(failure) = run(&rt) {
        let _ = eprintln!(rt; "checker: {failure}");
    }
}
