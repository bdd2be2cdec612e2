// Tries cases from outside on the crates below: a line of the input is what is expected, what is called and what it is
// called on. A line that opens with # begins a group, whose count is printed behind its name.
#![tactic(auto)]

ghost use Rattle.std.specs.Prelude.{◌≡◌, ◌≤◌, length};

mod answers;
mod judging;
mod leaves;
mod lent;
mod lines;
mod poland;
mod reading;
mod underlying;
mod values;

use answers::answer;
use reading::parted;
use std::io::{Input, Read};

#[derive(Clone, Copy)]
struct Tally {
    right: u32,
    wrong: u32,
}

impl Tally {
    fn none() -> Tally {
        Tally { right: 0, wrong: 0 }
    }

    fn count(&mut self, right: bool) {
        if right {
            self.right = self.right.saturating_add(1);
        } else {
            self.wrong = self.wrong.saturating_add(1);
        }
    }

    fn report(&self, rt: &impl Print) {
        let _ = println!(rt; ": {} right, {} wrong", self.right, self.wrong);
    }
}

// A case: expected number, call, input, parted by single spaces.
fn is_right(line: &[u8]) -> bool {
    let (expected, rest) = parted(line, b' ');
    let (call, input) = parted(rest, b' ');
    answer(call, input) == Some(text::number_in(expected))
}

fn take_line(rt: &impl Print, line: &[u8], tally: &mut Tally) {
    if text::starts_with(line, b"#") {
        if (0 < tally.right) | (0 < tally.wrong) {
            tally.report(rt);
        }
        let _ = rt.write_all(text::rest(line, 2));
        *tally = Tally::none();
        return;
    }
    let right = is_right(line);
    if !right {
        let _ = rt.write_all(b"\nwrong: ");
        let _ = rt.write_all(line);
    }
    tally.count(right);
}

fn run(rt: &impl Print, cases: &[u8]) {
    let mut tally = Tally::none();
    for line in cases.split_inclusive(|b| *b == b'\n') {
        take_line(rt, parted(line, b'\n').0, &mut tally);
    }
    tally.report(rt);
}

// Reads until the buffer is full, the input ends or a read fails, and answers how many bytes it put at the buffer's start. The
// library's calls that read to the end allocate.
fn read_full(input: &mut impl Read, buffer: &mut [u8]) -> usize
    ensures { result ≤ length buffer.new }
{
    let mut done = 0;
    while let Ok(n @ 1..) = input.read(&mut buffer[done..]) {
        done += n;
    }
    done
}

// Room for the cases. Lending it needs its length alone, so no more is said of it.
fn room() -> [u8; 524288]
    ensures { 524288 ≡ length result }
{
    [0; 524288]
}

fn main(rt: HostRuntime) {
    let mut cases = room();
    let n = read_full(&mut rt.reader(), &mut cases);
    run(&rt, &cases[..n]);
}
