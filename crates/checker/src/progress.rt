// Where the program stands between two bytes of its input, and how it goes on.
ghost use Rattle.std.specs.Prelude.{◌≡◌, take};
ghost use Rattle.checker.specs.Setting.{empty_register};
ghost use Rattle.checker.specs.Progress.{start, told, Answered, Told, Advanced, Finished, Reached};

use crate::lines::{bare, line_end};
use buffer::Text;
use printing::{LONGEST, listed, push_answer};
use table::Table;
use verdict::CODE_COUNT;

// Of a line no more bytes are kept. A line of at most 4,097, a CR of its end among them, is kept whole. A longer one is refused for its
// length, and so is what is kept of it, so the rest is not needed.
const ROOM: usize = 4098;

pub type Answer = Text<LONGEST>;

// What one line leaves to the next: the next one's number, the register, and the table of the summary.
#[derive(Drop)]
pub struct Carried {
    pub number: u64,
    pub register: [u8; 305],
    pub table: Table,
}

// Beside that the bytes kept of the line that has begun.
#[derive(Drop)]
pub struct Progress {
    pub begun: Text<ROOM>,
    pub carried: Carried,
}

// Mark TRN, version 1, no row used, room for 4 rows of 74 bytes. A constant would be the 305 bytes written out.
fn empty_register() -> [u8; 305]
    ensures { result ≡ empty_register }
{
    let mut register = [0; 305];
    register[..4].copy_from_slice(b"TRN\x01");
    register
}

impl Carried {
    // Judges a line, notes it in the table, and puts what is printed for it.
    fn answer(&mut self, line: &[u8], out: &mut Answer)
        ensures { Answered self.old line.now out.new self.new }
    {
        let mut findings = [0; CODE_COUNT];
        let verdict = judge::judge(
            line,
            b"LEI\x01\x00\x00\x00\x00\x00",
            b"CTY\x01\x00\x00\x00\x00\x00",
            b"CCY\x01\x00\x00\x00\x00\x00",
            b"VEN\x01\x00\x00\x00\x00\x00",
            b"INS\x01\x00\x00\x00\x00\x00",
            &mut self.register,
            20250322,
            43200000000,
            false,
            &mut findings,
        );
        self.table.note(line, verdict);
        out.clear();
        push_answer(
            out,
            self.number,
            verdict.answer,
            verdict.count,
            listed(&findings, verdict.count),
        );
    }

    // Line one is skipped.
    fn tell(&mut self, line: &[u8], out: &mut Answer)
        ensures { Told self.old line.now out.new self.new }
    {
        if self.number <= 1 {
            out.clear();
        } else {
            self.answer(line, out);
        }
    }
}

impl Progress {
    pub fn start() -> Progress
        ensures { result ≡ start }
    {
        Progress {
            begun: Text::new(),
            carried: Carried {
                number: 1,
                register: empty_register(),
                table: Table::empty(),
            },
        }
    }

    // A turn: takes a chunk up to the first LF, which ends the line, or keeps all of it. How many bytes it took.
    pub fn advance(&mut self, chunk: &[u8], out: &mut Answer) -> usize
        ensures { Advanced self.old chunk.now result self.new out.new }
    {
        let end = line_end(chunk);
        self.begun.push_all(text::head(chunk, end));
        if end == chunk.len() {
            out.clear();
            return end;
        }
        self.carried.tell(bare(self.begun.as_slice()), out);
        self.begun.clear();
        self.carried.number = self.carried.number.saturating_add(1);
        end + 1
    }

    // At the end of the input: a last line without LF is a line. What is handed in is where some bytes have led from the start.
    pub fn finish(&mut self, out: &mut Answer)
        requires { Reached start self.old }
        ensures { Finished self.old out.new self.new.carried.table }
    {
        let last = self.begun.as_slice();
        if last.is_empty() {
            out.clear();
        } else {
            self.carried.tell(last, out);
        }
    }
}
