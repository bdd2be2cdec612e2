// The five lists, one type each: how wide its rows are, by which word of the key rows are passed, and what one row says, whatever its key: the
// questions of the paper for the list, all answered in one reading.
ghost use Rattle.std.specs.Prelude.{◌≡◌, ◌≤◌, ℕ, [], ◌∷◌, ◌++◌, refl};
ghost use Rattle.text.specs.Number.{little_endian};
ghost use Rattle.std.proofs.Common.{rules};
ghost use Rattle.lists.specs.declared.frame.Mark.{Mark};
ghost use Rattle.lists.specs.declared.frame.Mark.TheVariants.{Lei, Cty, Ccy, Ven, Ins};
ghost use Rattle.lists.specs.Table.{letters_of, key_width, row_width};
ghost use Rattle.lists.specs.Row.{in_days};
ghost use Rattle.lists.specs.Questions.{row_says, joined, complete, Worded};

use crate::frame::Mark;
use cfi::debt_and_bond;
use text::{byte_at, le32, part};

// The answers to a list's questions, in the order in which its look-up names them. A list with fewer than three repeats its last, so
// that all three are true exactly if no further row can change an answer.
// A struct and no array: the questions have names in specs/, and an array is no plainer.
#[derive(Clone, Copy)]
pub struct Answers {
    pub first: bool,
    pub second: bool,
    pub third: bool,
}

impl Answers {
    // Before any row is read.
    pub const NONE: Answers = Answers {
        first: false,
        second: false,
        third: false,
    };

    pub fn joined(self, more: Answers) -> Answers
        ensures { result ≡ joined self more }
    {
        Answers {
            first: self.first | more.first,
            second: self.second | more.second,
            third: self.third | more.third,
        }
    }

    pub fn complete(self) -> bool
        ensures { result ≡ complete self }
    {
        self.first & self.second & self.third
    }
}

pub trait List {
    // The number that the list's first four bytes write, least first: the letters of its mark, and the low byte of version 1.
    const OPENING: u64;

    // The bytes of a row, and of the key that it begins with.
    const WIDTH: usize;

    const KEY: usize;

    // Where in the key the word stands by which rows with another key are passed, and how many bytes it has.
    const PLACE: usize;

    const SIZE: usize;

    ghost OPENING: { ℕ };

    ghost WIDTH: { ℕ };

    ghost KEY: { ℕ };

    ghost PLACE: { ℕ };

    ghost SIZE: { ℕ };

    ghost mark: { Mark };

    fn says(row: &[u8], day: u32) -> Answers
        ensures { result ≡ row_says mark day row.now };

    ghost opens: { OPENING ≡ little_endian 4 (letters_of mark ++ (1 ∷ [])) };

    ghost width_is: { WIDTH ≡ row_width mark };

    ghost key_is: { KEY ≡ key_width mark };

    ghost is_worded: { Worded KEY WIDTH PLACE SIZE };
}

pub struct Leis;

pub struct Countries;

pub struct Currencies;

pub struct Venues;

pub struct Instruments;

// The two days at a place of a row, both included.
fn in_days(row: &[u8], at: usize, day: u32) -> bool
    requires { at ≤ 18 }
    ensures { result ≡ in_days at day row.now }
{
    (le32(row, at) <= day) & (day <= le32(row, at + 4))
}

// Entities of one issuer begin alike: the word is the eight bytes from the ninth on.
impl List for Leis {
    const OPENING: u64 = 0x149454c;

    const WIDTH: usize = 30;

    const KEY: usize = 20;

    const PLACE: usize = 8;

    const SIZE: usize = 8;

    ghost OPENING = { 0x149454c };

    ghost WIDTH = { 30 };

    ghost KEY = { 20 };

    ghost PLACE = { 8 };

    ghost SIZE = { 8 };

    ghost mark = { Lei };

    ghost opens = { refl };

    ghost width_is = { refl };

    ghost key_is = { refl };

    ghost is_worded = { Prim.search rules };

    fn says(row: &[u8], day: u32) -> Answers {
        let status = byte_at(row, 20);
        let entity = byte_at(row, 21);
        let registered = le32(row, 22) <= day;
        let updated = day <= le32(row, 26);
        let acts = (entity == 1) | (entity == 2) & updated;
        let unlapsed = (status == 1) | (status == 3) | (status == 4);
        let any = (1 <= status) & (status <= 4);
        Answers {
            first: unlapsed & acts & registered,
            second: any & acts & registered,
            third: any & acts,
        }
    }
}

// The word is the whole key.
impl List for Countries {
    const OPENING: u64 = 0x1595443;

    const WIDTH: usize = 10;

    const KEY: usize = 2;

    const PLACE: usize = 0;

    const SIZE: usize = 2;

    ghost OPENING = { 0x1595443 };

    ghost WIDTH = { 10 };

    ghost KEY = { 2 };

    ghost PLACE = { 0 };

    ghost SIZE = { 2 };

    ghost mark = { Cty };

    ghost opens = { refl };

    ghost width_is = { refl };

    ghost key_is = { refl };

    ghost is_worded = { Prim.search rules };

    fn says(row: &[u8], day: u32) -> Answers {
        let on = in_days(row, 2, day);
        Answers {
            first: on,
            second: on,
            third: on,
        }
    }
}

// The word is the last two letters.
impl List for Currencies {
    const OPENING: u64 = 0x1594343;

    const WIDTH: usize = 12;

    const KEY: usize = 3;

    const PLACE: usize = 1;

    const SIZE: usize = 2;

    ghost OPENING = { 0x1594343 };

    ghost WIDTH = { 12 };

    ghost KEY = { 3 };

    ghost PLACE = { 1 };

    ghost SIZE = { 2 };

    ghost mark = { Ccy };

    ghost opens = { refl };

    ghost width_is = { refl };

    ghost key_is = { refl };

    ghost is_worded = { Prim.search rules };

    fn says(row: &[u8], day: u32) -> Answers {
        let kind = byte_at(row, 3);
        let current = (kind == 1) & in_days(row, 4, day);
        let pre_euro = kind == 2;
        Answers {
            first: current,
            second: pre_euro,
            third: pre_euro,
        }
    }
}

impl List for Venues {
    const OPENING: u64 = 0x14e4556;

    const WIDTH: usize = 13;

    const KEY: usize = 4;

    const PLACE: usize = 0;

    const SIZE: usize = 4;

    ghost OPENING = { 0x14e4556 };

    ghost WIDTH = { 13 };

    ghost KEY = { 4 };

    ghost PLACE = { 0 };

    ghost SIZE = { 4 };

    ghost mark = { Ven };

    ghost opens = { refl };

    ghost width_is = { refl };

    ghost key_is = { refl };

    ghost is_worded = { Prim.search rules };

    fn says(row: &[u8], day: u32) -> Answers {
        let kind = byte_at(row, 4);
        let on = in_days(row, 5, day);
        Answers {
            first: (kind == 1) & on,
            second: (kind == 2) & on,
            third: (kind == 3) & on,
        }
    }
}

// The word is the last eight bytes of the ISIN. Debt and bonds are what 330 and 350 take for such.
impl List for Instruments {
    const OPENING: u64 = 0x1534e49;

    const WIDTH: usize = 26;

    const KEY: usize = 12;

    const PLACE: usize = 4;

    const SIZE: usize = 8;

    ghost OPENING = { 0x1534e49 };

    ghost WIDTH = { 26 };

    ghost KEY = { 12 };

    ghost PLACE = { 4 };

    ghost SIZE = { 8 };

    ghost mark = { Ins };

    ghost opens = { refl };

    ghost width_is = { refl };

    ghost key_is = { refl };

    ghost is_worded = { Prim.search rules };

    fn says(row: &[u8], day: u32) -> Answers {
        let cfi = part(row, 12, 18);
        let on = in_days(row, 18, day);
        let [debt, bond] = debt_and_bond(cfi);
        Answers {
            first: on,
            second: debt & on,
            third: bond & on,
        }
    }
}
