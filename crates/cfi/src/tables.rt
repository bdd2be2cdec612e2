// The rules by CFI as constant tables, one for each first letter of a CFI, so that a line has only its own letter's walked.
ghost use Rattle.cfi.specs.Table.{Spelled};

use Fault::{Blank, Not, Present, PresentNot, UnitsAnd};

// What can be wrong with a cell.
#[derive(Clone, Copy)]
pub enum Fault {
    Blank,
    Present,
    // Present, but not the value.
    PresentNot(u8),
    // Not the value, be it present or blank.
    Not(u8),
    // The value, and cell 30 is in units.
    UnitsAnd(u8),
}

// A code, a cell, what is wrong with the cell, and the patterns of the CFIs for which it is.
#[derive(Clone, Copy)]
pub struct Row {
    pub code: u16,
    pub cell: usize,
    pub fault: Fault,
    pub patterns: &'static [[u8; 6]],
}

// Numbers, as the argument `kinds` of `cfi_findings` has them. The values of cell 30,
pub const UNT: u8 = 2;

// of cell 33,
const PC: u8 = 4;

// of cell 47,
const SWAP: u8 = 2;

// of cell 50,
const PUTO: u8 = 2;

const CALL: u8 = 3;

const OTHR: u8 = 4;

// and of cell 56.
const PHYS: u8 = 2;

const CASH: u8 = 3;

// The codes in rising order, as the flags have them.
pub const CODES: [u16; 19] = [
    330, 350, 380, 473, 480, 481, 490, 500, 501, 502, 510, 511, 530, 531, 540, 542, 550, 551, 560,
];

// A row in one line.
macro_rules! row {
    ($code:literal, $cell:literal, $fault:expr, $($pattern:literal)*) => {
        Row { code: $code, cell: $cell, fault: $fault, patterns: &[$(*$pattern),*] }
    };
}

const C_ROWS: [Row; 6] = [
    row!(481, 48, Present, b"C*****"),
    row!(501, 50, Present, b"C*****"),
    row!(511, 51, Present, b"C*****"),
    row!(531, 53, Present, b"C*****"),
    row!(542, 54, Present, b"C*****"),
    row!(551, 55, Present, b"C*****"),
];

const D_ROWS: [Row; 8] = [
    row!(330, 33, UnitsAnd(PC), b"D*****"),
    row!(350, 35, Blank, b"DB****" b"DC****" b"DT****" b"DN****"),
    row!(481, 48, Present, b"DB****" b"DT****" b"DY****"),
    row!(501, 50, Present, b"D*****"),
    row!(511, 51, Present, b"D*****"),
    row!(531, 53, Present, b"D*****"),
    row!(540, 54, Blank, b"D*****"),
    row!(551, 55, Present, b"D*****"),
];

const E_ROWS: [Row; 6] = [
    row!(481, 48, Present, b"ES****" b"EP****" b"EC****" b"EF****" b"EL****" b"ED****" b"EM****" b"EX****"),
    row!(501, 50, Present, b"E*****"),
    row!(511, 51, Present, b"E*****"),
    row!(531, 53, Present, b"E*****"),
    row!(542, 54, Present, b"E*****"),
    row!(551, 55, Present, b"E*****"),
];

const F_ROWS: [Row; 9] = [
    row!(480, 48, Blank, b"FFI***" b"FFN***"),
    row!(490, 49, Blank, b"FFN***"),
    row!(501, 50, Present, b"F*****"),
    row!(511, 51, Present, b"F*****"),
    row!(531, 53, Present, b"F*****"),
    row!(542, 54, Present, b"F*****"),
    row!(550, 55, Blank, b"F*****"),
    row!(560, 56, Not(PHYS), b"FF**P*" b"FC**P*"),
    row!(560, 56, Not(CASH), b"FF**C*" b"FC**C*"),
];

const H_ROWS: [Row; 9] = [
    row!(500, 50, Blank, b"H*****"),
    row!(502, 50, PresentNot(CALL), b"H**A**" b"H**B**" b"H**C**"),
    row!(502, 50, PresentNot(PUTO), b"H**D**" b"H**E**" b"H**F**"),
    row!(502, 50, PresentNot(OTHR), b"H**G**" b"H**H**" b"H**I**"),
    row!(510, 51, Blank, b"H*****"),
    row!(530, 53, Blank, b"H*****"),
    row!(542, 54, Present, b"H*****"),
    row!(560, 56, Not(PHYS), b"HR***P" b"HT***P" b"HE***P" b"HC***P" b"HF***P" b"HM***P"),
    row!(560, 56, Not(CASH), b"HR***C" b"HT***C" b"HE***C" b"HC***C" b"HF***C" b"HM***C"),
];

const I_ROWS: [Row; 1] = [row!(560, 56, Not(PHYS), b"IF***P")];

const J_ROWS: [Row; 7] = [
    row!(501, 50, Present, b"J*****"),
    row!(511, 51, Present, b"J*****"),
    row!(531, 53, Present, b"J*****"),
    row!(542, 54, Present, b"J*****"),
    row!(550, 55, Blank, b"JC**F*"),
    row!(560, 56, Not(PHYS), b"JE***P" b"JF***P" b"JC***P" b"JR***P" b"JT***P"),
    row!(560, 56, Not(CASH), b"JE***C" b"JF***C" b"JC***C" b"JR***C" b"JT***C"),
];

const L_ROWS: [Row; 2] = [
    row!(560, 56, Not(PHYS), b"LL***P"),
    row!(560, 56, Not(CASH), b"LL***C"),
];

const O_ROWS: [Row; 12] = [
    row!(480, 48, Blank, b"O**I**" b"O**N**"),
    row!(490, 49, Blank, b"O**N**"),
    row!(500, 50, Blank, b"O*****"),
    row!(502, 50, PresentNot(CALL), b"OC****"),
    row!(502, 50, PresentNot(PUTO), b"OP****"),
    row!(502, 50, PresentNot(OTHR), b"OM****"),
    row!(510, 51, Blank, b"O*****"),
    row!(530, 53, Blank, b"O*****"),
    row!(542, 54, Present, b"O*****"),
    row!(550, 55, Blank, b"O*****"),
    row!(560, 56, Not(PHYS), b"OC**P*" b"OP**P*"),
    row!(560, 56, Not(CASH), b"OC**C*" b"OP**C*"),
];

const R_ROWS: [Row; 8] = [
    row!(480, 48, Blank, b"RWI***" b"RFI***"),
    row!(500, 50, Blank, b"RW****"),
    row!(502, 50, PresentNot(CALL), b"RW**C*"),
    row!(502, 50, PresentNot(PUTO), b"RW**P*"),
    row!(502, 50, PresentNot(OTHR), b"RW**B*"),
    row!(510, 51, Blank, b"RW****"),
    row!(530, 53, Blank, b"RW****" b"RF****"),
    row!(542, 54, Present, b"R*****"),
];

const S_ROWS: [Row; 8] = [
    row!(380, 38, Blank, b"SC****"),
    row!(473, 47, Not(SWAP), b"S*****"),
    row!(501, 50, Present, b"S*****"),
    row!(511, 51, Present, b"S*****"),
    row!(531, 53, Present, b"S*****"),
    row!(542, 54, Present, b"S*****"),
    row!(560, 56, Not(PHYS), b"SR***P" b"ST***P" b"SE***P" b"SC***P" b"SF***P" b"SM***P"),
    row!(560, 56, Not(CASH), b"SR***C" b"ST***C" b"SE***C" b"SC***C" b"SM***C"),
];

// The table of a letter. No pattern has another first letter.
pub fn rows_of(letter: u8) -> &'static [Row]
    ensures { Spelled letter result.now }
{
    match letter {
        b'C' => &C_ROWS,
        b'D' => &D_ROWS,
        b'E' => &E_ROWS,
        b'F' => &F_ROWS,
        b'H' => &H_ROWS,
        b'I' => &I_ROWS,
        b'J' => &J_ROWS,
        b'L' => &L_ROWS,
        b'O' => &O_ROWS,
        b'R' => &R_ROWS,
        b'S' => &S_ROWS,
        _ => &[],
    }
}
