// The frame that all five lists share.
ghost use Rattle.std.specs.Prelude.{◌≡◌};
ghost use Rattle.lists.specs.Frame.{framed};

use crate::rows::{Countries, Currencies, Instruments, Leis, List, Venues};
use text::{byte_at, le32, word};

#[derive(Clone, Copy)]
pub enum Mark {
    Lei,
    Cty,
    Ccy,
    Ven,
    Ins,
}

// A count of 32 bits times a row's width stays far below what a length can be, so that no count wraps round to a length.
fn framed_as<L: List>(list: &[u8]) -> bool
    ensures { result ≡ framed L.mark list.now }
{
    if list.len() < 9 {
        return false;
    }
    let whole = 9 + le32(list, 5) as usize * L::WIDTH;
    (word(list, 0, 4) == L::OPENING) & (byte_at(list, 4) == 0) & (list.len() == whole)
}

pub fn framed(mark: Mark, list: &[u8]) -> bool
    ensures { result ≡ framed mark list.now }
{
    match mark {
        Mark::Lei => framed_as::<Leis>(list),
        Mark::Cty => framed_as::<Countries>(list),
        Mark::Ccy => framed_as::<Currencies>(list),
        Mark::Ven => framed_as::<Venues>(list),
        Mark::Ins => framed_as::<Instruments>(list),
    }
}
