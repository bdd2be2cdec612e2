// The lists that are lent to a case, each the last that a record gave.
use crate::reading::{Fault, read_field};
use std::io::Input;

// The most bytes that a list has.
const LIST: usize = 4096;

#[derive(Clone, Copy)]
pub struct List {
    room: [u8; LIST],
    // none where no record gave it yet
    length: Option<usize>,
}

impl List {
    fn unread() -> List {
        List {
            room: [0; LIST],
            length: None,
        }
    }

    pub fn read(&mut self, rt: &impl Input) -> Result<(), Fault> {
        self.length = Some(read_field(rt, &mut self.room)?.len());
        Ok(())
    }

    fn bytes(&self) -> Result<&[u8], Fault> {
        let n = self.length.ok_or(Fault::ListMissing)?;
        Ok(text::head(&self.room, n))
    }
}

#[derive(Drop)]
pub struct Lists {
    pub lei: List,
    pub cty: List,
    pub ccy: List,
    pub ven: List,
    pub ins: List,
}

impl Lists {
    pub fn unread() -> Lists {
        Lists {
            lei: List::unread(),
            cty: List::unread(),
            ccy: List::unread(),
            ven: List::unread(),
            ins: List::unread(),
        }
    }

    // The five as a case is judged with them.
    pub fn all(&self) -> Result<lists::Lists<'_>, Fault> {
        Ok(lists::Lists {
            lei: self.lei.bytes()?,
            cty: self.cty.bytes()?,
            ccy: self.ccy.bytes()?,
            ven: self.ven.bytes()?,
            ins: self.ins.bytes()?,
        })
    }
}
