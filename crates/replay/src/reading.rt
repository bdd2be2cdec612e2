// Reading the fields of a file of cases.
ghost use Rattle.std.specs.Prelude.{◌≡◌, ◌≤◌, IfOk, length};

use std::fmt;
use std::io::{Input, Read};

// Why a run ends before the last case is judged.
#[derive(Clone, Copy)]
pub enum Fault {
    OtherVersion,
    OverLimit,
    CutShort,
    UnknownKind,
    ListMissing,
    Unwritten,
}

impl fmt::Display for Fault {
    fn fmt<W: fmt::Write>(&self, f: &mut fmt::Formatter<W>) -> fmt::Result {
        f.write_str(match self {
            Fault::OtherVersion => "this is no file of cases of version 2",
            Fault::OverLimit => "a field is over its limit",
            Fault::CutShort => "the file is cut short or cannot be read",
            Fault::UnknownKind => "a record of an unknown kind",
            Fault::ListMissing => "a list is missing before a case",
            Fault::Unwritten => "a result could not be written",
        })
    }
}

// The next N bytes.
pub fn read_bytes<const N: usize>(rt: &impl Input) -> Result<[u8; N], Fault> {
    let mut bytes = [0u8; N];
    match rt.reader().read_exact(&mut bytes) {
        Ok(()) => Ok(bytes),
        Err(_) => Err(Fault::CutShort),
    }
}

pub fn read_number(rt: &impl Input) -> Result<u32, Fault> {
    Ok(u32::from_le_bytes(read_bytes(rt)?))
}

// The next n bytes, in a room of as many as the field may have.
pub fn read_part<'a>(rt: &impl Input, room: &'a mut [u8], n: usize) -> Result<&'a mut [u8], Fault>
    ensures fits { IfOk result (λ _. n ≤ length room.old) }
    ensures part { IfOk result (λ part. length part.now ≡ n) }
{
    let part = room.get_mut(..n).ok_or(Fault::OverLimit)?;
    match rt.reader().read_exact(part) {
        Ok(()) => Ok(part),
        Err(_) => Err(Fault::CutShort),
    }
}

// A field that has its length in front of it.
pub fn read_field<'a>(rt: &impl Input, room: &'a mut [u8]) -> Result<&'a mut [u8], Fault>
    ensures { IfOk result (λ field. length field.now ≤ length room.old) }
{
    let n = read_number(rt)? as usize;
    read_part(rt, room, n)
}
