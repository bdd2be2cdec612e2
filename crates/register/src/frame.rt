// The head of a register, and the rows behind it.
ghost use Rattle.std.specs.Prelude.{◌≡◌, Some, None, cond, eqb};
ghost use Rattle.register.specs.Frame.{used, full, is_used, row_width};

use text::{le16, le32, starts_with};

// The rows used, as the head says.
pub fn used(register: &[u8]) -> u32
    ensures { result ≡ used register.now }
{
    le32(register, 5)
}

// The bytes of a row in a version that there is.
fn width_in(version: u16) -> Option<usize>
    ensures { result ≡ cond (eqb version 1) (Some 74) (cond (eqb version 2) (Some 78) None) }
{
    match version {
        1 => Some(74),
        2 => Some(78),
        _ => None,
    }
}

// The bytes of a row; 0 where the register is not framed, and no Option: every function here answers for such a register too, as one whose
// rows have that width. A call looks at the head here, once, and hands the width on to all
// that reads or writes a row. The two are no struct: `find`, `standing_at`, `full`, `set_live` and `set_cancelled` are called with both, and
// the last two write the register under it, so that it would be made anew in each.
pub fn row_width(register: &[u8]) -> usize
    ensures { result ≡ row_width register.now }
{
    if !((9 <= register.len()) & starts_with(register, b"TRN")) {
        return 0;
    }
    match width_in(le16(register, 3)) {
        Some(width) if used(register) as usize * width <= register.len() - 9 => width,
        _ => 0,
    }
}

// No row is left for a new pair: the head can count no more, or the bytes of a row more are not there.
pub fn full(register: &[u8], width: usize) -> bool
    requires { width ≡ row_width register.now }
    ensures { result ≡ full register.now }
{
    if width == 0 {
        return false;
    }
    let rows = used(register);
    (rows == u32::MAX) | (register.len() - 9 < (rows as usize + 1) * width)
}

// A row of that number stands in the register and is used.
pub fn is_used(register: &[u8], width: usize, row: usize) -> bool
    requires { width ≡ row_width register.now }
    ensures { result ≡ is_used register.now row }
{
    (width != 0) & (row < used(register) as usize)
}
