// The five lists that a line is judged with.
#[derive(Clone, Copy)]
pub struct Lists<'a> {
    pub lei: &'a [u8],
    pub cty: &'a [u8],
    pub ccy: &'a [u8],
    pub ven: &'a [u8],
    pub ins: &'a [u8],
}
