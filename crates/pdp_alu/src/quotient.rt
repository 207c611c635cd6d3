use pdp_word::Codes;

/// What DIV makes of its operands.
#[derive(Clone, Copy)]
pub enum Div {
    /// The division was done: the quotient, the remainder and the codes.
    Done(u16, u16, Codes),
    /// Nothing was divided, and the registers are kept: the codes.
    Kept(Codes),
}
