/// The size of an operand (DEC PDP-11/40 Processor Handbook (1972), Addressing modes): a word of
/// 16 bits, or a byte of 8.
#[derive(Clone, Copy, PartialEq, Eq)]
pub enum Size {
    Word,
    Byte,
}
