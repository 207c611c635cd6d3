/// The four condition codes of the program status word (DEC PDP-11/40 Processor Handbook (1972),
/// Processor status word): negative, zero, overflow and carry. All are clear by default.
#[derive(Clone, Copy, Default)]
pub struct Codes {
    /// The result was negative.
    pub n: bool,
    /// The result was zero.
    pub z: bool,
    /// The signed result did not fit.
    pub v: bool,
    /// A carry, a borrow or the bit moved out.
    pub c: bool,
}
