ghost use Rattle.std.specs.Prelude.{◌≡◌};
ghost use Rattle.pdp_steps.specs.Steps.{empty_latch, latch_of};

use pdp_decode::Instr;
use pdp_operand::{Place, RegisterId};
use pdp_word::Codes;

/// What one step hands to the next.
#[derive(Clone, Copy)]
pub struct StepLatch {
    /// Where the operand is.
    pub place: Place,
    /// The operand as read.
    pub value: u16,
    /// The source operand, while the destination is read.
    pub source: u16,
    /// What is to be written.
    pub result: u16,
    /// The codes to be stored, if any.
    pub codes: Option<Codes>,
    /// The instruction that was fetched.
    pub instr: Instr,
    /// The program counter that a vector or a stack gave.
    pub counter: u16,
    /// The program status word that a vector gave.
    pub status: u16,
}

impl StepLatch {
    /// The latch before the first phase. What it holds is arbitrary: a step is its phase from each
    /// latch.
    pub fn empty() -> StepLatch
        ensures { latch_of result ≡ empty_latch }
    {
        StepLatch {
            place: Place::Reg(RegisterId::R0),
            value: 0,
            source: 0,
            result: 0,
            codes: None,
            instr: Instr::Reserved,
            counter: 0,
            status: 0,
        }
    }
}
