ghost use Rattle.std.specs.Prelude.{◌≡◌};
ghost use Rattle.pdp_instruction.specs.Handbook.TrapSequence.{context};

use pdp_io_page::Status;
use pdp_operand::{Processor, RegisterId};
use pdp_store::Store;
use pdp_unibus::Bus;

/// PC and the program status when the first sequence of a turn begins: what a trap saves. The red
/// sequence that may follow saves the same [P].
#[derive(Clone, Copy)]
pub struct SavedContext {
    /// PC (bytes).
    pub counter: u16,
    pub status: Status,
}

impl SavedContext {
    /// PC and the program status of now (DEC PDP-11/40 Processor Handbook (1972), Processor traps).
    #[inline(always)]
    pub fn of<S: Store, D: Store>(processor: &Processor, bus: &Bus<S, D>) -> SavedContext
        ensures { result ≡ context processor.now bus.now.io_page }
    {
        SavedContext {
            counter: processor.register(RegisterId::ProgramCounter),
            status: bus.status(),
        }
    }
}
