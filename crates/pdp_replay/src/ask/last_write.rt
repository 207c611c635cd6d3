ghost use Rattle.std.specs.Prelude.{◌≡◌, ◌<◌, length};
ghost use Rattle.pdp_replay.specs.Ask.LastWrites.{IsLastWriteIn};

use pdp_cpu::PagedMachine;
use pdp_store::Agent;

/// The last write to a word of core before a turn [P]. A byte write counts for its word; patches
/// and images are no writes.
#[derive(Clone, Copy)]
pub struct LastWrite {
    /// The turn of the write, counted from 0 at power-up.
    pub turn: u32,
    /// Who wrote: the processor, or the disk in a transfer.
    pub agent: Agent,
    /// The word as it is since.
    pub word: u16,
}

impl LastWrite {
    /// The last write to the core word of this number; None if there was none since power-up.
    pub(crate) fn read(machine: &PagedMachine, number: usize) -> Option<LastWrite>
        requires { number < length machine.now.state.world.bus.core }
        ensures { IsLastWriteIn machine.now.state number result }
    {
        let stamp = machine.last(number)?;
        Some(LastWrite {
            turn: stamp.turn,
            agent: stamp.agent,
            word: machine.word(number),
        })
    }
}
