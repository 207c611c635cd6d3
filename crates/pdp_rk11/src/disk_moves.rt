//! What the completion of what is under way moves, told before it.

ghost use Rattle.std.specs.Prelude.{◌≡◌, ◌<◌, length};
ghost use Rattle.pdp_rk11.specs.CompletionMoves.{completion_moves, transfer_moves};
ghost use Rattle.pdp_rk11.specs.Handbook.Completion.{stored_world};
ghost use Rattle.pdp_rk11.specs.Handbook.Geometry.{drive_in, sector_number, sectors_of_drive};

use crate::transfer::Transfer;
use crate::{Function, Rk};
use pdp_store::Store;

/// Words that a completion moves, between core and one drive.
#[derive(Clone, Copy)]
pub struct DiskMoves {
    /// A read, to core, or a write, to the drive.
    pub function: Function,
    /// Which words.
    pub transfer: Transfer,
    /// The number of the drive, from 0 on.
    pub drive: usize,
}

impl Rk {
    /// Which words the completion of what is under way moves, over this core and these drives,
    /// numbered from 0 on. `None` if nothing is under way, if something forbids the function, or if
    /// it moves no words, as a check doesn't.
    ///
    /// PDP-11 Peripherals Handbook, RK11.
    #[tactic(auto, unfolding(crate::specs::CompletionMoves::completion_moves))]
    pub fn moves<S: Store, D: Store>(&self, core: &S, drives: &[D]) -> Option<DiskMoves>
        ensures { result ≡ completion_moves (stored_world S.words S.stamps D.words self.now core.now
            drives.now) }
    {
        if !self.operation.is_under_way() {
            return None;
        }
        if self.refusal(drives.len()).is_some() {
            return None;
        }
        match self.function {
            Function::Read | Function::Write => Some(self.transfer_moves(core, drives)),
            _ => None,
        }
    }

    /// Which words the transfer moves that nothing forbids.
    #[tactic(auto, using(crate::proofs::Rules::maps))]
    fn transfer_moves<S: Store, D: Store>(&self, core: &S, drives: &[D]) -> DiskMoves
        requires drive { drive_in self.now.disk_address < length drives.now }
        requires sector { sector_number self.now.disk_address < sectors_of_drive }
        ensures { result ≡ transfer_moves (stored_world S.words S.stamps D.words self.now core.now
            drives.now) }
    {
        let drive = self.drive();
        DiskMoves {
            function: self.function,
            transfer: self.transfer_of(core.len(), drives[drive].len()),
            drive,
        }
    }
}
