//! What the beginning of a turn will find, told before it.

ghost use Rattle.std.specs.Prelude.{◌≡◌};
ghost use Rattle.pdp_rk11.specs.CompletionMoves.{completion_moves};
ghost use Rattle.pdp_unibus.specs.Handbook.BusWorld.{disk_world_of};

use crate::bus::Bus;
use pdp_device::Operation;
use pdp_rk11::DiskMoves;
use pdp_store::Store;

impl<S: Store, D: Store> Bus<S, D> {
    /// How many bytes of the paper tape have been read (PDP-11 Peripherals Handbook, PC11).
    pub fn bytes_read(&self) -> usize
        ensures { result ≡ self.now.bytes_read }
    {
        self.tape.taken()
    }

    /// What the reader is doing, with the turn in which it is due.
    pub fn reader_operation(&self) -> Operation
        ensures { result ≡ self.now.io_page.paper_tape.reader.operation }
    {
        self.io_page.paper_tape.reader.operation
    }

    /// What the disk is doing, with the turn in which it is due.
    pub fn disk_operation(&self) -> Operation
        ensures { result ≡ self.now.io_page.disk.operation }
    {
        self.io_page.disk.operation
    }

    /// Which words the completion of the disk's function moves, as [`pdp_rk11::Rk::moves`] has it.
    pub fn disk_moves(&self) -> Option<DiskMoves>
        ensures { result ≡ completion_moves (disk_world_of self.now) }
    {
        self.io_page.disk.moves(&self.core, self.drives.as_slice())
    }
}
