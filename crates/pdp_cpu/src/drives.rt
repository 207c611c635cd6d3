//! More drives on a machine, and fewer.

ghost use Rattle.std.specs.Prelude.{◌≡◌, ◌++◌, map, take, IsErr, OnOk};
ghost use Rattle.pdp_cpu.specs.Drives.{machine_with_drives};

use crate::machine::Machine;
use pdp_store::Store;
use pdp_word::NoMemory;

impl<S: Store, D: Store + Drop> Machine<S, D> {
    /// Adds these drives after those of the machine, with the first touches of their pages: they
    /// get the next numbers. The disk's controller stays as it is, and so do the locks of all
    /// drives.
    ///
    /// Err(NoMemory) if memory was refused. The machine is then as before.
    pub fn add_drives(&mut self, drives: Vec<D>) -> Result<(), NoMemory>
        ensures added { OnOk result (self.new ≡ machine_with_drives
            (self.old.state.world.bus.drives ++ map D.words drives.items)
            (self.old.first_touches.drives ++ map D.first_touches drives.items) self.old) }
        ensures left { IsErr result → self.new ≡ self.old }
    {
        self.computer.bus.add_drives(drives)
    }

    /// Keeps the first `count` drives and removes the others. If the machine has fewer, all stay.
    /// Takes no memory.
    pub fn keep_drives(&mut self, count: usize)
        ensures { self.new ≡ machine_with_drives
            (take count self.old.state.world.bus.drives)
            (take count self.old.first_touches.drives) self.old }
    {
        self.computer.bus.keep_drives(count);
    }
}
