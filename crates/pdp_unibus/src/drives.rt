//! More drives on a bus, and fewer.

ghost use Rattle.std.specs.Prelude.{◌≡◌, ◌++◌, map, take, IsErr, OnOk};
ghost use Rattle.pdp_store.specs.FirstTouches.{first_touches_of};
ghost use Rattle.pdp_unibus.specs.Handbook.BusWorld.{with_first_touches};
ghost use Rattle.pdp_unibus.specs.Handbook.Drives.{with_drives};

use crate::bus::Bus;
use pdp_store::Store;
use pdp_word::NoMemory;

impl<S: Store, D: Store + Drop> Bus<S, D> {
    /// Adds these drives after those of the bus, with the first touches of their pages: they get
    /// the next numbers. The disk's controller stays as it is, and so do the locks of all drives.
    ///
    /// Err(NoMemory) if memory was refused. The bus is then as before.
    pub fn add_drives(&mut self, mut drives: Vec<D>) -> Result<(), NoMemory>
        ensures added { OnOk result
            (self.new ≡ with_first_touches
            (with_drives self.old (self.old.drives ++ map D.words drives.items))
            (first_touches_of self.old.first_touches.core
            (self.old.first_touches.drives ++ map D.first_touches drives.items))) }
        ensures left { IsErr result → self.new ≡ self.old }
    {
        self.drives.append(&mut drives)?;
        Ok(())
    }

    /// Keeps the first `count` drives and removes the others. If the bus has fewer, all stay. Takes
    /// no memory.
    #[tactic(auto, using(crate::proofs::FewerDrives::first_seen))]
    pub fn keep_drives(&mut self, count: usize)
        ensures { self.new ≡ with_first_touches
            (with_drives self.old (take count self.old.drives))
            (first_touches_of self.old.first_touches.core
            (take count self.old.first_touches.drives)) }
    {
        self.drives.truncate(count);
    }
}
