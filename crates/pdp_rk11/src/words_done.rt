//! What a function asks for and what it did, told by the controller.

ghost use Rattle.std.specs.Prelude.{◌≡◌};
ghost use Rattle.pdp_rk11.specs.Handbook.Completion.{first_word_of_sector};
ghost use Rattle.pdp_rk11.specs.WordsDone.{is_transfer, words_counted};

use crate::geometry::{MOST_WORDS, WORDS_OF_SECTOR, sector_number};
use crate::{Function, Rk};

impl Function {
    /// Whether the function moves or compares words.
    ///
    /// PDP-11 Peripherals Handbook, RK11.
    pub fn is_transfer(self) -> bool
        ensures { result ≡ is_transfer self }
    {
        match self {
            Function::Write | Function::Read | Function::WriteCheck | Function::ReadCheck => true,
            Function::ControlReset | Function::Seek | Function::DriveReset | Function::WriteLock =>
                false,
        }
    }
}

impl Rk {
    /// The number on its drive, counted from 0, of the first word of the sector that RKDA names. If
    /// RKDA names no sector of a drive, it may be past the last word.
    ///
    /// PDP-11 Peripherals Handbook, RK11.
    pub fn first_word(&self) -> u32
        ensures { result ≡ first_word_of_sector self.now }
    {
        sector_number(self.disk_address) * WORDS_OF_SECTOR
    }

    /// How many words a function moved or compared, from the controller before its completion
    /// (`before`) and after it (`self`). A function that didn't fail did all the words that it was
    /// asked for. If it failed, RKWC has counted those that it did. The law
    /// `words_done_are_counted` says that this is the number of words that the completion moved or
    /// compared.
    ///
    /// PDP-11 Peripherals Handbook, RK11.
    pub fn words_done(&self, before: &Rk) -> u32
        ensures { result ≡ words_counted before.now self.now }
    {
        if !before.function.is_transfer() {
            return 0;
        }
        match self.failure {
            Some(_) => u32::from(self.word_count.saturating_sub(before.word_count)),
            None => MOST_WORDS - u32::from(before.word_count),
        }
    }
}
