ghost use Rattle.std.specs.Prelude.{◌≡◌, slice_index, unwrap_or};
ghost use Rattle.std.specs.Option.{option_map};
ghost use Rattle.pdp_replay.specs.Past.FirstWords.{image_word};
ghost use Rattle.pdp_replay.specs.Past.Setup.{drive_count, image_of, images_of};

use crate::past::MOST_DRIVES;
use pdp_store::{Part, WordAt};

/// How many drives a run has [6.66].
#[derive(Clone, Copy)]
pub(crate) enum DriveCount {
    /// Drive 0 alone, as every run begins.
    One,
    /// As many as a controller can have.
    Eight,
}

impl DriveCount {
    /// The number of drives.
    pub(crate) fn count(self) -> usize
        ensures { result ≡ drive_count self }
    {
        match self {
            DriveCount::One => 1,
            DriveCount::Eight => MOST_DRIVES,
        }
    }
}

/// What a setup gives to a run but for the tape, which is in the machine's reader, and how many
/// drives there are.
#[derive(Drop)]
pub(crate) struct BaseSetup {
    /// The size of core in units of 4,096 words.
    pub(crate) units: u8,
    /// The address of the first instruction (octal, bytes).
    pub(crate) start: u16,
    /// The words of core from address 0 on; core past them is 0.
    pub(crate) core: Vec<u16>,
    /// The images of drives, by their numbers: of each the words from its first word on. A drive is
    /// 0 past them.
    pub(crate) disks: Vec<Vec<u16>>,
    /// How many drives there are; the images of other drives wait for them.
    pub(crate) drives: DriveCount,
    /// How many turns apart checkpoints are at first.
    pub(crate) stride: u32,
}

impl BaseSetup {
    /// The word of core's image of this number, 0 past its end.
    pub(crate) fn core_word(&self, number: u32) -> u16
        ensures { result ≡ slice_index self.now.core.items number }
    {
        self.core.get(number as usize).copied().unwrap_or(0)
    }

    /// The words of the image of the drive of this number, none if it has no image.
    pub(crate) fn image(&self, drive: usize) -> &[u16]
        ensures { result.now ≡ image_of (images_of self.now.disks.items) drive }
    {
        match self.disks.get(drive) {
            Some(image) => image.as_slice(),
            None => &[],
        }
    }

    /// The word of an image, of core or of a drive; 0 past its end.
    fn image_word(&self, at: WordAt) -> u16
        ensures { result ≡ image_word self.now.core.items (images_of self.now.disks.items)
            at.part at.number }
    {
        match at.part {
            Part::Core => self.core.get(at.number).copied().unwrap_or(0),
            Part::Drive(drive) => self
                .image(usize::from(drive))
                .get(at.number)
                .copied()
                .unwrap_or(0),
        }
    }

    /// The value of a word as of power-up, with this patch at its place among all, if it has one.
    pub(crate) fn first_word(&self, at: WordAt, patch: Option<(usize, u16)>) -> u16
        ensures { result ≡ unwrap_or (option_map (λ p. p.1) patch)
            (image_word self.now.core.items (images_of self.now.disks.items) at.part
            at.number) }
    {
        match patch {
            Some((_, word)) => word,
            None => self.image_word(at),
        }
    }
}
