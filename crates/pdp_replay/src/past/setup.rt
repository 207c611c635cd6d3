ghost use Rattle.std.specs.Prelude.{◌≡◌, Result};
ghost use Rattle.std.specs.List.{list_all};
ghost use Rattle.pdp_script.specs.Refusal.{result_map};
ghost use Rattle.pdp_replay.specs.Past.Setup.{fits_drive, given_setup, has_good_disks, images_of};
ghost use Rattle.pdp_replay.specs.Past.Setup.{setup_checked};

use pdp_checkpoint::WIDEST_STRIDE;
use pdp_script::Fault;

/// The most units of core.
const MOST_UNITS: u8 = 31;

/// The words of one unit of core.
pub(crate) const UNIT_WORDS: usize = 4_096;

/// The most drives of a controller.
pub(crate) const MOST_DRIVES: usize = 8;

/// The words of a drive: 203 cylinders of 2 surfaces of 12 sectors of 256 words.
pub(crate) const DRIVE_WORDS: usize = 1_247_232;

/// The most bytes of a paper tape.
pub(crate) const TAPE_BYTES: usize = 1_048_576;

/// The stride of states that are kept if none is given, in turns [P].
pub const DEFAULT_STRIDE: u32 = 10_000;

/// What a run starts from [P].
#[derive(Drop)]
pub struct Setup {
    /// The size of core in units of 4,096 words: 1 to 31.
    pub units: u8,
    /// The address of the first instruction (octal, bytes, even).
    pub start: u16,
    /// The words of core from address 0 on, at most those of its units; core past them is 0.
    pub core: Vec<u16>,
    /// The images of drives by their numbers, at most eight: of each the words from its first word
    /// on, at most 1,247,232. A drive is 0 past its image, and all 0 if it has none. A run begins
    /// with drive 0 alone; the images of the others are read once there are eight drives.
    pub disks: Vec<Vec<u16>>,
    /// The bytes of the paper tape: at most 1,048,576.
    pub tape: Vec<u8>,
    /// How many turns apart checkpoints are at first: 1 to 2,000,000,000.
    pub stride: u32,
}

impl Setup {
    /// Whether a run can start from this setup.
    ///
    /// Err(BadSetup) if the units, the start or the stride is out of range; else Err(BadImage) if
    /// core's image, a drive's or the tape is too long, or there are more than eight images of
    /// drives.
    #[tactic(auto, unfolding(crate::specs::Past::Setup::setup_checked))]
    pub(crate) fn check(&self) -> Result<(), Fault>
        ensures { result ≡ result_map (λ _. tt) (setup_checked (given_setup self.now)) }
    {
        let units = self.units;
        if units < 1 || units > MOST_UNITS || self.start % 2 != 0 {
            return Err(Fault::BadSetup);
        }
        if self.stride < 1 || self.stride > WIDEST_STRIDE {
            return Err(Fault::BadSetup);
        }
        let words = usize::from(units) * UNIT_WORDS;
        if self.core.len() > words || !are_good_disks(&self.disks) || self.tape.len() > TAPE_BYTES {
            return Err(Fault::BadImage);
        }
        Ok(())
    }
}

/// Whether these can be the images of drives: at most eight, each within a drive.
fn are_good_disks(disks: &[Vec<u16>]) -> bool
    ensures { result ≡ has_good_disks (images_of disks.now) }
{
    disks.len() <= MOST_DRIVES && all_fit(disks)
}

/// Whether each of these images is within a drive.
fn all_fit(images: &[Vec<u16>]) -> bool
    ensures { result ≡ list_all (λ image. fits_drive image.items) images.now }
{
    images.iter().all(|image| image.len() <= DRIVE_WORDS)
}
