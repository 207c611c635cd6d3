ghost use Rattle.std.specs.Prelude.{◌≡◌, true, Err, map, option_map, string_bytes};
ghost use Rattle.pdp_script.specs.Refusal.{result_map};
ghost use Rattle.pdp_program.specs.Media.{AreFilesOf, AreImagesOf, IsFileOf, IsImageOf, AreMediaOf};
ghost use Rattle.pdp_program.specs.Media.{contents_of, most_of_core, most_of_disk};

use crate::command_line::FileNames;
use crate::exit::Exit;
use crate::files::{FileFailure, Files};
use pdp_script::Fault;
use pdp_session::read_image;
use std::alloc::Global;

/// What the files of a session hold: the words of the images of core and of each drive, and the
/// bytes of the tape. Each is empty if no file is named.
#[derive(Drop)]
pub struct Media {
    pub core: Vec<u16>,
    /// By drive.
    pub drives: Vec<Vec<u16>>,
    pub tape: Vec<u8>,
}

/// The most units of core.
const MOST_UNITS: u8 = 31;

/// The bytes of one unit of core.
const UNIT_BYTES: usize = 8_192;

/// The bytes of a drive.
const DRIVE_BYTES: usize = 2_494_464;

/// The most bytes of a paper tape.
const TAPE_BYTES: usize = 1_048_576;

/// One word past its limit shows that an image is too long, however long its file is. So no more of
/// the file is read.
const WORD_BYTES: usize = 2;

/// Reads the files of these names, for a core of `units` units. Of an image it reads at most one
/// word more than core or a drive has room for, and of the tape one byte more than its limit: the
/// setup is refused with that.
///
/// All files are read before an image is looked at: if a file can't be read and an image has an odd
/// number of bytes, the file is what the exit reports. `NoMemory` as soon as memory is refused.
pub fn read_media<F: Files>(
    alloc: Global,
    units: u8,
    names: FileNames,
    files: &mut F,
) -> Result<Media, Exit>
    ensures media { AreMediaOf (F.contents files.old) units names (result_map contents_of result) }
    ensures failed { result ≡ Err Exit.InputOrOutput → F.has_failed files.new ≡ true }
{
    let core = read_file(alloc, names.core, most_of_core(units), files)?;
    let drives = read_drives(alloc, names.drives, files)?;
    let tape = read_file(alloc, names.tape, TAPE_BYTES + 1, files)?;
    let core = image_of(alloc, core)?;
    let drives = images_of(alloc, drives)?;
    Ok(Media { core, drives, tape })
}

/// How many bytes of core's image are read at most.
fn most_of_core(units: u8) -> usize
    ensures { result ≡ most_of_core units }
{
    let units = if (1..=MOST_UNITS).contains(&units) {
        units
    } else {
        MOST_UNITS
    };
    usize::from(units) * UNIT_BYTES + WORD_BYTES
}

/// The bytes of the file of this name, at most the first `most`; no bytes if no file is named.
fn read_file<F: Files>(
    alloc: Global,
    name: Option<String>,
    most: usize,
    files: &mut F,
) -> Result<Vec<u8>, Exit>
    ensures file { IsFileOf (F.contents files.old) most (option_map string_bytes name)
        (result_map (λ bytes. bytes.items) result) }
    ensures failed { result ≡ Err Exit.InputOrOutput → F.has_failed files.new ≡ true }
    ensures same { F.contents files.new ≡ F.contents files.old }
{
    let Some(name) = name else {
        return Ok(Vec::new(alloc))
    };
    match files.bytes(alloc, name.as_str(), most) {
        Ok(bytes) => Ok(bytes),
        Err(FileFailure::NoMemory) => Err(Exit::NoMemory),
        Err(FileFailure::Unreadable) => Err(Exit::InputOrOutput),
    }
}

/// The bytes of the files of these names, each as an image of a drive.
fn read_drives<F: Files>(
    alloc: Global,
    names: Vec<Option<String>>,
    files: &mut F,
) -> Result<Vec<Vec<u8>>, Exit>
    ensures read { AreFilesOf (F.contents files.old) most_of_disk
        (map (λ name. option_map string_bytes name) names.items)
        (result_map (λ drives. map (λ bytes. bytes.items) drives.items) result) }
    ensures failed { result ≡ Err Exit.InputOrOutput → F.has_failed files.new ≡ true }
    ensures same { F.contents files.new ≡ F.contents files.old }
{
    let mut drives = Vec::new(alloc);
    for name in names {
        drives.push(read_file(alloc, name, DRIVE_BYTES + WORD_BYTES, files)?)?;
    }
    Ok(drives)
}

/// The words of these images. Their bytes are dropped.
fn images_of(alloc: Global, images: Vec<Vec<u8>>) -> Result<Vec<Vec<u16>>, Exit>
    ensures { AreImagesOf (map (λ bytes. bytes.items) images.items)
        (result_map (λ drives. map (λ words. words.items) drives.items) result) }
{
    let mut drives = Vec::new(alloc);
    for bytes in images {
        drives.push(image_of(alloc, bytes)?)?;
    }
    Ok(drives)
}

/// The words of an image. Its bytes are dropped.
#[tactic(auto, unfolding(pdp_session::specs::Image::image_read))]
fn image_of(alloc: Global, bytes: Vec<u8>) -> Result<Vec<u16>, Exit>
    ensures { IsImageOf bytes.items (result_map (λ words. words.items) result) }
{
    match read_image(alloc, bytes.as_slice()) {
        Ok(words) => Ok(words),
        Err(Fault::NoMemory) => Err(Exit::NoMemory),
        Err(_) => Err(Exit::BadImage),
    }
}
