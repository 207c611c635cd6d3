ghost use Rattle.std.specs.Prelude.{◌≡◌, ◌≤◌, ◌||◌, Bool, false, ℕ, List, Option, None, IfOk};
ghost use Rattle.std.specs.Prelude.{IfSome, length, take};
ghost use Rattle.pdp_program.specs.Files.{is_unreadable};
ghost use Rattle.pdp_program.specs.declared.files.FileFailure.TheVariants.{NoMemory};

use pdp_session::{Feed, FromRead};
use std::alloc::{AllocError, Global};
use std::fs::File;
use std::io;

/// Why a file gave no bytes.
#[derive(Clone, Copy)]
pub enum FileFailure {
    /// There was no memory for its bytes.
    NoMemory,
    /// It can't be read.
    Unreadable,
}

/// The files that the words of the command line name.
pub trait Files {
    // whether a file couldn't be read since these were made
    ghost has_failed: { Self → Bool };

    // the bytes of the file of this name, if they are known
    ghost contents: { Self → List ℕ → Option (List ℕ) };

    /// The bytes of the file of this name, or of a longer file the first `most`. No more of it is
    /// read.
    ///
    /// # Errors
    ///
    /// [`FileFailure::Unreadable`] if the file can't be read, and [`FileFailure::NoMemory`] if
    /// there is no memory for these bytes.
    fn bytes(&mut self, alloc: Global, name: &str, most: usize) -> Result<Vec<u8>, FileFailure>
        ensures bound { IfOk result (λ bytes. length bytes.items ≤ most) }
        ensures front { IfOk result (λ bytes. IfSome (contents self.old name.now) (λ known.
            bytes.items ≡ take most known)) }
        ensures fails { has_failed self.new ≡ (has_failed self.old || is_unreadable result) }
        ensures same { contents self.new ≡ contents self.old };

    /// Whether a file couldn't be read since these were made.
    fn failed(&self) -> bool
        ensures { result ≡ has_failed self.now };
}

/// The files of the system, through a runtime.
#[derive(Drop)]
pub struct HostFiles<'a> {
    rt: &'a HostRuntime,
    failed: bool,
}

impl<'a> HostFiles<'a> {
    /// The files of the system.
    pub fn new(rt: &'a HostRuntime) -> Self
        ensures sound { ⟦<HostFiles<'a> as Files>⟧.has_failed result ≡ false }
    {
        HostFiles { rt, failed: false }
    }
}

impl Files for HostFiles<'_> {
    ghost has_failed = { λ s. s.failed };

    ghost contents = { λ s name. None };

    fn bytes(&mut self, alloc: Global, name: &str, most: usize) -> Result<Vec<u8>, FileFailure> {
        let read = read_host_file(self.rt, alloc, name, most);
        if matches!(read, Err(FileFailure::Unreadable)) {
            self.failed = true;
        }
        read
    }

    fn failed(&self) -> bool {
        self.failed
    }
}

/// The first bytes of a file of the system, at most `most`.
fn read_host_file(
    rt: &HostRuntime,
    alloc: Global,
    name: &str,
    most: usize,
) -> Result<Vec<u8>, FileFailure>
    ensures { IfOk result (λ bytes. length bytes.items ≤ most) }
{
    match File::open(rt, name) {
        Ok(file) => first_bytes(alloc, &mut FromRead::new(file), most),
        Err(error) => match error.kind() {
            io::ErrorKind::OutOfMemory => Err(FileFailure::NoMemory),
            _ => Err(FileFailure::Unreadable),
        },
    }
}

/// How many bytes are read at a time.
const CHUNK: usize = 4_096;

/// The first bytes of a feed, at most `most`, or all that it has.
///
/// # Errors
///
/// [`FileFailure::Unreadable`] if the feed fails before that, and [`FileFailure::NoMemory`] if
/// there is no memory for these bytes.
pub fn first_bytes<R: Feed>(
    alloc: Global,
    feed: &mut R,
    most: usize,
) -> Result<Vec<u8>, FileFailure>
    ensures bound { IfOk result (λ bytes. length bytes.items ≤ most) }
    ensures front { IfOk result (λ bytes. IfSome (R.input feed.old).unread (λ known.
        bytes.items ≡ take most known)) }
{
    let mut bytes = Vec::new(alloc);
    let mut chunk = [0; CHUNK];
    while bytes.len() < most {
        let wanted = (most - bytes.len()).min(CHUNK);
        let (front, _) = chunk.split_at_mut(wanted);
        match feed.pull(front) {
            Ok(0) => return Ok(bytes),
            Ok(count) => {
                let (given, _) = front.split_at(count);
                bytes.extend_from_slice(given)?;
            }
            Err(_) => return Err(FileFailure::Unreadable),
        }
    }
    Ok(bytes)
}

impl From<AllocError> for FileFailure {
    ghost from_gives = { λ _ failure. failure ≡ NoMemory };

    fn from(_refused: AllocError) -> FileFailure {
        FileFailure::NoMemory
    }
}
