ghost use Rattle.std.specs.Prelude.{◌≡◌, false};
ghost use Rattle.pdp_session.specs.Streams.{pulls_at_first};

use super::{Failed, Feed};
use std::io::{ErrorKind, Read};

/// A [`Feed`] over one of std's readers.
#[derive(Drop)]
pub struct FromRead<R> {
    reader: R,
    left: u64,
    failed: bool,
}

/// How many pulls a `FromRead` begins with: more than any input has.
const PULLS: u64 = 1_000_000_000_000;

impl<R: Read> FromRead<R> {
    /// A feed of what `reader` gives, with 1,000,000,000,000 pulls left. An interrupted read is
    /// made again, within the same pull. After a failed one `reader` isn't called again.
    pub fn new(reader: R) -> Self
        ensures unread { (⟦<FromRead<R> as Feed>⟧.input result).unread ≡ R.remaining reader }
        ensures pulls { (⟦<FromRead<R> as Feed>⟧.input result).pulls ≡ pulls_at_first }
        ensures sound { (⟦<FromRead<R> as Feed>⟧.input result).has_failed ≡ false }
    {
        FromRead {
            reader,
            left: PULLS,
            failed: false,
        }
    }
}

impl<R: Read> Feed for FromRead<R> {
    ghost input = { λ s. record {
      unread = R.remaining s.reader;
      pulls = s.left;
      has_failed = s.failed;
    } };

    fn pull(&mut self, buf: &mut [u8]) -> Result<usize, Failed> {
        if self.failed || self.left == 0 {
            self.failed = true;
            return Err(Failed);
        }
        'tries: for _ in 0..u64::MAX {
            match self.reader.read(buf) {
                Ok(count) => {
                    self.left -= 1;
                    return Ok(count);
                }
                Err(error) => {
                    if error.kind() != ErrorKind::Interrupted {
                        break 'tries;
                    }
                }
            }
        }
        self.failed = true;
        Err(Failed)
    }

    fn left(&self) -> u64 {
        self.left
    }

    fn failed(&self) -> bool {
        self.failed
    }
}
