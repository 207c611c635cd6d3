ghost use Rattle.std.specs.Prelude.{◌≡◌, false};

use super::{Drain, Failed};
use std::io::{ErrorKind, Write};

/// A [`Drain`] over one of std's writers.
#[derive(Drop)]
pub struct ToWrite<W> {
    writer: W,
    failed: bool,
}

impl<W: Write> ToWrite<W> {
    /// A drain into `writer`. An interrupted write is made again. After one that failed, or took
    /// none of some bytes, `writer` isn't called again.
    pub fn new(writer: W) -> Self
        ensures written { (⟦<ToWrite<W> as Drain>⟧.output result).written ≡ W.contents writer }
        ensures sound { (⟦<ToWrite<W> as Drain>⟧.output result).has_failed ≡ false }
    {
        ToWrite {
            writer,
            failed: false,
        }
    }
}

impl<W: Write> Drain for ToWrite<W> {
    ghost output = { λ s. record { written = W.contents s.writer; has_failed = s.failed } };

    fn put(&mut self, bytes: &[u8]) -> Result<usize, Failed> {
        if self.failed {
            return Err(Failed);
        }
        'tries: for _ in 0..u64::MAX {
            match self.writer.write(bytes) {
                Ok(taken) => {
                    if taken == 0 && !bytes.is_empty() {
                        self.failed = true;
                    }
                    return Ok(taken);
                }
                Err(error) => {
                    if error.kind() != ErrorKind::Interrupted {
                        break 'tries;
                    }
                }
            }
        }
        self.failed = true;
        Err(Failed)
    }

    fn failed(&self) -> bool {
        self.failed
    }
}
