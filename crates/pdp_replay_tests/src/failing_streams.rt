//! A reader and a writer of std that fail once: the stream that stands on one fails from then on.

use pdp_session::{Drain, Failed, Feed, FromRead, ToWrite};
use std::io;
use std::io::{Error, ErrorKind, Read, Write};
use std::test::Fail;

/// Fails at its second read, and gives a byte at each other.
#[derive(Drop)]
struct FailsOnce {
    reads: u32,
}

impl Read for FailsOnce {
    fn read(&mut self, buf: &mut [u8]) -> io::Result<usize> {
        self.reads = self.reads.saturating_add(1);
        if self.reads == 2 || buf.is_empty() {
            return Err(Error::from(ErrorKind::BrokenPipe));
        }
        buf[0] = b'a';
        Ok(1)
    }
}

#[test]
fn a_failed_feed_gives_no_more(rt: HostRuntime) -> Result<(), Fail> {
    let mut reader = FromRead::new(FailsOnce { reads: 0 });
    let mut buf = [0; 2];
    assert_eq!(rt; reader.pull(&mut buf), Ok(1));
    assert!(rt; !reader.failed());
    assert_eq!(rt; reader.pull(&mut buf), Err(Failed));
    assert!(rt; reader.failed());
    assert_eq!(rt; reader.pull(&mut buf), Err(Failed));
    assert_eq!(rt; reader.left(), 999_999_999_999);
    Ok(())
}

/// Takes none at its second write, and a byte at each other.
#[derive(Drop)]
struct TakesNoneOnce {
    writes: u32,
}

impl Write for TakesNoneOnce {
    fn write(&mut self, buf: &[u8]) -> io::Result<usize> {
        self.writes = self.writes.saturating_add(1);
        if self.writes == 2 || buf.is_empty() {
            return Ok(0);
        }
        Ok(1)
    }

    fn flush(&mut self) -> io::Result<()> {
        Ok(())
    }
}

#[test]
fn a_failed_drain_takes_no_more(rt: HostRuntime) -> Result<(), Fail> {
    let mut writer = ToWrite::new(TakesNoneOnce { writes: 0 });
    assert_eq!(rt; writer.put(b"ab"), Ok(1));
    assert!(rt; !writer.failed());
    assert_eq!(rt; writer.put(b"b"), Ok(0));
    assert!(rt; writer.failed());
    assert_eq!(rt; writer.put(b"b"), Err(Failed));
    Ok(())
}
