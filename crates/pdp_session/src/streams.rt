ghost use Rattle.std.specs.Prelude.{◌≡◌, ◌+◌, ◌≤◌, true, ◌||◌, is_err, length, IfOk, OnOk, OnErr};
ghost use Rattle.std.specs.Io.KnownBytes.{ReadConsumes, WriteAppends};
ghost use Rattle.pdp_session.specs.Streams.{FeedData, DrainData, put_failed};

mod from_read;
mod sending;
mod to_write;

pub use from_read::FromRead;
pub use sending::send;
pub use to_write::ToWrite;

/// A stream failed: a read or a write was refused, or the reader has no pulls left.
#[derive(Clone, Copy, Debug, PartialEq, Eq)]
pub struct Failed;

/// Where a session's bytes come from.
pub trait Feed {
    // the bytes that are still to come, the pulls that are left, and whether one has failed
    ghost input: { Self → FeedData };

    /// Takes the next bytes into the front of `buf` and returns how many there were: 0 only at the
    /// end of the input, or if `buf` has no room. Each pull that doesn't fail lowers what
    /// [`left`](Feed::left) returns by 1.
    ///
    /// # Errors
    ///
    /// [`Failed`] if the input can't be read, if no pulls are left, or if an earlier pull failed.
    /// Then no byte was taken, and as many pulls are left as before. So a feed gives nothing more
    /// once it has failed.
    fn pull(&mut self, buf: &mut [u8]) -> Result<usize, Failed>
        ensures bound { IfOk result (λ n. n ≤ length buf.new) }
        ensures bytes { ReadConsumes (input self.old).unread (input self.new).unread result
            buf.new }
        ensures lowers { OnOk result ((input self.new).pulls + 1 ≡ (input self.old).pulls) }
        ensures keeps { OnErr result ((input self.new).pulls ≡ (input self.old).pulls) }
        ensures fails { (input self.new).has_failed
            ≡ ((input self.old).has_failed || is_err result) }
        ensures ended { (input self.old).has_failed ≡ true → is_err result ≡ true }
        ensures rests { (input self.old).has_failed ≡ true → self.new ≡ self.old };

    /// How many pulls are left: at 0 the next one fails.
    fn left(&self) -> u64
        ensures { result ≡ (input self.now).pulls };

    /// Whether a pull has failed since the feed was made.
    fn failed(&self) -> bool
        ensures { result ≡ (input self.now).has_failed };
}

/// Where a session's bytes go.
pub trait Drain {
    // the bytes that were put, and whether a put has failed, or took none of some bytes
    ghost output: { Self → DrainData };

    /// Writes a front part of `bytes` and returns how many bytes that was.
    ///
    /// # Errors
    ///
    /// [`Failed`] if the output can't be written, or if an earlier put failed or took none of some
    /// bytes. Then no byte was written. So a drain takes nothing more once it has failed.
    fn put(&mut self, bytes: &[u8]) -> Result<usize, Failed>
        ensures bound { IfOk result (λ n. n ≤ length bytes.now) }
        ensures bytes { WriteAppends (output self.old).written (output self.new).written result
            bytes.now }
        ensures fails { (output self.new).has_failed
            ≡ ((output self.old).has_failed || put_failed result (length bytes.now)) }
        ensures ended { (output self.old).has_failed ≡ true → is_err result ≡ true }
        ensures rests { (output self.old).has_failed ≡ true → self.new ≡ self.old };

    /// Whether a put has failed since the drain was made, or took none of some bytes.
    fn failed(&self) -> bool
        ensures { result ≡ (output self.now).has_failed };
}
