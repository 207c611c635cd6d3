ghost use Rattle.std.specs.Prelude.{◌≡◌};
ghost use Rattle.pdp_unibus.specs.Handbook.Tape.{next_byte, read_on};

use std::marker::Model;

/// The paper tape in the reader (PDP-11 Peripherals Handbook, PC11). A contract sees all its bytes,
/// and how many of them have been read.
#[derive(Drop)]
pub(crate) struct Tape {
    bytes: Vec<u8>,
    /// How many of them have been read.
    taken: usize,
}

impl Model for Tape {
    ghost use Rattle.pdp_unibus.specs.Handbook.Tape.{Reel};

    ghost Value = { Reel };

    ghost view = { λ t. record { bytes = t.bytes.items; read = t.taken } };
}

impl Tape {
    /// A tape with these bytes, none of which has been read.
    pub(crate) fn new(bytes: Vec<u8>) -> Self
        ensures bytes { result.bytes ≡ bytes.items }
        ensures read { result.read ≡ 0 }
    {
        Tape { bytes, taken: 0 }
    }

    /// Takes the next byte, if there is one.
    #[tactic(auto, using(crate::proofs::Tapes::read_on_is, crate::proofs::Tapes::nothing_read_on))]
    pub(crate) fn take_byte(&mut self) -> Option<u8>
        ensures byte { result ≡ next_byte self.old.bytes self.old.read }
        ensures bytes { self.new.bytes ≡ self.old.bytes }
        ensures read { self.new.read ≡ read_on self.old.bytes self.old.read }
    {
        let byte = *self.bytes.get(self.taken)?;
        self.taken += 1;
        Some(byte)
    }

    /// All its bytes.
    pub(crate) fn bytes(&self) -> &[u8]
        ensures { result.now ≡ self.now.bytes }
    {
        self.bytes.as_slice()
    }

    /// How many of the bytes have been read.
    pub(crate) fn taken(&self) -> usize
        ensures { result ≡ self.now.read }
    {
        self.taken
    }

    /// So many of the bytes count as read.
    pub(crate) fn go_to(&mut self, read: usize)
        ensures bytes { self.new.bytes ≡ self.old.bytes }
        ensures read { self.new.read ≡ read }
    {
        self.taken = read;
    }

    /// Other bytes, of which as many count as read.
    pub(crate) fn replace(&mut self, bytes: Vec<u8>)
        ensures bytes { self.new.bytes ≡ bytes.items }
        ensures read { self.new.read ≡ self.old.read }
    {
        self.bytes = bytes;
    }
}
