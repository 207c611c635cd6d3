use pdp_io_page::Delays;

/// The numbers of a setup: all of it but images, patches, the bytes of the tape, and drives [P].
#[derive(Clone, Copy)]
pub struct SetupNumbers {
    /// The size of core in units of 4,096 words.
    pub units: u8,
    /// The address of the first instruction (octal, bytes).
    pub start: u16,
    /// How many turns apart checkpoints are at first.
    pub stride: u32,
    /// How many turns the operations of devices take.
    pub delays: Delays,
    /// How many bytes the paper tape has.
    pub tape_len: usize,
}
