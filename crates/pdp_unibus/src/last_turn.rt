/// The greatest turn that an event may have and that can be asked about, and so the most turns that
/// a machine runs; and the longest delay [8.4].
pub const LAST_TURN: u32 = 1_000_000_000;
