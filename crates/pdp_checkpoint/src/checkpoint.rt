use pdp_cpu::Saved;

/// A state of the machine that is kept.
#[derive(Drop)]
pub struct Checkpoint {
    /// The turn that comes next in this state, counted from 0 at power-up.
    pub turn: u32,
    /// The state itself.
    pub saved: Saved,
}
