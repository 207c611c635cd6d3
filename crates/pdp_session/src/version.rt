ghost use Rattle.std.specs.Prelude.{◌≡◌};
ghost use Rattle.pdp_session.specs.Version.{version_of};

use pdp_replay::Engine;

/// The version of a session, by which the lines of the drives are read and shown.
#[derive(Clone, Copy)]
pub enum Version {
    // One drive, which no line names.
    One,
    // Eight drives, each by its number.
    Two,
}

impl Version {
    /// The version of the session of this engine.
    pub fn of(engine: &Engine) -> Version
        ensures { result ≡ version_of engine.now.past }
    {
        if engine.drive_count() > 1 {
            Version::Two
        } else {
            Version::One
        }
    }
}
