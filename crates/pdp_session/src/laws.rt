ghost use Rattle.pdp_session.specs.Language.{SessionLinesAreKept};

/// A law of the two languages: a line that the session language doesn't refuse with
/// [`Fault::BadLine`](crate::Fault::BadLine) is answered with the same bytes in the search
/// language.
///
/// [P]
pub fn session_lines_are_kept()
    ensures { SessionLinesAreKept }
{}
