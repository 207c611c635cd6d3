ghost use Rattle.std.specs.Prelude.{◌≡◌};
ghost use Rattle.pdp_session.specs.Inside.Sends.{Sends};

use super::{Drain, Failed};

/// Writes all of `bytes`. `Failed` comes if a put fails or takes none of some bytes; a beginning
/// was written then.
pub fn send<W: Drain>(writer: &mut W, bytes: &[u8]) -> Result<(), Failed>
    ensures { Sends bytes.now (W.output writer.old) (W.output writer.new) result }
{
    let mut rest = bytes;
    while !rest.is_empty() {
        let taken = writer.put(rest)?;
        if taken == 0 {
            return Err(Failed);
        }
        let (_, unwritten) = rest.split_at(taken);
        rest = unwritten;
    }
    Ok(())
}
