ghost use Rattle.std.specs.Prelude.{◌≡◌};
ghost use Rattle.pdp_device.specs.Request.{request_after};

/// Whether a device requests an interrupt after one change: its condition `before` the change and
/// `after` it, and whether it requested before. A request appears if the condition goes from
/// false to true, and goes if it is false [6.106].
#[inline]
pub fn request_after(before: bool, after: bool, request: bool) -> bool
    ensures { result ≡ request_after before after request }
{
    after && (request || !before)
}
