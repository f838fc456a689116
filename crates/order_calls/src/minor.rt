//! Lines that say little of descriptors, told apart by their first bytes.
ghost use Rattle.std.specs.Prelude.{◌≡◌};
ghost use Rattle.order_calls.specs.Minor.{is_minor};

/// Whether a line is a PROCTITLE, PATH, CWD or EOE record without a node: of descriptors it says at most of what kind its event's
/// call opened one, or that nothing will say so.
pub fn is_minor(line: &[u8]) -> bool
    ensures { result ≡ is_minor line.now }
{
    line.starts_with(b"type=PROCTITLE ")
        || line.starts_with(b"type=PATH ")
        || line.starts_with(b"type=CWD ")
        || line.starts_with(b"type=EOE ")
}
