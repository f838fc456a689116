//! Lines that say nothing that a rule asks for, told apart by their first bytes.
ghost use Rattle.std.specs.Prelude.{◌≡◌};
ghost use Rattle.order_rules.specs.Quiet.{is_quiet, is_path};

/// Whether a line is a PROCTITLE, EOE or EXECVE record without a node, as most lines are that say nothing.
pub fn is_quiet(line: &[u8]) -> bool
    ensures { result ≡ is_quiet line.now }
{
    line.starts_with(b"type=PROCTITLE ")
        || line.starts_with(b"type=EOE ")
        || line.starts_with(b"type=EXECVE ")
}

/// Whether a line is a PATH record without a node.
pub fn is_path(line: &[u8]) -> bool
    ensures { result ≡ is_path line.now }
{
    line.starts_with(b"type=PATH ")
}
