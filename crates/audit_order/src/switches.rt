//! Which lines are rewritten.
ghost use Rattle.std.specs.Prelude.{◌≡◌};
ghost use Rattle.audit_order.specs.Shown.{alone_of, rules_of};

/// Which lines are rewritten.
#[derive(Clone, Copy, Debug, PartialEq, Eq)]
pub struct Switches {
    /// Addresses, so that those meet that really met.
    pub join: bool,
    /// If they do, each connection within this machine has an address of its own.
    pub apart: bool,
    /// The directories of names that are relative to a descriptor.
    pub names: bool,
    /// Opens of descriptors by their names.
    pub own: bool,
    /// Calls of the 32-bit gate.
    pub compat: bool,
}

impl Switches {
    /// Of the rules that look at one line alone.
    pub fn alone(self) -> order_lines::Settings
        ensures { result ≡ alone_of self }
    {
        order_lines::Settings {
            join: self.join,
            compat: self.compat,
        }
    }

    /// Of the rules that look at the lines before it too.
    pub fn rules(self) -> order_rules::Settings
        ensures { result ≡ rules_of self }
    {
        order_rules::Settings {
            names: self.names,
            own: self.own,
            join: self.join,
            apart: self.apart,
        }
    }
}
