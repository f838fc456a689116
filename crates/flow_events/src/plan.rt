//! What an event will do, with all the memory for it.
ghost use Rattle.std.specs.Prelude.{◌≡◌, ◌≤◌, ℕ, OnOk};
ghost use Rattle.fd_table.specs.Table.{address_at, HoldsTheSame};
ghost use Rattle.flow_events.specs.Standing.{readdressed, addresses_in};
ghost use Rattle.flow_events.specs.Planned.{IsTurned, PlansNothing};

use crate::parts::turn;
use crate::work::Worked;
use acts::Act;
use fd_table::Fds;
use flow_base::{Bytes, Flow, List, NoMemory};
use std::alloc::Global;

/// A socket, by the act that made it, with its new address.
#[derive(Drop)]
pub struct NewAddress {
    pub socket: u64,
    pub bytes: Bytes,
}

/// What an event will do to the tables. It is used again for the next event, with the memory of its lists.
#[derive(Drop)]
pub struct Plan {
    /// The acts, the oldest first.
    pub acts: List<Act>,
    /// What they do. Names and objects stand with the newest first.
    pub work: Worked,
    pub unmapped: bool,
}

impl Plan {
    /// Nothing.
    pub fn new(alloc: Global) -> Plan
        ensures { PlansNothing result }
    {
        Plan {
            acts: List::new(alloc),
            work: Worked::new(alloc),
            unmapped: false,
        }
    }

    /// Puts the names and the objects that were worked out with the newest first.
    pub fn turn(&mut self, alloc: Global) -> Result<(), NoMemory>
        ensures ok { OnOk result (IsTurned self.old.work self.new.work) }
        ensures acts { self.new.acts ≡ self.old.acts }
        ensures unmapped { self.new.unmapped ≡ self.old.unmapped }
    {
        turn(alloc, &mut self.work.draft.given)?;
        self.work.draft.added.turn(alloc)?;
        Ok(())
    }

    /// The flows that the event will make, in their order.
    pub fn flows(&self) -> &[Flow]
        ensures { result.now ≡ self.now.work.draft.added.flows }
    {
        self.work.draft.added.flows()
    }

    /// Whether the call of the event isn't among those that are known.
    pub fn unmapped(&self) -> bool
        ensures { result ≡ self.now.unmapped }
    {
        self.unmapped
    }
}

/// Gives a socket its new address, if there is one. It takes no memory.
pub fn readdress(fds: &mut Fds, address: Option<NewAddress>)
    requires room { addresses_in address ≤ fds.old.address_spare }
    ensures addresses { (s : ℕ)
        → address_at fds.new s ≡ readdressed address (address_at fds.old) s }
    ensures held { HoldsTheSame fds.old fds.new }
{
    if let Some(new) = address {
        fds.set_address(new.socket, new.bytes);
    }
}
