//! Why the engine gives no answer.
ghost use Rattle.std.specs.Prelude.{◌≡◌};
ghost use Rattle.ingest.specs.declared.ask_fault.AskFault.TheVariants as fault;
ghost use Rattle.ingest.specs.Faults.{of_walk, of_reply};

use flow_base::NoMemory;
use query_walk::WalkFault;
use report_json::Reply;

/// Why the engine gives no answer: the store of rows failed, at this place of it stands no row, or an allocation failed.
#[derive(Clone, Copy, Debug, PartialEq, Eq)]
pub enum AskFault {
    StoreFault,
    BadStore(u64),
    NoMemory,
}

impl From<NoMemory> for AskFault {
    ghost from_gives = { λ _ e. e ≡ fault.NoMemory };

    fn from(_fault: NoMemory) -> AskFault {
        AskFault::NoMemory
    }
}

/// The fault of a walk, as the engine hands it on.
pub fn fault_of(refused: WalkFault) -> AskFault
    ensures { result ≡ of_walk refused }
{
    match refused {
        WalkFault::StoreFault => AskFault::StoreFault,
        WalkFault::BadStore(place) => AskFault::BadStore(place),
        WalkFault::NoMemory => AskFault::NoMemory,
    }
}

/// A reply that only want of memory refuses, as the engine hands it on.
pub fn of_reply(found: Result<Reply, NoMemory>) -> Result<Reply, AskFault>
    ensures { result ≡ of_reply found }
{
    match found {
        Ok(reply) => Ok(reply),
        Err(NoMemory) => Err(AskFault::NoMemory),
    }
}
