//! Why a run stops before its end, and how far a dialogue got.
ghost use Rattle.std.specs.Prelude.{◌≡◌};
ghost use Rattle.dialogue.specs.declared.halt.Halt.TheVariants as halt;
ghost use Rattle.dialogue.specs.declared.halt.StoreHalt.TheVariants as over;
ghost use Rattle.dialogue.specs.Course.{halt_for};
ghost use Rattle.dialogue.specs.StoreHalts.{ask_halt, commit_halt, open_halt, over_run, restore_halt};

use batch_log::CommitFault;
use flow_base::{Full, NoMemory, Refused};
use ingest::{AskFault, RestoreFault};
use reach_model::Mode;
use reduced_store::OpenFault;

/// Why a run stops before its end.
#[derive(Clone, Copy, Debug, PartialEq, Eq)]
pub enum Halt {
    NoMemory,
    ReadFault,
    WriteFault,
    /// A call on the disk of a store failed.
    StoreFault,
    /// At this place of an opened store stands no row.
    BadRow(u64),
    Full(Full),
    /// A batch would pass a limit of a store.
    Unwritten(Full),
}

impl From<NoMemory> for Halt {
    ghost from_gives = { λ _ e. e ≡ halt.NoMemory };

    fn from(_fault: NoMemory) -> Halt {
        Halt::NoMemory
    }
}

impl From<CommitFault> for Halt {
    ghost from_gives = { λ fault e. e ≡ commit_halt fault };

    fn from(fault: CommitFault) -> Halt {
        match fault {
            CommitFault::StoreFault => Halt::StoreFault,
            CommitFault::Full(full) => Halt::Unwritten(full),
            CommitFault::NoMemory => Halt::NoMemory,
        }
    }
}

/// Why a run over a store stops before its end: for a cause that any run has, or for its store.
#[derive(Clone, Copy, Debug, PartialEq, Eq)]
pub enum StoreHalt {
    Run(Halt),
    /// The disk isn't a store. The place is that of the batch from which on it isn't one.
    BadStore(u64),
    /// The store is of another mode.
    WrongMode { kept: Mode, asked: Mode },
    /// The log has fewer bytes than the store has taken of it.
    ShortLog { taken: u64, had: u64 },
}

impl From<NoMemory> for StoreHalt {
    ghost from_gives = { λ _ e. e ≡ over.Run halt.NoMemory };

    fn from(_fault: NoMemory) -> StoreHalt {
        StoreHalt::Run(Halt::NoMemory)
    }
}

impl From<Halt> for StoreHalt {
    ghost from_gives = { λ why e. e ≡ over.Run why };

    fn from(why: Halt) -> StoreHalt {
        StoreHalt::Run(why)
    }
}

/// Why a disk wasn't opened as a store, as a halt.
pub fn halt_of_open(fault: OpenFault) -> StoreHalt
    ensures { result ≡ open_halt fault }
{
    match fault {
        OpenFault::StoreFault => StoreHalt::Run(Halt::StoreFault),
        OpenFault::BadStore(place) => StoreHalt::BadStore(place),
        OpenFault::WrongMode { kept, asked } => StoreHalt::WrongMode { kept, asked },
        OpenFault::NoMemory => StoreHalt::Run(Halt::NoMemory),
    }
}

/// Why no engine was made of a store, as a halt.
pub fn halt_of_restore(fault: RestoreFault) -> StoreHalt
    ensures { result ≡ restore_halt fault }
{
    match fault {
        RestoreFault::BadStore(place) => StoreHalt::BadStore(place),
        RestoreFault::Full(full) => StoreHalt::Run(Halt::Full(full)),
        RestoreFault::StoreFault => StoreHalt::Run(Halt::StoreFault),
        RestoreFault::BadRow(place) => StoreHalt::Run(Halt::BadRow(place)),
        RestoreFault::NoMemory => StoreHalt::Run(Halt::NoMemory),
    }
}

/// Why a question wasn't answered, as a halt.
pub fn halt_of_ask(fault: AskFault) -> Halt
    ensures { result ≡ ask_halt fault }
{
    match fault {
        AskFault::StoreFault => Halt::StoreFault,
        AskFault::BadStore(place) => Halt::BadRow(place),
        AskFault::NoMemory => Halt::NoMemory,
    }
}

/// Why the engine stopped, as a halt.
pub fn halt_of(why: Refused) -> Halt
    ensures { result ≡ halt_for why }
{
    match why {
        Refused::NoMemory => Halt::NoMemory,
        Refused::Full(full) => Halt::Full(full),
    }
}

/// A run, as one over a store.
pub fn halted(outcome: Result<(), Halt>) -> Result<(), StoreHalt>
    ensures { result ≡ over_run outcome }
{
    match outcome {
        Ok(()) => Ok(()),
        Err(why) => Err(StoreHalt::Run(why)),
    }
}

/// Whether a question ended the dialogue.
#[derive(Clone, Copy, Debug, PartialEq, Eq)]
pub enum Turn {
    More,
    Ended,
}

/// What a read of the questions brought.
#[derive(Clone, Copy, Debug, PartialEq, Eq)]
pub enum Heed {
    /// This many bytes, all of them heard.
    Piece(usize),
    /// The end of the dialogue.
    Ended,
    /// No byte: the questions are over.
    Silence,
}
