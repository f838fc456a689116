//! What opening a store hands back.
ghost use Rattle.reduced_store.specs.declared.opened.OpenFault.TheVariants as fault;

use crate::store::Store;
use batch_log::LogFault;
use flow_base::List;
use outside::Disk;
use reach_model::Mode;
use row_codec::StoreRow;

/// Why a store wasn't opened: a call on the disk failed, it is no store, it is one of another mode,
/// or an allocation failed. A bad store has the place of its first gate that is neither closed nor
/// that of a whole batch, and else that of the first batch that doesn't go on with the store, and else,
/// if two rows have one last place, that of the last batch's gate.
#[derive(Clone, Copy, Debug, PartialEq, Eq)]
pub enum OpenFault {
    StoreFault,
    BadStore(u64),
    WrongMode { kept: Mode, asked: Mode },
    NoMemory,
}

/// A store, its mode and the place of its last batch's gate if it has a batch, and the rows from which
/// tables are filled.
#[derive(Drop)]
pub struct Opened<D: Disk> {
    pub store: Store<D>,
    pub mode: Option<Mode>,
    pub last: Option<u64>,
    pub rows: List<StoreRow>,
}

/// A disk that wasn't opened, and why.
#[derive(Drop)]
pub struct Unopened<D> {
    pub fault: OpenFault,
    pub disk: D,
}
