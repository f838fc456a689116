//! What a dialogue works with: an engine, and the memory through which the log comes to it.
ghost use Rattle.std.specs.Prelude.{◌≡◌, ◌<◌, IfOk, length};

use flow_base::NoMemory;
use ingest::Ingest;
use reach_rows::{Keep, Reducer};
use std::alloc::Global;

/// The most bytes of one read.
pub const PIECE: usize = 65_536;

/// An engine that answers, and the buffer for each read of its log. The buffer is allocated once a
/// run, in memory that can be refused, and no question allocates another.
#[derive(Drop)]
pub struct Session<R: Reducer, K: Keep> {
    pub alloc: Global,
    pub engine: Ingest<R, K>,
    pub piece: Vec<u8>,
    /// How many bytes of the log are a batch, after which all is saved.
    pub batch: u64,
    /// How many were taken since the last save.
    pub unsaved: u64,
    pub ghost few: { unsaved < batch },
    pub ghost room: { length piece.items ≡ 65536 },
}

/// A buffer for the bytes of one read.
pub fn room_for_a_read(alloc: Global) -> Result<Vec<u8>, NoMemory>
    ensures { IfOk result (λ room. length room.items ≡ 65536) }
{
    Ok(vec![in alloc; 0; PIECE]?)
}
