//! Lists of records that were dropped, for the next groups.
ghost use Rattle.std.specs.Prelude.{◌≡◌, [], IfOk};

use crate::records::Records;
use flow_base::NoMemory;
use std::alloc::Global;

/// How many lists are kept: few events overlap.
const MOST_LISTS: usize = 8;

/// Lists without records, which have the memory of what was dropped.
#[derive(Drop)]
pub struct Spare {
    lists: Vec<Records>,
}

impl Spare {
    /// No list yet.
    pub fn new(alloc: Global) -> Spare {
        Spare {
            lists: Vec::new(alloc),
        }
    }

    /// A list without records. Memory for the lists that come back is taken first, so that `keep` needs none.
    #[inline(always)]
    pub fn take(&mut self, alloc: Global) -> Result<Records, NoMemory>
        ensures { IfOk result (λ list. list ≡ []) }
    {
        match self.lists.pop() {
            Some(list) => Ok(cleared(list)),
            None => self.first(alloc),
        }
    }

    // A new list, and memory for those that come back.
    #[cold]
    #[inline(never)]
    fn first(&mut self, alloc: Global) -> Result<Records, NoMemory>
        ensures { IfOk result (λ list. list ≡ []) }
    {
        self.lists.reserve_exact(MOST_LISTS)?;
        Ok(Records::new(alloc))
    }

    /// Drops these records, and keeps the memory of their list, unless there are enough.
    pub fn keep(&mut self, records: Records) {
        if self.lists.len() < self.lists.capacity() {
            self.lists.push_reserved(cleared(records));
        }
    }
}

// A list without its records.
#[inline(always)]
fn cleared(list: Records) -> Records
    ensures { result ≡ [] }
{
    let mut list = list;
    list.clear();
    list
}
