//! Rows in memory.
ghost use Rattle.std.specs.Prelude.{◌≡◌, ◌<◌, ⊤, [], Some, map, length};
ghost use Rattle.reach_model.specs.Numbers.{known};
ghost use Rattle.reach_model.specs.Rows.{firsts};
ghost use Rattle.reach_rows.specs.Alike.{all_alike};
ghost use Rattle.reach_rows.specs.Kept.{row_of_kept};
ghost use Rattle.reach_rows.specs.InMemory.{InMemory, HasRoom, AreKept};

use crate::packed::PackedRows;
use crate::packed_objects::PackedObjects;
use crate::questions::First;
use crate::rows::{Keep, Row, RowFault, Rows, mark_of};
use crate::steps::Steps;
use flow_base::{EntityId, Flow, NoMemory};
use std::alloc::Global;
use std::marker::Model;
use std::sync::ledger::Ledger;

/// Rows in memory, which are always observable and never fail to be read.
#[derive(Drop)]
pub struct VecRows {
    rows: PackedRows,
    objects: PackedObjects,
}

impl Model for VecRows {
    ghost Value = { InMemory };

    ghost view = { λ a. record {
      rows = map row_of_kept a.rows.rows;
      rows_room = a.rows.room;
      objects_room = a.objects.room;
    } };

    ghost invariant = { λ a. AreKept a.rows.rows a.objects.objects };
}

impl VecRows {
    /// No rows.
    pub fn new(alloc: Global) -> VecRows
        ensures { result.rows ≡ [] }
    {
        VecRows {
            rows: PackedRows::new(alloc),
            objects: PackedObjects::new(alloc),
        }
    }
}

impl Rows for VecRows {
    ghost rows = { λ s. Some s.rows };

    ghost count = { λ s. length s.rows };

    ghost known = { λ s. known (firsts s.rows) };

    ghost faults = { λ _. 0 };

    ghost spent = { λ _. ⊥ };

    ghost alike = { λ _ _. ⊤ };

    fn count(&self) -> u64 {
        self.rows.len()
    }

    fn known(&self) -> u32 {
        self.objects.len() as u32
    }

    fn first(&self, id: EntityId) -> First {
        self.objects.object(id).first
    }

    fn last_into(&self, id: EntityId) -> Option<u64> {
        self.objects.object(id).last_into
    }

    fn last_from(&self, id: EntityId) -> Option<u64> {
        self.objects.object(id).last_from
    }

    fn row<L: Ledger>(&mut self, index: u64, steps: &mut Steps<L>) -> Result<Row, RowFault> {
        steps.tick();
        Ok(self.rows.row(index))
    }

    ghost goes_along = { all_alike };
}

impl Keep for VecRows {
    ghost has_room = { HasRoom };

    fn reserve(&mut self, flows: usize) -> Result<(), NoMemory> {
        self.rows.reserve(flows)?;
        // Two objects a flow. The room for rows holds fewer than 2^63 flows, so the product doesn't
        // overflow.
        self.objects.reserve(2 * flows)?;
        Ok(())
    }

    fn add(&mut self, flow: &Flow) {
        let row = self.rows.len();
        let before_to = self.objects.last_into_of(flow.to);
        let before_from = self.objects.last_from_of(flow.from);
        self.rows.push(flow, before_to, before_from);
        self.objects.leave(flow, row);
        self.objects.enter(flow, row);
    }

    fn extend(&mut self, row: u64, flow: &Flow) {
        self.rows.extend(row, mark_of(flow));
    }
}
