//! The walks over a table, each of which counts its steps from nothing.
ghost use Rattle.std.specs.Prelude.{◌≡◌, ◌<◌};

use crate::table::Table;
use flow_base::{EntityId, Flow, List};
use query_walk::{WalkFault, backward, forward, path};
use reach_rows::Steps;
use std::alloc::Global;
use std::marker::Brand;
use std::sync::ledger::{Blank, Ledger};

/// What reaches an object.
pub fn back(
    alloc: Global,
    table: &mut Table,
    of: EntityId,
    until: Option<u64>,
) -> Result<List<EntityId>, WalkFault>
    requires known { of.0 < table.old.known }
    ensures known { table.new.known ≡ table.old.known }
{
    back_by::<Brand>(alloc, table, of, until, Blank::new(1))
}

/// What an object reaches.
pub fn fore(
    alloc: Global,
    table: &mut Table,
    of: EntityId,
    since: Option<u64>,
) -> Result<List<EntityId>, WalkFault>
    requires known { of.0 < table.old.known }
    ensures known { table.new.known ≡ table.old.known }
{
    fore_by::<Brand>(alloc, table, of, since, Blank::new(1))
}

/// A path from one object to another.
pub fn way(
    alloc: Global,
    table: &mut Table,
    from: EntityId,
    to: EntityId,
    until: Option<u64>,
) -> Result<Option<List<Flow>>, WalkFault>
    requires from { from.0 < table.old.known }
    requires to { to.0 < table.old.known }
    ensures known { table.new.known ≡ table.old.known }
{
    way_by::<Brand>(alloc, table, from, to, until, Blank::new(1))
}

fn back_by<L: Ledger>(
    alloc: Global,
    table: &mut Table,
    of: EntityId,
    until: Option<u64>,
    blank: Blank,
) -> Result<List<EntityId>, WalkFault>
    requires known { of.0 < table.old.known }
    requires name { blank.name ≡ L.name }
    requires parts { blank.parts ≡ L.parts }
    requires one { blank.parts ≡ 1 }
    ensures known { table.new.known ≡ table.old.known }
{
    let mut steps = Steps::<L>::new(blank);
    backward(alloc, table, of, until, &mut steps)
}

fn fore_by<L: Ledger>(
    alloc: Global,
    table: &mut Table,
    of: EntityId,
    since: Option<u64>,
    blank: Blank,
) -> Result<List<EntityId>, WalkFault>
    requires known { of.0 < table.old.known }
    requires name { blank.name ≡ L.name }
    requires parts { blank.parts ≡ L.parts }
    requires one { blank.parts ≡ 1 }
    ensures known { table.new.known ≡ table.old.known }
{
    let mut steps = Steps::<L>::new(blank);
    forward(alloc, table, of, since, &mut steps)
}

fn way_by<L: Ledger>(
    alloc: Global,
    table: &mut Table,
    from: EntityId,
    to: EntityId,
    until: Option<u64>,
    blank: Blank,
) -> Result<Option<List<Flow>>, WalkFault>
    requires from { from.0 < table.old.known }
    requires to { to.0 < table.old.known }
    requires name { blank.name ≡ L.name }
    requires parts { blank.parts ≡ L.parts }
    requires one { blank.parts ≡ 1 }
    ensures known { table.new.known ≡ table.old.known }
{
    let mut steps = Steps::<L>::new(blank);
    path(alloc, table, from, to, until, &mut steps)
}
