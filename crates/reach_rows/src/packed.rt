//! Rows as memory keeps them, in 40 bytes each.
//!
//!     bytes   what stands there
//!     8       the time of the first flow
//!     8       source and target
//!     4       the serial number of the first flow's event
//!     6       the place of the first flow, or the index of the row's extension
//!     6       the greatest earlier row with the same target, 2^48 - 1 for none
//!     6       the greatest earlier row with the same source, 2^48 - 1 for none
//!     1       how the first flow came about
//!     1       whether the row has an extension
//!
//! An extension has the row's first place and its last mark, in 32 bytes of a list apart. A row has
//! one if it was extended, which happens in continuous mode alone, or if its place doesn't fit in 6
//! bytes, as no log's does. Every other row ends with the flow that it begins with.
ghost use Rattle.std.specs.Prelude.{◌≡◌, ◌<◌, ◌≤◌, ◌+◌, ◌^◌, ◌∷◌, ◌++◌, [], false, min, OnOk, length, slice_index_or, vec_len, vec_capacity};
ghost use Rattle.reach_rows.specs.declared.rows.Row.{Row as KeptRow};
ghost use Rattle.reach_rows.specs.Indexes.{index_in};
ghost use Rattle.reach_rows.specs.Packed.{KeptRows, IsLinkable, HasExtension, HaveExtensions, NONE, row_of_link, row_with, room_in, extension_of, extension_of_flow, row_of_packed, rows_of_packed, row_of_flow, with_last};

use crate::index48::Index48;
use crate::rows::{Mark, Row, mark_of};
use flow_base::{EntityId, Flow, How, NoMemory, Stamp};
use std::alloc::Global;
use std::marker::Model;
use std::mem::size_of;

/// No row, as a link. Each index of a row and of an extension is less.
pub const NO_ROW: u64 = 0xFFFF_FFFF_FFFF;

const _: () = prove!(size_of::<PackedRow>() == 40);

const _: () = prove!(size_of::<Extension>() == 32);

/// Packed rows, and the extensions of those that were extended.
#[derive(Drop)]
pub struct PackedRows {
    rows: Vec<PackedRow>,
    extensions: Vec<Extension>,
}

impl Model for PackedRows {
    ghost Value = { KeptRows };

    ghost view = { λ a. record {
      rows = rows_of_packed a.extensions.items a.rows.items;
      room = min (room_in (vec_capacity a.rows) (vec_len a.rows))
          (room_in (vec_capacity a.extensions) (vec_len a.extensions));
    } };

    ghost invariant = { λ a. HaveExtensions a.extensions.items a.rows.items };
}

impl PackedRows {
    /// No rows.
    pub fn new(alloc: Global) -> PackedRows
        ensures { result.rows ≡ [] }
    {
        PackedRows {
            rows: Vec::new(alloc),
            extensions: Vec::new(alloc),
        }
    }

    /// How many rows there are.
    pub fn len(&self) -> u64
        ensures rows { result ≡ length self.now.rows }
        ensures few { result + self.now.room ≤ NONE }
    {
        self.rows.len() as u64
    }

    /// The row at an index.
    pub fn row(&self, index: u64) -> Row
        requires { index < length self.now.rows }
        ensures { result ≡ slice_index_or self.now.rows index result }
    {
        self.rows[index as usize].row(&self.extensions)
    }

    /// Makes room for this many more flows, each of which is a row or extends one. More than
    /// 2^48 - 1 rows, which would take 11 petabytes, are refused like other rows that don't fit
    /// in memory.
    pub fn reserve(&mut self, flows: usize) -> Result<(), NoMemory>
        ensures room { OnOk result (flows ≤ self.new.room) }
        ensures few { OnOk result (flows < 2 ^ 63) }
        ensures rows { self.new.rows ≡ self.old.rows }
    {
        reserve_in(&mut self.rows, flows)?;
        reserve_in(&mut self.extensions, flows)
    }

    /// Appends the row whose first and last flow are this one.
    pub fn push(&mut self, flow: &Flow, before_to: Option<u64>, before_from: Option<u64>)
        requires room { 1 ≤ self.old.room }
        requires to { IsLinkable before_to }
        requires from { IsLinkable before_from }
        ensures rows { self.new.rows
            ≡ self.old.rows ++ row_of_flow flow.now before_to before_from ∷ [] }
        ensures room { self.old.room ≤ self.new.room + 1 }
    {
        if flow.at.place <= NO_ROW {
            let row = PackedRow::new(flow, flow.at.place, before_to, before_from);
            self.rows.push_reserved(row);
        } else {
            let extension = self.extensions.len() as u64;
            let row = PackedRow::new(flow, extension, before_to, before_from);
            self.rows.push_reserved(PackedRow {
                extended: true,
                ..row
            });
            self.extensions.push_reserved(Extension {
                place: flow.at.place,
                last: mark_of(flow),
            });
        }
    }

    /// Makes a mark the last one of a row.
    pub fn extend(&mut self, row: u64, last: Mark)
        requires row { row < length self.old.rows }
        requires room { 1 ≤ self.old.room }
        ensures rows { (d : KeptRow) → self.new.rows ≡ with_last self.old.rows row last d }
        ensures room { self.old.room ≤ self.new.room + 1 }
    {
        let packed = self.rows[row as usize];
        if packed.extended {
            self.extensions[packed.place_or_extension.get() as usize].last = last;
        } else {
            self.rows[row as usize] = PackedRow {
                place_or_extension: Index48::new(self.extensions.len() as u64),
                extended: true,
                ..packed
            };
            self.extensions.push_reserved(Extension {
                place: packed.place_or_extension.get(),
                last,
            });
        }
    }
}

/// Makes room for this many more items, each of which has an index less than `NO_ROW`.
fn reserve_in<T: Drop>(items: &mut Vec<T>, more: usize) -> Result<(), NoMemory>
    ensures room { OnOk result (more ≤ room_in (vec_capacity items.new) (vec_len items.new)) }
    ensures items { items.new.items ≡ items.old.items }
{
    if more as u64 > NO_ROW.saturating_sub(items.len() as u64) {
        return Err(NoMemory);
    }
    items.reserve(more)?;
    Ok(())
}

/// A row, with what it keeps apart left out. In this order of its fields no gap is between them.
#[derive(Clone, Copy)]
pub struct PackedRow {
    pub ms: u64,
    pub from: EntityId,
    pub to: EntityId,
    pub serial: u32,
    pub place_or_extension: Index48,
    pub before_to: Index48,
    pub before_from: Index48,
    pub how: How,
    pub extended: bool,
}

/// What a row keeps apart: the place of its first flow, and the mark of its last one.
#[derive(Clone, Copy)]
pub struct Extension {
    pub place: u64,
    pub last: Mark,
}

impl PackedRow {
    /// The row whose first and last flow are this one, with its place or its extension.
    fn new(
        flow: &Flow,
        place_or_extension: u64,
        before_to: Option<u64>,
        before_from: Option<u64>,
    ) -> PackedRow
        requires index { place_or_extension < 2 ^ 48 }
        requires to { IsLinkable before_to }
        requires from { IsLinkable before_from }
        ensures row { row_with result (extension_of_flow flow.now)
            ≡ row_of_flow flow.now before_to before_from }
        ensures index { index_in result.place_or_extension ≡ place_or_extension }
        ensures single { result.extended ≡ false }
    {
        PackedRow {
            ms: flow.at.ms,
            from: flow.from,
            to: flow.to,
            serial: flow.serial,
            place_or_extension: Index48::new(place_or_extension),
            before_to: link_to(before_to),
            before_from: link_to(before_from),
            how: flow.how,
            extended: false,
        }
    }

    /// The row, with its last mark.
    pub fn row(&self, extensions: &[Extension]) -> Row
        requires { HasExtension extensions.now self.now }
        ensures { result ≡ row_of_packed extensions.now self.now }
    {
        let extension = self.extension(extensions);
        Row {
            from: self.from,
            to: self.to,
            first: Mark {
                at: Stamp {
                    ms: self.ms,
                    place: extension.place,
                },
                how: self.how,
                serial: self.serial,
            },
            last: extension.last,
            before_to: row_at(self.before_to),
            before_from: row_at(self.before_from),
        }
    }

    /// The row's extension, or what it would be if the row had one.
    fn extension(&self, extensions: &[Extension]) -> Extension
        requires { HasExtension extensions.now self.now }
        ensures { result ≡ extension_of extensions.now self.now }
    {
        if self.extended {
            return extensions[self.place_or_extension.get() as usize];
        }
        let place = self.place_or_extension.get();
        Extension {
            place,
            last: Mark {
                at: Stamp { ms: self.ms, place },
                how: self.how,
                serial: self.serial,
            },
        }
    }
}

/// The link that names a row.
fn link_to(row: Option<u64>) -> Index48
    requires { IsLinkable row }
    ensures { row_of_link (index_in result) ≡ row }
{
    Index48::new(row.unwrap_or(NO_ROW))
}

/// The row that a link names.
pub fn row_at(link: Index48) -> Option<u64>
    ensures { result ≡ row_of_link (index_in link) }
{
    let row = link.get();
    if row == NO_ROW { None } else { Some(row) }
}
