//! A line that waits, as the heap keeps it: in 24 bytes, with the rest of it apart.
ghost use Rattle.std.specs.Prelude.{◌≡◌, true, false, IfOk, refl};
ghost use Rattle.std.specs.Ordering.{nat_cmp, ordering_then, is_lt, as_partial_cmp, eq_by_cmp};
ghost use Rattle.std.specs.Cmp.{partial_equiv_from_equiv, eq_by_cmp_equiv, partial_order_from_total};
ghost use Rattle.order_queue.specs.Order.{event_cmp, place_cmp};
ghost use Rattle.order_queue.specs.Total.{place_total};

use crate::noted::Noted;
use crate::waiting::Waiting;
use flow_base::{Bytes, NoMemory};
use std::alloc::Global;
use std::cmp::Ordering;
use std::marker::Model;
use std::mem::size_of;

const _: () = prove!(size_of::<Entry>() == 24);

/// A line that waits, as the heap keeps it. Lines are compared by their places: by the time at which their event counts, then by the
/// number by which it goes among those of that time; then by its serial number, its own time and its node, so that the lines of an
/// event stand together; then by rank, so that the lines that end an event stand last; then by the number of the line in the log.
///
/// A heap compares and moves its entries a dozen times for each line, and tens of thousands of lines may wait. So an entry is small,
/// that more of them stand in the processor's cache: it has the numbers by which lines of two events mostly differ, and the rest is
/// boxed.
#[derive(Drop)]
pub struct Entry {
    time: u64,
    goes_by: u32,
    serial: u32,
    rest: Box<Rest>,
}

// The rest of a line that waits. Its fields are compared in their order.
#[derive(Drop, PartialEq, Eq, PartialOrd, Ord)]
struct Rest {
    ms: u64,
    node: Bytes,
    rank: u8,
    number: u64,
    line: Noted,
}

impl Model for Entry {
    ghost use Rattle.order_queue.specs.declared.waiting.Waiting.{Waiting};

    ghost Value = { Waiting };

    ghost view = { λ a. record {
      time = a.time;
      goes_by = a.goes_by;
      serial = a.serial;
      ms = a.rest.value.ms;
      node = a.rest.value.node;
      rank = a.rest.value.rank;
      number = a.rest.value.number;
      line = a.rest.value.line;
    } };
}

impl Entry {
    /// The entry of a line that waits.
    pub fn new(alloc: Global, item: Waiting) -> Result<Entry, NoMemory>
        ensures { IfOk result (λ entry. entry ≡ item) }
    {
        let rest = Rest {
            ms: item.ms,
            node: item.node,
            rank: item.rank,
            number: item.number,
            line: item.line,
        };
        Ok(Entry {
            time: item.time,
            goes_by: item.goes_by,
            serial: item.serial,
            rest: Box::new(alloc, rest)?,
        })
    }

    /// The line that waits.
    pub fn into_waiting(self) -> Waiting
        ensures { result ≡ self }
    {
        let Entry {
            time,
            goes_by,
            serial,
            rest,
        } = self;
        let rest = Box::into_inner(rest);
        Waiting {
            time,
            goes_by,
            serial,
            ms: rest.ms,
            node: rest.node,
            rank: rest.rank,
            number: rest.number,
            line: rest.line,
        }
    }

    /// The time at which the line's event counts.
    pub fn time(&self) -> u64
        ensures { result ≡ self.now.time }
    {
        self.time
    }

    // Which of two lines comes first whose events count at one time.
    fn cmp_at_one_time(&self, other: &Entry) -> Ordering
        ensures { result ≡ ordering_then
            (nat_cmp self.now.goes_by other.now.goes_by) (event_cmp self.now other.now) }
    {
        match self.goes_by.cmp(&other.goes_by) {
            Ordering::Equal => self.cmp_by_event(other),
            order => order,
        }
    }

    // Which of two lines comes first by their events, and within an event.
    fn cmp_by_event(&self, other: &Entry) -> Ordering
        ensures { result ≡ event_cmp self.now other.now }
    {
        match self.serial.cmp(&other.serial) {
            Ordering::Equal => self.rest.cmp(&other.rest),
            order => order,
        }
    }
}

impl PartialEq for Entry {
    ghost eq = { eq_by_cmp place_cmp };

    ghost laws = { partial_equiv_from_equiv (eq_by_cmp_equiv place_total) };

    fn eq(&self, other: &Entry) -> bool {
        self.cmp(other).is_eq()
    }
}

impl Eq for Entry {
    ghost laws = { eq_by_cmp_equiv place_total };
}

impl Ord for Entry {
    ghost cmp = { place_cmp };

    ghost total = { place_total };

    ghost matches_partial_cmp = { λ a b. refl };

    ghost matches_eq = { λ a b. refl };

    fn cmp(&self, other: &Entry) -> Ordering {
        match self.time.cmp(&other.time) {
            Ordering::Equal => self.cmp_at_one_time(other),
            order => order,
        }
    }
}

impl PartialOrd for Entry {
    ghost partial_cmp = { as_partial_cmp place_cmp };

    ghost laws = { partial_order_from_total place_total };

    fn partial_cmp(&self, other: &Entry) -> Option<Ordering> {
        Some(self.cmp(other))
    }
}

/// Whether a line comes no later than another one.
pub fn is_no_later(one: &Entry, other: &Entry) -> bool
    ensures yes { result ≡ true → is_lt (place_cmp other.now one.now) ≡ false }
    ensures no { result ≡ false → is_lt (place_cmp one.now other.now) ≡ false }
{
    match one.cmp(other) {
        Ordering::Greater => false,
        _ => true,
    }
}
