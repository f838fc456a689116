//! What a run did to the lines, counted.
ghost use Rattle.std.specs.Prelude.{◌≡◌, ◌+◌, ◌++◌, OnOk, IfOk};
ghost use Rattle.audit_order.specs.Report.{report_of, number_text};
ghost use Rattle.audit_order.specs.Tally.{no_tally, tally_after};

use flow_base::{Bytes, NoMemory};
use itoa::Buffer;
use std::alloc::Global;

/// What a run did to the lines of a log.
#[derive(Clone, Copy, Debug, PartialEq, Eq)]
pub struct Counts {
    /// The ends that were added.
    pub added_ends: u64,
    /// The blank peers that were added.
    pub added_peers: u64,
    /// The events that were written.
    pub events: u64,
    /// The lines that were written after one of a greater place.
    pub late: u64,
    /// The lines of which a part was rewritten.
    pub rewrites: u64,
    /// The lines whose time was raised, with the added ends and peers among them.
    pub times_raised: u64,
}

impl Counts {
    /// Nothing was done.
    pub fn new() -> Counts {
        Counts {
            added_ends: 0,
            added_peers: 0,
            events: 0,
            late: 0,
            rewrites: 0,
            times_raised: 0,
        }
    }
}

/// Where a line stands among all: the time at which its event counts, the number by which it goes among those of that time, the
/// event's serial number, its own time and its node, and the rank of the line in it. Spots are compared in this order, as places are,
/// of which only the number of the line is left out.
#[derive(Drop, PartialEq, Eq, PartialOrd, Ord)]
pub struct Spot {
    pub time: u64,
    pub goes_by: u32,
    pub serial: u32,
    pub ms: u64,
    pub node: Bytes,
    pub rank: u8,
}

/// How many events were written so far, how many lines after one of a greater place, and the greatest place of a line.
#[derive(Drop)]
pub struct Tally {
    pub events: u64,
    pub late: u64,
    pub greatest: Spot,
}

impl Tally {
    /// Nothing was written.
    pub fn new(alloc: Global) -> Tally
        ensures { result ≡ no_tally }
    {
        Tally {
            events: 0,
            late: 0,
            greatest: Spot {
                time: 0,
                goes_by: 0,
                serial: 0,
                ms: 0,
                node: Bytes::new(alloc),
                rank: 0,
            },
        }
    }

    /// A line is written here.
    pub fn note(&mut self, spot: Spot) -> Result<(), NoMemory>
        ensures { OnOk result (self.new ≡ tally_after self.old spot) }
    {
        if spot.cmp(&self.greatest).is_lt() {
            return count_one(&mut self.late);
        }
        self.greatest = spot;
        Ok(())
    }
}

/// One more. A count that stands at its end doesn't go on.
pub fn count_one(count: &mut u64) -> Result<(), NoMemory>
    ensures { OnOk result (count.new ≡ count.old + 1) }
{
    if *count == u64::MAX {
        return Err(NoMemory);
    }
    *count += 1;
    Ok(())
}

/// What a run did, as a line of JSON.
pub fn report(alloc: Global, counts: Counts) -> Result<Bytes, NoMemory>
    ensures { IfOk result (λ line. line ≡ report_of counts) }
{
    let mut line = Bytes::from_slice(alloc, b"{\"added_ends\":")?;
    append_number(&mut line, counts.added_ends)?;
    line.append(b",\"added_peers\":")?;
    append_number(&mut line, counts.added_peers)?;
    line.append(b",\"events\":")?;
    append_number(&mut line, counts.events)?;
    line.append(b",\"late\":")?;
    append_number(&mut line, counts.late)?;
    line.append(b",\"rewrites\":")?;
    append_number(&mut line, counts.rewrites)?;
    line.append(b",\"times_raised\":")?;
    append_number(&mut line, counts.times_raised)?;
    line.append(b"}\n")?;
    Ok(line)
}

// Appends a number in decimal digits.
fn append_number(line: &mut Bytes, number: u64) -> Result<(), NoMemory>
    ensures { OnOk result (line.new ≡ line.old ++ number_text number) }
{
    let mut buffer = Buffer::new();
    line.append(buffer.format(number).as_bytes())
}
