//! Engines over stores. A log is taken in two runs, each of which opens the disk and commits, wherever it is cut. The wanted
//! replies are those to the whole log.
ghost use Rattle.std.specs.Prelude.{IfSome};
ghost use Rattle.kept_flows.specs.Committing.{CanCommit};
ghost use Rattle.reduced_store.specs.OnDisk.{SameBut};
ghost use Rattle.ingest.specs.Replies.{IsQuestion};

use crate::engine::DESCRIPTORS;
use flow_base::{Bytes, EntityId, Limits, List, NoMemory};
use ingest::{Ingest, what_can_commit_still_can};
use outside::{Disk, MemDisk};
use reach_model::Mode;
use reach_rows::{Plain, Question};
use reduced_store::Store;
use report_json::{Ask, reply_text};
use std::alloc::Global;
use std::test::Fail;
use table_salt::Salt;

/// An engine that keeps each flow, and puts it on a disk.
pub type OverDisk<D> = Ingest<Plain, Store<D>>;

/// The engine of what a disk stores in plain mode.
pub fn engine_on<D: Disk + Drop>(alloc: Global, disk: D) -> Option<OverDisk<D>>
    ensures { IfSome result (λ engine. CanCommit D.state engine.joined.keep) }
{
    let limits = Limits::standard();
    let Ok(opened) = Store::open_on(alloc, Salt::fixed(), &limits, Some(Mode::Plain), disk) else {
        return None;
    };
    what_can_commit_still_can::<D>();
    match Ingest::restore(alloc, Salt::fixed(), &limits, Plain::new(), opened) {
        Ok(engine) => Some(engine),
        Err(_) => None,
    }
}

/// The disk after a run that takes a piece of a log, and settles if it is the last one.
pub fn disk_after<D: Disk + Drop>(engine: OverDisk<D>, piece: &[u8], last: bool) -> Option<D>
    requires { CanCommit D.state engine.joined.keep }
{
    what_can_commit_still_can::<D>();
    let mut engine = engine;
    if takes(&mut engine, piece, last) && engine.commit().is_ok() {
        Some(engine.into_keep().into_disk())
    } else {
        None
    }
}

/// Takes a piece of a log, and settles if it is the last one. The store's disk is only looked at.
fn takes<D: Disk>(engine: &mut OverDisk<D>, piece: &[u8], last: bool) -> bool
    ensures { SameBut D.state D.faults D.spent engine.old.joined.keep engine.new.joined.keep }
{
    if engine.feed(piece).is_err() {
        return false;
    }
    !last || engine.settle().is_ok()
}

/// Whether an answer has this text.
fn answers(
    alloc: Global,
    engine: &mut OverDisk<MemDisk>,
    ask: Ask<'_>,
    wanted: &[u8],
) -> Result<bool, NoMemory>
    requires { IsQuestion ask }
{
    match engine.ask(&ask) {
        Ok(reply) => {
            let text = reply_text(alloc, &reply)?;
            Ok(text.as_slice() == wanted)
        }
        Err(_) => Ok(false),
    }
}

/// Takes the log in two runs, and then opens the disk again.
fn reopened(alloc: Global, log: &[u8], cut: usize) -> Option<OverDisk<MemDisk>> {
    let (first, rest) = log.split_at(log.len().min(cut));
    let disk = MemDisk::new(alloc, Bytes::new(alloc), List::new(alloc));
    let disk = disk_after(engine_on(alloc, disk)?, first, false)?;
    let disk = disk_after(engine_on(alloc, disk)?, rest, true)?;
    engine_on(alloc, disk)
}

/// Whether the engine answers as one of the whole log does.
fn answers_all(alloc: Global, engine: &mut OverDisk<MemDisk>) -> Result<bool, NoMemory> {
    let back = Ask::Question(Question::Back {
        of: EntityId(4),
        until: None,
    });
    let ids = b"{\"back\":4,\"ids\":[0,1,2,3,4]}\n".as_slice();
    let shown = b"{\"is\":\"file 08:01 7 0\",\"names\":[\"/f7\"],\"show\":3}\n".as_slice();
    let reached = answers(alloc, engine, back, ids)?;
    Ok(reached && answers(alloc, engine, Ask::Show(EntityId(3)), shown)?)
}

/// Whether the log in two runs is answered as in one.
fn is_one_log(alloc: Global, cut: usize) -> Result<bool, NoMemory> {
    match reopened(alloc, DESCRIPTORS, cut) {
        Some(engine) => {
            let mut engine = engine;
            answers_all(alloc, &mut engine)
        }
        None => Ok(false),
    }
}

#[test]
fn a_log_in_two_runs_is_answered_as_one(rt: HostRuntime) -> Result<(), Fail> {
    let alloc = rt.alloc();
    for cut in [0, 100, 157, 500, 1000, 1700, 5000] {
        assert!(rt; is_one_log(alloc, cut)?);
    }
    Ok(())
}
