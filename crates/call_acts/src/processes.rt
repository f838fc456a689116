//! Calls that make, end and replace processes.
ghost use Rattle.std.specs.Prelude.{◌≡◌, ◌++◌, OnOk};
ghost use Rattle.std.specs.List.{flat_map};
ghost use Rattle.audit_record.specs.declared.types.NameKind.TheVariants.{Normal};
ghost use Rattle.call_acts.specs.Records.{paths};
ghost use Rattle.call_acts.specs.Processes.{runs_file, execs, forks, clones, exits};

use crate::answers::{answered, has, is_ok};
use crate::records::{cwd, file_in, path_of};
use crate::transfers::inward;
use acts::{Act, Thing};
use audit_record::{NameKind, Record, Syscall};
use flow_base::{How, List, NoMemory};
use std::alloc::Global;

// The flag of a clone that makes a thread of the same process.
const THREAD: u64 = 0x10000;

/// An exec takes its program from each path of kind Normal, and then runs it.
pub fn exec(
    alloc: Global,
    limit: usize,
    records: &[Record],
    call: &Syscall,
    done: &mut List<Act>,
) -> Result<(), NoMemory>
    ensures { OnOk result (done.new ≡ done.old ++ execs limit records.now call.now) }
{
    if is_ok(call) {
        run_files(alloc, limit, records, call, done)?;
        done.push(Act::Exec { pid: call.pid })?;
    }
    Ok(())
}

// A script is run by its interpreter, so there may be several.
#[tactic(auto, using(crate::proofs::RecordLists::more_each))]
fn run_files(
    alloc: Global,
    limit: usize,
    records: &[Record],
    call: &Syscall,
    done: &mut List<Act>,
) -> Result<(), NoMemory>
    ensures { OnOk result (done.new ≡ done.old
        ++ flat_map (runs_file limit records.now call.now) (paths Normal records.now)) }
{
    let cwd = cwd(records);
    for record in records {
        if let Some(item) = path_of(record, NameKind::Normal) {
            let file = file_in(alloc, limit, cwd, item)?;
            done.push(inward(call, How::Exec, Thing::File(file)))?;
        }
    }
    Ok(())
}

/// A fork makes the child that it answered.
pub fn fork(call: &Syscall, done: &mut List<Act>) -> Result<(), NoMemory>
    ensures { OnOk result (done.new ≡ done.old ++ forks call.now) }
{
    match answered(call) {
        Some(child) if child != 0 && child != call.pid => done.push(Act::Fork {
            pid: call.pid,
            child,
        }),
        _ => Ok(()),
    }
}

/// A clone is a fork, unless it makes a thread.
pub fn clone(call: &Syscall, flags: u64, done: &mut List<Act>) -> Result<(), NoMemory>
    ensures { OnOk result (done.new ≡ done.old ++ clones call.now flags) }
{
    if has(flags, THREAD) {
        Ok(())
    } else {
        fork(call, done)
    }
}

/// An exit ends the caller. It never returns, so its record has no word of success.
pub fn exit(call: &Syscall, done: &mut List<Act>) -> Result<(), NoMemory>
    ensures { OnOk result (done.new ≡ done.old ++ exits call.now) }
{
    done.push(Act::End { pid: call.pid })
}
