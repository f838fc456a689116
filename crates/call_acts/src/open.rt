//! Calls that open files by their paths.
ghost use Rattle.std.specs.Prelude.{◌≡◌, ◌++◌, OnOk};
ghost use Rattle.call_acts.specs.Records.{target};
ghost use Rattle.call_acts.specs.Descriptors.{sets_file, opens_file, opens_target, opens_path};

use crate::answers::{answered, has};
use crate::calls::TRUNCATE;
use crate::descriptors::CLOEXEC;
use crate::files::bear;
use crate::records::{copy_file, file_of, target};
use crate::transfers::outward;
use acts::{Act, FileRef, Opens, Thing};
use audit_record::{NameKind, Record, Syscall};
use flow_base::{How, List, NoMemory};
use std::alloc::Global;

/// An open opens the path that its event names. If the event has none, nothing is known of the descriptor any more.
pub fn open(
    alloc: Global,
    limit: usize,
    records: &[Record],
    call: &Syscall,
    flags: u64,
    done: &mut List<Act>,
) -> Result<(), NoMemory>
    ensures { OnOk result (done.new ≡ done.old ++ opens_path limit records.now call.now flags) }
{
    match answered(call) {
        Some(fd) => open_target(alloc, limit, records, call, flags, fd, done),
        None => Ok(()),
    }
}

fn open_target(
    alloc: Global,
    limit: usize,
    records: &[Record],
    call: &Syscall,
    flags: u64,
    fd: u32,
    done: &mut List<Act>,
) -> Result<(), NoMemory>
    ensures { OnOk result (done.new ≡ done.old
        ++ opens_target limit records.now call.now flags (target records.now) fd) }
{
    match target(records) {
        Some(item) => {
            let file = file_of(alloc, limit, records, item)?;
            open_file(call, flags, fd, item.kind == NameKind::Create, file, done)
        }
        None => {
            done.push(Act::Close { pid: call.pid, fd })?;
            Ok(())
        }
    }
}

// A file that was created is born and made; an existing file is altered if the open empties it.
fn open_file(
    call: &Syscall,
    flags: u64,
    fd: u32,
    created: bool,
    file: FileRef,
    done: &mut List<Act>,
) -> Result<(), NoMemory>
    ensures { OnOk result (done.new ≡ done.old ++ opens_file call.now flags fd created file) }
{
    if created {
        bear(call, copy_file(&file)?, done)?;
    } else if has(flags, TRUNCATE) {
        done.push(outward(call, How::Alter, Thing::File(copy_file(&file)?)))?;
    }
    done.push(set_file(call, flags, fd, file))?;
    Ok(())
}

// The descriptor opens the file.
fn set_file(call: &Syscall, flags: u64, fd: u32, file: FileRef) -> Act
    ensures { result ≡ sets_file call.now flags fd file }
{
    Act::Set {
        pid: call.pid,
        fd,
        what: Opens::File(file),
        cloexec: has(flags, CLOEXEC),
    }
}
