//! Calls that make, alter and remove files by their paths.
ghost use Rattle.std.specs.Prelude.{◌≡◌, ◌++◌, OnOk};
ghost use Rattle.std.specs.List.{flat_map};
ghost use Rattle.audit_record.specs.declared.types.NameKind.TheVariants.{Create};
ghost use Rattle.call_acts.specs.Records.{paths, file_of};
ghost use Rattle.call_acts.specs.Files.{alters_file, alters_path, alters_fd, renames, removes, bears, makes};

use crate::answers::{fd, is_ok};
use crate::records::{copy_file, cwd, file_in, file_of, path_of, target};
use crate::transfers::outward;
use acts::{Act, FileRef, Thing};
use audit_record::{NameKind, Record, Syscall};
use flow_base::{How, List, NoMemory};
use std::alloc::Global;

/// A call by path alters the path that it was about.
pub fn alter_path(
    alloc: Global,
    limit: usize,
    records: &[Record],
    call: &Syscall,
    done: &mut List<Act>,
) -> Result<(), NoMemory>
    ensures { OnOk result (done.new ≡ done.old ++ alters_path limit records.now call.now) }
{
    match target(records) {
        Some(item) if is_ok(call) => {
            let file = file_of(alloc, limit, records, item)?;
            done.push(outward(call, How::Alter, Thing::File(file)))
        }
        _ => Ok(()),
    }
}

/// A call by descriptor alters the path that it was about, or else what is at its descriptor.
pub fn alter_fd(
    alloc: Global,
    limit: usize,
    records: &[Record],
    call: &Syscall,
    done: &mut List<Act>,
) -> Result<(), NoMemory>
    ensures { OnOk result (done.new ≡ done.old ++ alters_fd limit records.now call.now) }
{
    if !is_ok(call) {
        return Ok(());
    }
    match target(records) {
        Some(item) => {
            let file = file_of(alloc, limit, records, item)?;
            done.push(outward(call, How::Alter, Thing::File(file)))
        }
        None => done.push(outward(call, How::Alter, Thing::Fd(fd(call.a0)))),
    }
}

/// A rename or a link alters each file that it created.
pub fn rename(
    alloc: Global,
    limit: usize,
    records: &[Record],
    call: &Syscall,
    done: &mut List<Act>,
) -> Result<(), NoMemory>
    ensures { OnOk result (done.new ≡ done.old ++ renames limit records.now call.now) }
{
    if is_ok(call) {
        alter_each(alloc, limit, records, call, NameKind::Create, done)
    } else {
        Ok(())
    }
}

/// A removal alters each file that it deleted.
pub fn remove(
    alloc: Global,
    limit: usize,
    records: &[Record],
    call: &Syscall,
    done: &mut List<Act>,
) -> Result<(), NoMemory>
    ensures { OnOk result (done.new ≡ done.old ++ removes limit records.now call.now) }
{
    if is_ok(call) {
        alter_each(alloc, limit, records, call, NameKind::Delete, done)
    } else {
        Ok(())
    }
}

// Each file of this kind is altered, in order.
#[tactic(auto, using(crate::proofs::RecordLists::more_each))]
fn alter_each(
    alloc: Global,
    limit: usize,
    records: &[Record],
    call: &Syscall,
    kind: NameKind,
    done: &mut List<Act>,
) -> Result<(), NoMemory>
    ensures { OnOk result (done.new ≡ done.old
        ++ flat_map (alters_file limit records.now call.now) (paths kind records.now)) }
{
    let cwd = cwd(records);
    for record in records {
        if let Some(item) = path_of(record, kind) {
            let file = file_in(alloc, limit, cwd, item)?;
            done.push(outward(call, How::Alter, Thing::File(file)))?;
        }
    }
    Ok(())
}

/// A call that makes files bears and makes each one that it created.
pub fn make(
    alloc: Global,
    limit: usize,
    records: &[Record],
    call: &Syscall,
    done: &mut List<Act>,
) -> Result<(), NoMemory>
    ensures { OnOk result (done.new ≡ done.old ++ makes limit records.now call.now) }
{
    if is_ok(call) {
        make_each(alloc, limit, records, call, done)
    } else {
        Ok(())
    }
}

#[tactic(auto, using(crate::proofs::RecordLists::more_each))]
fn make_each(
    alloc: Global,
    limit: usize,
    records: &[Record],
    call: &Syscall,
    done: &mut List<Act>,
) -> Result<(), NoMemory>
    ensures { OnOk result (done.new ≡ done.old
        ++ flat_map (λ item. bears call.now (file_of limit records.now item))
        (paths Create records.now)) }
{
    let cwd = cwd(records);
    for record in records {
        if let Some(item) = path_of(record, NameKind::Create) {
            let file = file_in(alloc, limit, cwd, item)?;
            bear(call, file, done)?;
        }
    }
    Ok(())
}

/// A file is born, and made by the caller.
pub fn bear(call: &Syscall, file: FileRef, done: &mut List<Act>) -> Result<(), NoMemory>
    ensures { OnOk result (done.new ≡ done.old ++ bears call.now file) }
{
    done.push(Act::Birth {
        file: copy_file(&file)?,
    })?;
    done.push(outward(call, How::Make, Thing::File(file)))
}
