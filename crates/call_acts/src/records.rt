//! What the records of an event say beside its call.
//!
//! Of a working directory, an address, a pair and a mapping the first record counts. Records may come in any order: a
//! path that arrives before its call counts too.
ghost use Rattle.std.specs.Prelude.{◌≡◌, Option, None, Some, IfOk, option_map};
ghost use Rattle.std.specs.Option.{option_copied, option_to_list};
ghost use Rattle.call_acts.specs.Records.{first_of, call, cwd, address, sockaddr_in, pair, mapped, names_file, path_in, paths, target, file_in, file_of};

use acts::FileRef;
use audit_record::{Body, NameKind, PathItem, Record, Syscall};
use flow_base::{Bytes, NoMemory};
use name_text::{address_key, join_path};
use std::alloc::Global;

/// The call of an event.
pub fn call(records: &[Record]) -> Option<&Syscall>
    ensures { option_map (λ c. c.now) result ≡ call records.now }
{
    for record in records {
        if let Body::Syscall(call) = &record.body {
            return Some(call);
        }
    }
    None
}

/// The working directory of an event.
pub fn cwd(records: &[Record]) -> Option<&[u8]>
    ensures { option_map (λ c. c.now) result ≡ cwd records.now }
{
    for record in records {
        if let Body::Cwd(text) = &record.body {
            return match text {
                Some(text) => Some(text.as_slice()),
                None => None,
            };
        }
    }
    None
}

/// The address key of an event.
pub fn address(alloc: Global, records: &[Record]) -> Result<Option<Bytes>, NoMemory>
    ensures { IfOk result (λ made. made ≡ address records.now) }
{
    match sockaddr(records) {
        Some(bytes) => address_key(alloc, bytes),
        None => Ok(None),
    }
}

// The address of an event, as the kernel has its bytes.
fn sockaddr(records: &[Record]) -> Option<&[u8]>
    ensures { option_map (λ c. c.now) result ≡ first_of sockaddr_in records.now }
{
    for record in records {
        if let Body::Sockaddr(bytes) = &record.body {
            return Some(bytes.as_slice());
        }
    }
    None
}

/// The two descriptors of an event.
pub fn pair(records: &[Record]) -> Option<(u32, u32)>
    ensures { result ≡ pair records.now }
{
    for record in records {
        if let Body::FdPair { first, second } = record.body {
            return Some((first, second));
        }
    }
    None
}

/// The mapped descriptor of an event.
pub fn mapped(records: &[Record]) -> Option<u32>
    ensures { result ≡ mapped records.now }
{
    for record in records {
        if let Body::Mmap { fd } = record.body {
            return Some(fd);
        }
    }
    None
}

/// The path of a record, if it has this kind and names a file.
pub fn path_of(one: &Record, kind: NameKind) -> Option<&PathItem>
    ensures { option_to_list (option_map (λ p. p.now) result) ≡ path_in kind one.now.body }
{
    match &one.body {
        Body::Path(item) if item.kind == kind && names_file(item) => Some(item),
        _ => None,
    }
}

// Whether a path names a file: it has a file number or a name.
fn names_file(item: &PathItem) -> bool
    ensures { result ≡ names_file item.now }
{
    item.file.is_some() || item.name.is_some()
}

/// The path that the call was about: the last one of kind Create that names a file, else the last of kind Normal, else
/// the last of kind Unknown.
pub fn target(records: &[Record]) -> Option<&PathItem>
    ensures { option_map (λ p. p.now) result ≡ target records.now }
{
    let mut created = None;
    let mut normal = None;
    let mut unknown = None;
    for record in records {
        created = path_of(record, NameKind::Create).or(created);
        normal = path_of(record, NameKind::Normal).or(normal);
        unknown = path_of(record, NameKind::Unknown).or(unknown);
    }
    created.or(normal).or(unknown)
}

/// The file of a path of an event, in its working directory.
pub fn file_of(
    alloc: Global,
    limit: usize,
    records: &[Record],
    item: &PathItem,
) -> Result<FileRef, NoMemory>
    ensures { IfOk result (λ file. file ≡ file_of limit records.now item.now) }
{
    file_in(alloc, limit, cwd(records), item)
}

/// The file of a path: its number, and its name joined with the working directory.
pub fn file_in(
    alloc: Global,
    limit: usize,
    cwd: Option<&[u8]>,
    item: &PathItem,
) -> Result<FileRef, NoMemory>
    ensures { IfOk result (λ file. file ≡ file_in limit (option_copied cwd.entry) item.now) }
{
    let path = match &item.name {
        Some(name) => Some(join_path(alloc, cwd, name.as_slice(), limit)?),
        None => None,
    };
    Ok(FileRef {
        file: item.file,
        path,
    })
}

/// A second reference to the same file.
pub fn copy_file(file: &FileRef) -> Result<FileRef, NoMemory>
    ensures { IfOk result (λ made. made ≡ file.now) }
{
    let path = match &file.path {
        Some(path) => Some(path.copy()?),
        None => None,
    };
    Ok(FileRef {
        file: file.file,
        path,
    })
}
