//! Objects, times and flows.
//!
//! An object is what a flow can come from or go to: a life of a process, a file, a path, an address, a pipe or
//! socket, or a descriptor of which nothing is known. Its `Key` says which one it is, and its `EntityId` is its
//! number by first appearance in the flows, the source of a flow before its target.
ghost use Rattle.std.specs.Prelude.{◌≡◌, true};
ghost use Rattle.flow_base.specs.declared.types.Key.{Key};
ghost use Rattle.flow_base.specs.declared.types.FileId.{FileId};

use crate::bytes::Bytes;

/// When a flow was: its time in milliseconds since the epoch, and its place among the flows from 0 on. Stamps are
/// ordered by time and then by place; within one history this is the order of places, since times never fall along
/// places.
#[derive(Clone, Copy, Debug, PartialEq, Eq, PartialOrd, Ord)]
pub struct Stamp {
    pub ms: u64,
    pub place: u64,
}

/// The number of an object by first appearance.
#[derive(Clone, Copy, Debug, PartialEq, Eq, PartialOrd, Ord, Hash)]
pub struct EntityId(pub u32);

/// A device, by its two numbers.
#[derive(Clone, Copy, Debug, PartialEq, Eq, PartialOrd, Ord, Hash)]
pub struct Device {
    pub major: u32,
    pub minor: u32,
}

/// A file number: an inode on a device.
#[derive(Clone, Copy, Debug, PartialEq, Eq, PartialOrd, Ord, Hash)]
pub struct FileId {
    pub device: Device,
    pub ino: u64,
}

/// What an object is.
#[derive(PartialEq, Eq, PartialOrd, Ord, Hash, Drop)]
pub enum Key {
    /// A life of a process, the first one of its pid being 0.
    Process { pid: u32, life: u64 },
    /// A file with a file number, and how often that number was made before.
    Inode { file: FileId, born: u64 },
    /// A file of which only the path is known.
    Path { path: Bytes },
    /// A socket's address, as the kernel has its bytes.
    Address { bytes: Bytes },
    /// A pipe or a socket without an address, by the number of the act that made it.
    Made { act: u64 },
    /// A descriptor of a life of a process that wasn't seen to be opened.
    Lost { pid: u32, life: u64, fd: u32 },
}

/// How a flow came about.
#[derive(Clone, Copy, Debug, PartialEq, Eq, PartialOrd, Ord)]
pub enum How {
    Fork,
    Exec,
    Read,
    Write,
    Make,
    Alter,
}

/// A flow from one object to another, with its time and place and the serial number of its event.
#[derive(Clone, Copy, Debug, PartialEq, Eq)]
pub struct Flow {
    pub from: EntityId,
    pub to: EntityId,
    pub how: How,
    pub at: Stamp,
    pub serial: u32,
}

/// A malformed line, by its number from 1 on, and its fault, by the number that reports give it.
#[derive(Clone, Copy, Debug, PartialEq, Eq)]
pub struct Bad {
    pub line: u64,
    pub fault: u8,
}

/// Keys that compare equal are one key, so a map by keys tells objects apart exactly.
pub fn equal_keys_are_one()
    ensures exact { (a b : Key) → ⟦<Key as PartialEq>⟧.eq a b ≡ true → a ≡ b }
    ensures same { (a : Key) → ⟦<Key as PartialEq>⟧.eq a a ≡ true }
{}

/// File numbers that compare equal are one.
pub fn equal_files_are_one()
    ensures exact { (a b : FileId) → ⟦<FileId as PartialEq>⟧.eq a b ≡ true → a ≡ b }
    ensures same { (a : FileId) → ⟦<FileId as PartialEq>⟧.eq a a ≡ true }
{}
