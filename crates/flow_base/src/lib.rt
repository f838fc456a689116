//! The types that every layer shares: lists and bytes with room that can be refused, objects, times, flows, and
//! the limits of a run.
//!
//! Contracts see a `List` as a list and `Bytes` as a list of numbers below 256, so the definitions of all layers
//! match on the code's own types, and no second type stands beside them.
#![tactic(auto)]

mod bytes;
mod faults;
mod limits;
mod list;
mod types;

pub use bytes::Bytes;
pub use faults::{NoMemory, Refused};
pub use limits::{Full, Limit, Limits};
pub use list::List;
pub use types::{
    Bad, Device, EntityId, FileId, Flow, How, Key, Stamp, equal_files_are_one, equal_keys_are_one,
};

#[cfg(test)]
mod tests {
    use super::*;
    use std::test::Fail;

    #[test]
    fn lists_and_bytes_hold_what_was_put_in(rt: HostRuntime) -> Result<(), Fail> {
        let alloc = rt.alloc();
        let mut list = List::new(alloc);
        list.push(EntityId(7))?;
        list.push(EntityId(9))?;
        assert_eq!(rt; list.as_slice(), [EntityId(7), EntityId(9)].as_slice());
        assert_eq!(rt; list.pop(), Some(EntityId(9)));
        let mut bytes = Bytes::from_slice(alloc, b"au".as_slice())?;
        bytes.append(b"dit".as_slice())?;
        assert_eq!(rt; bytes.copy()?.as_slice(), b"audit".as_slice());
        assert_eq!(rt; bytes.take().as_slice(), b"audit".as_slice());
        assert!(rt; bytes.as_slice().is_empty());
        bytes.append(b"log".as_slice())?;
        bytes.clear();
        assert!(rt; bytes.as_slice().is_empty());
        Ok(())
    }

    #[test]
    fn keys_are_ordered_by_kind_and_then_by_their_parts(rt: HostRuntime) -> Result<(), Fail> {
        let alloc = rt.alloc();
        let process = Key::Process { pid: 9, life: 0 };
        let later = Key::Process { pid: 9, life: 1 };
        let path = Key::Path {
            path: Bytes::from_slice(alloc, b"/a".as_slice())?,
        };
        assert!(rt; process < later);
        assert!(rt; later < path);
        assert!(rt; process != later);
        assert_eq!(rt; Limits::standard().line, 65_536);
        Ok(())
    }
}
