//! Rows that may be the first batch of a store, and rows that may not.
use flow_base::{Bytes, Limits};
use reach_model::Mode;
use row_codec::read_payload;
use std::alloc::Global;
use std::test::Fail;
use store_check::StoreCheck;
use table_salt::Salt;

const ENTITY: &[u8] = b"\x01\x03\x02\0\0\0/a";

const EXTEND: &[u8] = b"\x03\0\0\0\0\0\0\0\0\0\0\0\0\0\0\0\0\0\0\0\0\0\0\0\0\x04\x07\0\0\0";

const NAME: &[u8] = b"\x04\x03\x02\0\0\0/a\x02\0\0\0/a";

const LIFE: &[u8] = b"\x05d\0\0\0\0\0\0\0\0\0\0\0\x01\x01\x01\0\0\0\0";

const ENDED: &[u8] = b"\x05d\0\0\0\0\0\0\0\0\0\0\0\0\0\0\0\0\0\0";

const HELD: &[u8] = b"\x06d\0\0\0\x03\0\0\0\0";

const ADDRESS: &[u8] = b"\x07\0\0\0\0\0\0\0\0\0\0\0\0";

const GROUP: &[u8] = b"\x09\xea\x03\0\0\0\0\0\0\x09\0\0\0\0\x01\0\0\0\x01\0\0\0a";

const NO_LINES: &[u8] = b"\x09\xea\x03\0\0\0\0\0\0\x09\0\0\0\0\0\0\0\0";

/// Whether these rows, and then the State before the first byte of a log, may be the first batch of
/// a store.
fn may_begin(alloc: Global, rows: &[&[u8]]) -> Result<bool, Fail> {
    let mut payload = Bytes::from_slice(alloc, b"ADLR\x01\x02")?;
    for row in rows {
        payload.append(row)?;
    }
    payload.append(b"\x0a")?;
    payload.append([0; 143].as_slice())?;
    let batch = read_payload(alloc, payload.as_slice())
        .ok()
        .ok_or("a payload")?;
    let check = StoreCheck::new(alloc, Salt::fixed(), &Limits::standard(), Mode::Continuous);
    Ok(check.take(batch.rows.as_slice())?.is_some())
}

#[test]
fn rows_that_meet_the_conditions_begin_a_store(rt: HostRuntime) -> Result<(), Fail> {
    for rows in [[].as_slice(), &[NAME, LIFE], &[LIFE, HELD], &[GROUP]] {
        assert!(rt; may_begin(rt.alloc(), rows)?);
    }
    Ok(())
}

#[test]
fn a_row_that_breaks_a_condition_begins_none(rt: HostRuntime) -> Result<(), Fail> {
    // Tags fall; a key that no Kept row names; an Extend row without its row; two lives of a pid; a
    // descriptor of a pid that ended; a group without lines; an act that isn't below the acts.
    for rows in [
        [LIFE, NAME].as_slice(),
        &[ENTITY],
        &[EXTEND],
        &[LIFE, LIFE],
        &[ENDED, HELD],
        &[NO_LINES],
        &[ADDRESS],
    ] {
        assert!(rt; !may_begin(rt.alloc(), rows)?);
    }
    Ok(())
}
