//! Payloads and rows of a store as bytes.
use flow_base::Bytes;
use reach_model::Mode;
use row_codec::{Payload, RowRead, StoreRow, read_kept, read_payload, read_row, write_row};
use std::alloc::Global;
use std::test::Fail;

/// The payload of the example of a store in docs/FORMATS.md.
const EXAMPLE: &[u8] = b"\
    ADLR\x01\x02\
    \x01\x01d\0\0\0\0\0\0\0\0\0\0\0\
    \x01\x03\x02\0\0\0/a\
    \x02\0\0\0\0\x01\0\0\0\xe8\x03\0\0\0\0\0\0\0\0\0\0\0\0\0\0\x04\x07\0\0\0\0\0\0\0\
    \0\0\0\0\0\0\0\0\0\0\0\0\
    \x03\0\0\0\0\0\0\0\0\xe9\x03\0\0\0\0\0\0\x01\0\0\0\0\0\0\0\x04\x08\0\0\0\
    \x04\x03\x02\0\0\0/a\x02\0\0\0/a\
    \x05d\0\0\0\0\0\0\0\0\0\0\0\x01\x01\x01\0\0\0\0\
    \x06d\0\0\0\x03\0\0\0\x01\0\x01\x03\x02\0\0\0/a\
    \x07\x02\0\0\0\0\0\0\0\x08\0\0\0\x02\0\0P\x7f\0\0\x01\
    \x08\x08\0\0\0\x01\0\0\0*\0\0\0\0\0\0\0\x01\0\0\0\0\0\0\0\
    \x09\xea\x03\0\0\0\0\0\0\x09\0\0\0\0\x01\0\0\0$\0\0\0type=CWD\x20msg=audit(1.002\
    :9):\x20cwd=\x22/\x22\
    \x0a\x90\x01\0\0\0\0\0\0\x90\x01\0\0\0\0\0\0\
    \x09\0\0\0\0\0\0\0\x08\0\0\0\0\0\0\0\0\0\0\0\0\0\0\0\0\0\0\0\0\0\0\0\x01\0\0\0\0\
    \0\0\0\
    \0\0\0\0\0\0\0\0\x02\0\0\0\0\0\0\0\0\0\0\0\0\0\0\0\0\0\0\0\0\0\0\0\
    \x02\0\0\0\0\0\0\0\x06\0\0\0\0\0\0\0\
    \x01\xea\x03\0\0\0\0\0\0\x01\xe9\x03\0\0\0\0\0\0\x08\0\0\0\xe9\x03\0\0\0\0\0\0\
    \0\x04\0\0\0type\x01\0\0\0\x03\0\0\0\0\0\0\0\x02";

fn example(alloc: Global) -> Result<Payload, Fail> {
    Ok(read_payload(alloc, EXAMPLE).ok().ok_or("a payload")?)
}

#[test]
fn the_example_has_eleven_rows_in_continuous_mode(rt: HostRuntime) -> Result<(), Fail> {
    let payload = example(rt.alloc())?;
    assert_eq!(rt; payload.mode, Mode::Continuous);
    assert_eq!(rt; payload.rows.as_slice().len(), 11);
    let Some(StoreRow::State(state)) = payload.rows.as_slice().last() else {
        return Err("not a State".into());
    };
    assert_eq!(rt; state.acts, 6);
    assert_eq!(rt; state.tail.as_slice(), b"type".as_slice());
    Ok(())
}

#[test]
fn a_header_has_the_magic_the_version_and_a_mode(rt: HostRuntime) -> Result<(), Fail> {
    assert!(rt; read_payload(rt.alloc(), b"ADLR\x01\x04").is_ok());
    for bytes in [
        b"ADLr\x01\x04".as_slice(),
        b"ADLR\x02\x04",
        b"ADLR\x01\x05",
        b"ADLR\x01",
    ] {
        assert!(rt; matches!(read_payload(rt.alloc(), bytes), Err(RowRead::Malformed)));
    }
    Ok(())
}

#[test]
fn the_state_of_the_empty_history_has_144_bytes(rt: HostRuntime) -> Result<(), Fail> {
    let mut bytes = [0; 145];
    bytes[0] = 10;
    let (row, length) = read_row(rt.alloc(), &bytes).ok().ok_or("a State")?;
    assert_eq!(rt; length, 144);
    let StoreRow::State(state) = &row else {
        return Err("not a State".into());
    };
    assert_eq!(rt; state.taken, 0);
    // One byte less spells no row, and a number after a flag 0 is 0.
    assert!(rt; matches!(read_row(rt.alloc(), &bytes[..143]), Err(RowRead::Malformed)));
    bytes[106] = 1;
    assert!(rt; matches!(read_row(rt.alloc(), &bytes), Err(RowRead::Malformed)));
    Ok(())
}

#[test]
fn a_kept_row_has_46_bytes(rt: HostRuntime) -> Result<(), Fail> {
    let mut bytes = [0; 46];
    bytes[0] = 2;
    bytes[1] = 7;
    bytes[25] = 4;
    bytes[30] = 3;
    let row = read_kept(&bytes).ok_or("a Kept row")?;
    assert_eq!(rt; row.from.0, 7);
    assert_eq!(rt; row.before_to, Some(2));
    assert_eq!(rt; row.before_from, None);
    let mut written = Bytes::new(rt.alloc());
    write_row(&StoreRow::Kept(row), &mut written)?;
    assert_eq!(rt; written.as_slice(), bytes.as_slice());
    Ok(())
}
