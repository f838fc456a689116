//! Lines in, records out. The wanted records are worked out by hand from the format of audit records.

use audit_lex::{EventKey, LastStamp, Lexed, lex};
use audit_record::{Body, NameKind, PathItem, Read, Record, Syscall, read_line, read_record};
use flow_base::{Bytes, Device, FileId, NoMemory};
use std::alloc::Global;
use std::test::Fail;

/// The record of a line, if the line is a used one.
fn record_of(alloc: Global, line: &[u8]) -> Result<Option<Record>, NoMemory> {
    match lex(line, 65_536) {
        Lexed::Used(used) => {
            let record = read_record(alloc, &used)?;
            Ok(Some(record))
        }
        _ => Ok(None),
    }
}

/// The key of all lines here.
fn key() -> EventKey {
    EventKey {
        ms: 1_364_481_363_243,
        serial: 24_287,
    }
}

/// A record of this body, with the text of its line.
fn wanted(alloc: Global, line: &[u8], body: Body) -> Result<Record, NoMemory> {
    Ok(Record {
        key: key(),
        line: Bytes::from_slice(alloc, line)?,
        body,
    })
}

/// Whether the line spells this body.
fn spells(alloc: Global, line: &[u8], body: Body) -> Result<bool, NoMemory> {
    let record = record_of(alloc, line)?;
    let wanted = wanted(alloc, line, body)?;
    Ok(record == Some(wanted))
}

/// A record that was read before, with texts of its own.
fn earlier(alloc: Global) -> Result<Record, NoMemory> {
    Ok(Record {
        key: EventKey { ms: 1, serial: 1 },
        line: Bytes::from_slice(alloc, b"an earlier line".as_slice())?,
        body: Body::Path(PathItem {
            item: 1,
            name: text(alloc, b"/earlier".as_slice())?,
            file: Some(FileId {
                device: Device { major: 8, minor: 1 },
                ino: 1,
            }),
            kind: NameKind::Create,
        }),
    })
}

/// What a line of at most 200 bytes gives.
fn given(alloc: Global, line: &[u8]) -> Result<Read, NoMemory> {
    let mut item = earlier(alloc)?;
    read_line(alloc, line, 200, &mut LastStamp::none(), &mut item)
}

/// Whether a line gives a record of this body, over an earlier one and over a record of its own kind. The second time its
/// stamp is the one that was read last.
fn gives(alloc: Global, line: &[u8], body: Body) -> Result<bool, NoMemory> {
    let mut item = earlier(alloc)?;
    let mut last = LastStamp::none();
    let wanted = wanted(alloc, line, body)?;
    for _ in 0..2 {
        if read_line(alloc, line, 200, &mut last, &mut item)? != Read::Record || item != wanted {
            return Ok(false);
        }
    }
    Ok(true)
}

fn text(alloc: Global, bytes: &[u8]) -> Result<Option<Bytes>, NoMemory> {
    let text = Bytes::from_slice(alloc, bytes)?;
    Ok(Some(text))
}

#[test]
fn calls_are_read(rt: HostRuntime) -> Result<(), Fail> {
    let alloc = rt.alloc();
    let fork = Syscall {
        arch: 0xc000_003e,
        number: 57,
        success: Some(true),
        exit: Some(101),
        a0: 0,
        a1: 255,
        a2: 32_765,
        a3: 0,
        ppid: 1,
        pid: 100,
        exe: text(alloc, b"/bin/a b".as_slice())?,
    };
    // The node isn't kept, nor what stands after the byte 0x1D.
    let line =
        b"node=web1 type=SYSCALL msg=audit(1364481363.243:24287): arch=c000003e syscall=57 success=yes exit=101 a0=0 a1=ff a2=7FFD a3=0 items=0 ppid=1 pid=100 exe=\"/bin/a b\" key=(null)\x1dARCH=x86_64 pid=9".as_slice();
    assert!(rt; spells(alloc, line, Body::Syscall(fork))?);
    let refused = Syscall {
        arch: 0xc000_003e,
        number: 42,
        success: Some(false),
        exit: Some(-115),
        a0: 3,
        a1: 0x7ffe_1234_5678,
        a2: 16,
        a3: 0xffff_ffff_ffff_ffff,
        ppid: 4_294_967_295,
        pid: 7,
        exe: text(alloc, b"/bin/x (deleted)".as_slice())?,
    };
    let line =
        b"type=SYSCALL msg=audit(1364481363.243:24287): arch=C000003E syscall=42 success=no exit=-115 a0=3 a1=7ffe12345678 a2=10 a3=ffffffffffffffff ppid=4294967295 pid=7 exe=2F62696E2F78202864656c6574656429".as_slice();
    assert!(rt; spells(alloc, line, Body::Syscall(refused))?);
    let ended = Syscall {
        arch: 0xc000_003e,
        number: 231,
        success: None,
        exit: None,
        a0: 1,
        a1: 0,
        a2: 0,
        a3: 0,
        ppid: 7,
        pid: 8,
        exe: None,
    };
    let line =
        b"type=SYSCALL msg=audit(1364481363.243:24287): arch=c000003e syscall=231 a0=1 a1=0 a2=0 a3=0 ppid=7 pid=8 comm=\"sh\" exe=(null)".as_slice();
    assert!(rt; spells(alloc, line, Body::Syscall(ended))?);
    Ok(())
}

#[test]
fn paths_are_read(rt: HostRuntime) -> Result<(), Fail> {
    let alloc = rt.alloc();
    let made = PathItem {
        item: 0,
        name: text(alloc, b"/tmp".as_slice())?,
        file: Some(FileId {
            device: Device {
                major: 0xfd,
                minor: 1,
            },
            ino: 409_248,
        }),
        kind: NameKind::Create,
    };
    let line =
        b"type=PATH msg=audit(1364481363.243:24287) : item=0 name=2F746D70 inode=409248 dev=fd:01 mode=0100600 nametype=CREATE objtype=NORMAL".as_slice();
    assert!(rt; spells(alloc, line, Body::Path(made))?);
    // An inode without a device is no file; without `nametype`, `objtype` counts.
    let parent = PathItem {
        item: 1,
        name: None,
        file: None,
        kind: NameKind::Parent,
    };
    let line =
        b"type=PATH msg=audit(1364481363.243:24287): item=1 name=(null) inode=2 objtype=PARENT".as_slice();
    assert!(rt; spells(alloc, line, Body::Path(parent))?);
    // A text of no bytes is there, and a path of which nothing is said is a normal one.
    let normal = PathItem {
        item: 2,
        name: text(alloc, b"".as_slice())?,
        file: None,
        kind: NameKind::Normal,
    };
    let line = b"type=PATH msg=audit(1364481363.243:24287): item=2 name=\"\" dev=fd:00".as_slice();
    assert!(rt; spells(alloc, line, Body::Path(normal))?);
    let deleted = PathItem {
        item: 3,
        name: text(alloc, b"a b".as_slice())?,
        file: None,
        kind: NameKind::Delete,
    };
    let line =
        b"type=PATH msg=audit(1364481363.243:24287): item=3 name=\"a b\" nametype=DELETE".as_slice();
    assert!(rt; spells(alloc, line, Body::Path(deleted))?);
    let unknown = PathItem {
        item: 4,
        name: text(alloc, b"x".as_slice())?,
        file: None,
        kind: NameKind::Unknown,
    };
    let line =
        b"type=PATH msg=audit(1364481363.243:24287): item=4 name=\"x\" nametype=UNKNOWN objtype=NORMAL".as_slice();
    assert!(rt; spells(alloc, line, Body::Path(unknown))?);
    Ok(())
}

#[test]
fn other_kinds_are_read(rt: HostRuntime) -> Result<(), Fail> {
    let alloc = rt.alloc();
    let address = Bytes::from_slice(alloc, &[2, 0, 0, 80, 192, 168, 0, 1])?;
    let table = [
        (
            b"type=CWD msg=audit(1364481363.243:24287):  cwd=\"/a\" cwd=\"/b\"".as_slice(),
            Body::Cwd(text(alloc, b"/a".as_slice())?),
        ),
        (
            b"type=CWD msg=audit(1364481363.243:24287): cwd=(null)".as_slice(),
            Body::Cwd(None),
        ),
        (
            b"type=CWD msg=audit(1364481363.243:24287): cwd=\"\"".as_slice(),
            Body::Cwd(text(alloc, b"".as_slice())?),
        ),
        (
            b"type=SOCKADDR msg=audit(1364481363.243:24287): saddr=02000050C0a80001".as_slice(),
            Body::Sockaddr(address),
        ),
        (
            b"type=FD_PAIR msg=audit(1364481363.243:24287): fd0=3 fd1=4294967295".as_slice(),
            Body::FdPair {
                first: 3,
                second: 4_294_967_295,
            },
        ),
        (
            b"type=MMAP msg=audit(1364481363.243:24287): fd=5 flags=0x2".as_slice(),
            Body::Mmap { fd: 5 },
        ),
        // A handle's low 32 bits count.
        (
            b"type=MMAP msg=audit(1364481363.243:24287): fd=-1 flags=0x22".as_slice(),
            Body::Mmap { fd: 4_294_967_295 },
        ),
        (
            b"type=PROCTITLE msg=audit(1364481363.243:24287): proctitle=7368".as_slice(),
            Body::Proctitle,
        ),
        (
            b"type=EOE msg=audit(1364481363.243:24287):".as_slice(),
            Body::Eoe,
        ),
    ];
    for (line, body) in table {
        assert!(rt; spells(alloc, line, body)?);
    }
    // Lines of other kinds and faulty ones spell nothing.
    for line in [
        b"type=EXECVE msg=audit(1364481363.243:24287): argc=1 a0=\"sh\"".as_slice(),
        b"type=CWD msg=audit(1364481363.243:24287): cwd=2F2".as_slice(),
    ] {
        assert!(rt; record_of(alloc, line)?.is_none());
    }
    Ok(())
}

#[test]
fn a_line_is_read_into_the_memory_of_an_earlier_one(rt: HostRuntime) -> Result<(), Fail> {
    let alloc = rt.alloc();
    let call = Syscall {
        arch: 0xc000_003e,
        number: 59,
        success: Some(true),
        exit: Some(0),
        a0: 1,
        a1: 2,
        a2: 3,
        a3: 4,
        ppid: 1,
        pid: 100,
        exe: text(alloc, b"/bin/a".as_slice())?,
    };
    let path = PathItem {
        item: 0,
        name: text(alloc, b"/a/longer/name".as_slice())?,
        file: None,
        kind: NameKind::Normal,
    };
    let table = [
        (
            b"type=SYSCALL msg=audit(1364481363.243:24287): arch=c000003e syscall=59 success=yes exit=0 a0=1 a1=2 a2=3 a3=4 ppid=1 pid=100 exe=\"/bin/a\"".as_slice(),
            Body::Syscall(call),
        ),
        (
            b"type=PATH msg=audit(1364481363.243:24287): item=0 name=\"/a/longer/name\"".as_slice(),
            Body::Path(path),
        ),
        (
            b"type=CWD msg=audit(1364481363.243:24287): cwd=2F61".as_slice(),
            Body::Cwd(text(alloc, b"/a".as_slice())?),
        ),
        (
            b"type=CWD msg=audit(1364481363.243:24287): cwd=\"\"".as_slice(),
            Body::Cwd(text(alloc, b"".as_slice())?),
        ),
        (
            b"type=MMAP msg=audit(1364481363.243:24287): fd=5 flags=0x2".as_slice(),
            Body::Mmap { fd: 5 },
        ),
    ];
    for (line, body) in table {
        assert!(rt; gives(alloc, line, body)?);
    }
    Ok(())
}

#[test]
fn an_end_gives_its_key_and_an_unused_line_nothing(rt: HostRuntime) -> Result<(), Fail> {
    let alloc = rt.alloc();
    for line in [
        b"type=EOE msg=audit(1364481363.243:24287):".as_slice(),
        b"type=PROCTITLE msg=audit(1364481363.243:24287): proctitle=7368".as_slice(),
    ] {
        assert_eq!(rt; given(alloc, line)?, Read::End(key()));
    }
    for line in [
        b"".as_slice(),
        b"type=EXECVE msg=audit(1364481363.243:24287): argc=1 a0=\"sh\"".as_slice(),
        // A faulty text, a text without its end, a path without a name.
        b"type=CWD msg=audit(1364481363.243:24287): cwd=2F2".as_slice(),
        b"type=CWD msg=audit(1364481363.243:24287): cwd=\"/a".as_slice(),
        b"type=PATH msg=audit(1364481363.243:24287): item=0".as_slice(),
        [b'a'; 201].as_slice(),
    ] {
        assert_eq!(rt; given(alloc, line)?, Read::Unused);
    }
    Ok(())
}
