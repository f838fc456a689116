//! Texts by hand: the rows of the format, its traps, and one row for each family and kind of key.

use flow_base::{Bytes, Device, FileId, Key};
use name_text::{address_key, address_text, join_path, key_text, label};
use std::test::Fail;

#[test]
fn names_are_joined_with_the_directory_of_their_call(rt: HostRuntime) -> Result<(), Fail> {
    let alloc = rt.alloc();
    let rows = [
        (Some("/home/ann"), "notes.txt", "/home/ann/notes.txt"),
        (Some("/a/b"), "../../../c", "/c"),
        (None, "../x/./y", "../x/y"),
        (Some("/"), ".", "/"),
        (None, "a/..", "."),
        (Some("/a"), "/b//c/", "/b/c"),
        (Some("/a"), "", "/a"),
        (None, "", "."),
        (Some(""), "x", "/x"),
        (Some("a/b"), "../../../../c", "../../c"),
        (None, "../../a/../..", "../../.."),
        (None, "/..", "/"),
        (None, "..a/.b/...", "..a/.b/..."),
    ];
    for (cwd, name, joined) in rows.iter() {
        let cwd = match cwd {
            Some(cwd) => Some(cwd.as_bytes()),
            None => None,
        };
        let path = join_path(alloc, cwd, name.as_bytes(), 4_096)?;
        assert_eq!(rt; path.as_slice(), joined.as_bytes());
    }
    let cut = join_path(alloc, Some(b"/home".as_slice()), b"ann".as_slice(), 7)?;
    assert_eq!(rt; cut.as_slice(), b"/home/a".as_slice());
    Ok(())
}

#[test]
fn addresses_have_the_key_and_text_of_their_family(rt: HostRuntime) -> Result<(), Fail> {
    let alloc = rt.alloc();
    let rows = [
        // Family 2: the first 8 bytes, or all if there are fewer.
        (
            "020001BBC00002010000000000000000",
            "020001bbc0000201",
            "192.0.2.1:443",
        ),
        ("02000035C0000201", "02000035c0000201", "192.0.2.1:53"),
        ("020001BBC00002", "020001bbc00002", "family:020001bbc00002"),
        // Family 10: the first 24 bytes without the flow.
        (
            "0A000016DEADBEEF20010DB800000000000000000000000100000000",
            "0a0000160000000020010db8000000000000000000000001",
            "[2001:0db8:0000:0000:0000:0000:0000:0001]:22",
        ),
        (
            "0A000016DEADBEEF20010DB80000000000000000000000",
            "0a000016deadbeef20010db80000000000000000000000",
            "family:0a000016deadbeef20010db80000000000000000000000",
        ),
        // Family 1: a path up to its first zero, and an abstract name with all its zeros.
        ("01002F72756E2F7800FF00", "01002f72756e2f78", "unix:/run/x"),
        ("01002F72756E", "01002f72756e", "unix:/run"),
        ("01000061620000", "01000061620000", "unix:@ab\0\0"),
        // Other families, and what is too short to name a family.
        ("0000000000", "0000000000", "family:0000000000"),
        ("10000000AB", "10000000ab", "family:10000000ab"),
        ("0002AB", "0002ab", "family:0002ab"),
        ("01", "01", "family:01"),
    ];
    for (saddr, key, text) in rows.iter() {
        let found = address_key(alloc, hex::decode(alloc, saddr.as_bytes())?.as_slice())?;
        assert!(rt; found.is_some());
        if let Some(found) = found {
            assert_eq!(rt;
                found.as_slice(),
                hex::decode(alloc, key.as_bytes())?.as_slice()
            );
            assert_eq!(rt;
                address_text(alloc, found.as_slice())?.as_slice(),
                text.as_bytes()
            );
        }
    }
    assert!(rt; address_key(alloc, &[1, 0])?.is_none());
    assert!(rt; address_key(alloc, &[1, 0, 0, 0])?.is_none());
    assert_eq!(rt;
        address_text(alloc, &[1, 0])?.as_slice(),
        b"unix:@".as_slice()
    );
    Ok(())
}

#[test]
fn keys_are_told_by_their_kind(rt: HostRuntime) -> Result<(), Fail> {
    let alloc = rt.alloc();
    let root = Device { major: 8, minor: 1 };
    let disk = Device {
        major: 253,
        minor: 4096,
    };
    let path = Bytes::from_slice(alloc, b"/a b")?;
    let bytes = Bytes::from_slice(alloc, &[2, 0, 1, 187, 192, 0, 2, 1])?;
    let rows = [
        (Key::Process { pid: 100, life: 0 }, "process 100 0"),
        (
            Key::Inode {
                file: FileId {
                    device: root,
                    ino: 7,
                },
                born: 2,
            },
            "file 08:01 7 2",
        ),
        (
            Key::Inode {
                file: FileId {
                    device: disk,
                    ino: 131,
                },
                born: 0,
            },
            "file fd:1000 131 0",
        ),
        (Key::Path { path }, "path /a b"),
        (Key::Address { bytes }, "address 192.0.2.1:443"),
        (
            Key::Made {
                act: 18_446_744_073_709_551_615,
            },
            "made 18446744073709551615",
        ),
        (
            Key::Lost {
                pid: 100,
                life: 1,
                fd: 3,
            },
            "lost 100 1 3",
        ),
    ];
    for (key, text) in rows.iter() {
        assert_eq!(rt; key_text(alloc, key)?.as_slice(), text.as_bytes());
    }
    Ok(())
}

#[test]
fn labels_are_text_where_the_bytes_are_none(rt: HostRuntime) -> Result<(), Fail> {
    let alloc = rt.alloc();
    let rows = [
        (b"/home/ann".as_slice(), "/home/ann"),
        (b"caf\xC3\xA9".as_slice(), "caf\u{E9}"),
        (b"a\xFFb\xE2\x82".as_slice(), "a\u{FFFD}b\u{FFFD}"),
    ];
    for (bytes, text) in rows.iter() {
        assert_eq!(rt; label(alloc, bytes)?.as_str(), *text);
    }
    Ok(())
}
