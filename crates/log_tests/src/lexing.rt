//! Lines of each class and with each fault. What is expected was worked out by hand from the format.
use audit_lex::{
    Field, Kind, LastStamp, Lexed, LineCut, LineFault, Slots, Tally, UsedLine, dec32, dec64,
    device, handle, hex32, hex64, lex, quoted, scan, signed, yesno,
};
use flow_base::{Bad, Bytes, NoMemory};
use std::alloc::Global;
use std::test::Fail;

// The class of a line, without what was read.
#[derive(Clone, Copy, Debug, PartialEq, Eq)]
enum Verdict {
    Used,
    Other,
    Blank,
    Bad(LineFault),
}

fn class(line: &[u8]) -> Verdict {
    match lex(line, 65_536) {
        Lexed::Used(_) => Verdict::Used,
        Lexed::Other => Verdict::Other,
        Lexed::Blank => Verdict::Blank,
        Lexed::Malformed(fault) => Verdict::Bad(fault),
    }
}

// The class of a line of this type with these fields.
fn class_of_fields(alloc: Global, name: &[u8], fields: &[u8]) -> Result<Verdict, NoMemory> {
    let mut line = Bytes::from_slice(alloc, b"type=".as_slice())?;
    line.append(name)?;
    line.append(b" msg=audit(1.000:1): ".as_slice())?;
    line.append(fields)?;
    Ok(class(line.as_slice()))
}

#[test]
fn blank_lines_have_spaces_tabs_and_carriage_returns_alone(rt: HostRuntime) {
    for (line, want) in [
        (b"".as_slice(), Verdict::Blank),
        (b" \t\r".as_slice(), Verdict::Blank),
        (b"\x0b".as_slice(), Verdict::Bad(LineFault::Header)),
        (b"\0".as_slice(), Verdict::Bad(LineFault::Header)),
        (b" x".as_slice(), Verdict::Bad(LineFault::Header)),
    ] {
        assert_eq!(rt; class(line), want);
    }
}

#[test]
fn headers_are_read_to_the_byte(rt: HostRuntime) {
    let bad = Verdict::Bad(LineFault::Header);
    for (line, want) in [
        (b"type=EOE msg=audit(1.000:1):".as_slice(), Verdict::Used),
        (b"type=EOE msg=audit(1.000:1): ".as_slice(), Verdict::Used),
        (b"type=EOE msg=audit(1.000:1) :".as_slice(), Verdict::Used),
        (b"type=EOE msg=audit(1.000:1)  :".as_slice(), bad),
        (
            b"type=EOE msg=audit(1.000:1):\x1dx".as_slice(),
            Verdict::Used,
        ),
        (b"type=EOE msg=audit(1.000:1):x".as_slice(), bad),
        (b"type=EOE msg=audit(1.000:1):\t".as_slice(), bad),
        (b"type=EOE msg=audit(1.000:1):\r".as_slice(), bad),
        (b"type=EOE msg=audit(1.000:1)".as_slice(), bad),
        (b" type=EOE msg=audit(1.000:1):".as_slice(), bad),
        (b"type=EOE  msg=audit(1.000:1):".as_slice(), bad),
        (b"type= msg=audit(1.000:1):".as_slice(), bad),
        (b"type=eoe msg=audit(1.000:1):".as_slice(), bad),
        (b"type=MMAPX msg=audit(1.000:1):".as_slice(), Verdict::Other),
        (
            b"type=UNKNOWN[1334] msg=audit(1.000:1):".as_slice(),
            Verdict::Other,
        ),
        (
            b"node=web1 type=EOE msg=audit(1.000:1):".as_slice(),
            Verdict::Used,
        ),
        (
            b"node=\"web1\" type=EOE msg=audit(1.000:1):".as_slice(),
            Verdict::Used,
        ),
        (
            b"node=\"web 1\" type=EOE msg=audit(1.000:1):".as_slice(),
            bad,
        ),
        (b"node= type=EOE msg=audit(1.000:1):".as_slice(), bad),
        (
            b"node=a node=b type=EOE msg=audit(1.000:1):".as_slice(),
            bad,
        ),
    ] {
        assert_eq!(rt; class(line), want);
    }
}

#[test]
fn stamps_have_one_to_fifteen_three_and_one_to_ten_digits(rt: HostRuntime) {
    for (line, want) in [
        (b"type=EOE msg=audit(0.000:0):".as_slice(), Some((0, 0))),
        (
            b"type=EOE msg=audit(1364481363.243:24287):".as_slice(),
            Some((1_364_481_363_243, 24_287)),
        ),
        (
            b"type=EOE msg=audit(999999999999999.999:4294967295):".as_slice(),
            Some((999_999_999_999_999_999, 4_294_967_295)),
        ),
        (
            b"type=EOE msg=audit(1.000:0000000001):".as_slice(),
            Some((1_000, 1)),
        ),
        (b"type=EOE msg=audit(1.000:4294967296):".as_slice(), None),
        (b"type=EOE msg=audit(1.000:00000000001):".as_slice(), None),
        (
            b"type=EOE msg=audit(0000000000000001.000:1):".as_slice(),
            None,
        ),
        (b"type=EOE msg=audit(1.00:1):".as_slice(), None),
        (b"type=EOE msg=audit(1.0000:1):".as_slice(), None),
        (b"type=EOE msg=audit(.000:1):".as_slice(), None),
        (b"type=EOE msg=audit(1.000:):".as_slice(), None),
        (b"type=EOE msg=audit(-1.000:1):".as_slice(), None),
        (b"type=EOE msg=audit(a.000:1):".as_slice(), None),
    ] {
        let key = match lex(line, 100) {
            Lexed::Used(used) => Some((used.key.ms, used.key.serial)),
            _ => None,
        };
        assert_eq!(rt; key, want);
    }
}

#[test]
fn texts_are_quoted_or_in_hex_or_absent(rt: HostRuntime) -> Result<(), Fail> {
    let bad = Verdict::Bad(LineFault::Text(Field::Cwd));
    let missing = Verdict::Bad(LineFault::Missing(Field::Cwd));
    for (fields, want) in [
        (b"cwd=\"/a b\"".as_slice(), Verdict::Used),
        (b"cwd=\"\"".as_slice(), Verdict::Used),
        (b"cwd=\"/a\tb\0\"".as_slice(), Verdict::Used),
        (b"cwd=(null)".as_slice(), Verdict::Used),
        (b"cwd=2F".as_slice(), Verdict::Used),
        (b"cwd=2f6A".as_slice(), Verdict::Used),
        (b"cwd=2F6".as_slice(), bad),
        (b"cwd=2G".as_slice(), bad),
        (b"cwd=".as_slice(), bad),
        (b"cwd= \"/a\"".as_slice(), bad),
        (b"cwd=/a".as_slice(), bad),
        (b"cwd=\"".as_slice(), bad),
        (b"cwd=\"/a".as_slice(), bad),
        (b"cwd=\"/a\"b".as_slice(), bad),
        (b"cwd=\"/a\"\r".as_slice(), bad),
        (b"cwd=(null)x".as_slice(), bad),
        // what stands after the byte 0x1D isn't read, also within quotes
        (b"cwd=\"/a\"\x1dcwd=x".as_slice(), Verdict::Used),
        (b"cwd=\"/a\x1d\"".as_slice(), bad),
        (b"\x1dcwd=\"/a\"".as_slice(), missing),
        (b"".as_slice(), missing),
        (b"\tcwd=\"/a\"".as_slice(), missing),
        (b"CWD=\"/a\"".as_slice(), missing),
        (b"x=\"a cwd=2F".as_slice(), missing),
        // the first token of the name counts
        (b"cwd=x cwd=\"/a\"".as_slice(), bad),
        (b"cwd=\"/a\" cwd=x".as_slice(), Verdict::Used),
        (b"x=\"cwd=y\" cwd=\"/a\"".as_slice(), Verdict::Used),
        (
            b"abc def=\"x y\"  a=b=c =d cwd=\"/a\" e".as_slice(),
            Verdict::Used,
        ),
    ] {
        assert_eq!(rt;
            class_of_fields(rt.alloc(), b"CWD".as_slice(), fields)?,
            want
        );
    }
    Ok(())
}

#[test]
fn bytes_are_in_hex(rt: HostRuntime) -> Result<(), Fail> {
    let bad = Verdict::Bad(LineFault::Text(Field::Saddr));
    for (fields, want) in [
        (b"saddr=02".as_slice(), Verdict::Used),
        (b"saddr=0200aF".as_slice(), Verdict::Used),
        (b"saddr=020".as_slice(), bad),
        (b"saddr=".as_slice(), bad),
        (b"saddr=\"02\"".as_slice(), bad),
        (b"saddr=(null)".as_slice(), bad),
        (
            b"".as_slice(),
            Verdict::Bad(LineFault::Missing(Field::Saddr)),
        ),
    ] {
        assert_eq!(rt;
            class_of_fields(rt.alloc(), b"SOCKADDR".as_slice(), fields)?,
            want
        );
    }
    Ok(())
}

#[test]
fn descriptors_have_thirty_two_bits(rt: HostRuntime) -> Result<(), Fail> {
    let first = Verdict::Bad(LineFault::Number(Field::Fd0));
    let second = Verdict::Bad(LineFault::Number(Field::Fd1));
    for (fields, want) in [
        (b"fd0=0 fd1=4294967295".as_slice(), Verdict::Used),
        (b"fd1=1 fd0=0000000003".as_slice(), Verdict::Used),
        (b"fd0=3 fd1=4294967296".as_slice(), second),
        (b"fd0=00000000003 fd1=4".as_slice(), first),
        (b"fd0=-1 fd1=4".as_slice(), first),
        (b"fd0=+1 fd1=4".as_slice(), first),
        (b"fd0= fd1=4".as_slice(), first),
        (b"fd0=a fd1=4".as_slice(), first),
        (b"fd0=\"3\" fd1=4".as_slice(), first),
        (b"fd0=3 fd1=4\r".as_slice(), second),
        // the first fault in the table's order
        (b"fd1=x fd0=x".as_slice(), first),
        (
            b"fd1=x".as_slice(),
            Verdict::Bad(LineFault::Missing(Field::Fd0)),
        ),
        (
            b"fd0=3".as_slice(),
            Verdict::Bad(LineFault::Missing(Field::Fd1)),
        ),
    ] {
        assert_eq!(rt;
            class_of_fields(rt.alloc(), b"FD_PAIR".as_slice(), fields)?,
            want
        );
    }
    Ok(())
}

#[test]
fn handles_have_sixty_four_signed_bits(rt: HostRuntime) -> Result<(), Fail> {
    let bad = Verdict::Bad(LineFault::Number(Field::Fd));
    for (fields, want) in [
        (b"fd=3 flags=0x2".as_slice(), Verdict::Used),
        (b"fd=-1".as_slice(), Verdict::Used),
        (b"fd=-0".as_slice(), Verdict::Used),
        (b"fd=9223372036854775807".as_slice(), Verdict::Used),
        (b"fd=9223372036854775808".as_slice(), bad),
        (b"fd=-9223372036854775808".as_slice(), Verdict::Used),
        (b"fd=-9223372036854775809".as_slice(), bad),
        (b"fd=00000000000000000003".as_slice(), bad),
        (b"fd=-".as_slice(), bad),
        (b"fd=--1".as_slice(), bad),
        (b"fd=0x3".as_slice(), bad),
        (b"".as_slice(), Verdict::Bad(LineFault::Missing(Field::Fd))),
    ] {
        assert_eq!(rt;
            class_of_fields(rt.alloc(), b"MMAP".as_slice(), fields)?,
            want
        );
    }
    Ok(())
}

#[test]
fn paths_have_an_item_and_a_name(rt: HostRuntime) -> Result<(), Fail> {
    for (fields, want) in [
        (
            b"item=0 name=\"/a\" inode=18446744073709551615 dev=ffffffff:0 nametype=NORMAL".as_slice(),
            Verdict::Used,
        ),
        (
            b"item=0 name=(null) nametype=x objtype=".as_slice(),
            Verdict::Used,
        ),
        (
            b"item=1 name=2F7 nametype=NORMAL".as_slice(),
            Verdict::Bad(LineFault::Text(Field::Name)),
        ),
        (
            b"item=0 name=\"/f7 inode=7 dev=08:01 nametype=NORMAL".as_slice(),
            Verdict::Bad(LineFault::Text(Field::Name)),
        ),
        (
            b"item=x name=2F7".as_slice(),
            Verdict::Bad(LineFault::Number(Field::Item)),
        ),
        (
            b"name=\"/a\"".as_slice(),
            Verdict::Bad(LineFault::Missing(Field::Item)),
        ),
        (
            b"item=0".as_slice(),
            Verdict::Bad(LineFault::Missing(Field::Name)),
        ),
        (
            b"item=0 name=\"/a\" inode=18446744073709551616".as_slice(),
            Verdict::Bad(LineFault::Number(Field::Inode)),
        ),
        (
            b"item=0 name=\"/a\" dev=100000000:0".as_slice(),
            Verdict::Bad(LineFault::Number(Field::Dev)),
        ),
        (
            b"item=0 name=\"/a\" dev=fd".as_slice(),
            Verdict::Bad(LineFault::Number(Field::Dev)),
        ),
        (
            b"item=0 name=\"/a\" dev=fd:".as_slice(),
            Verdict::Bad(LineFault::Number(Field::Dev)),
        ),
        (
            b"item=0 name=\"/a\" dev=fd:00:1".as_slice(),
            Verdict::Bad(LineFault::Number(Field::Dev)),
        ),
    ] {
        assert_eq!(rt;
            class_of_fields(rt.alloc(), b"PATH".as_slice(), fields)?,
            want
        );
    }
    Ok(())
}

#[test]
fn system_calls_have_their_numbers(rt: HostRuntime) -> Result<(), Fail> {
    for (fields, want) in [
        (
            b"arch=FFFFFFFF syscall=4294967295 a0=ffffffffffffffff a1=0 a2=0 a3=0 ppid=1 pid=2".as_slice(),
            Verdict::Used,
        ),
        (
            b"arch=1 syscall=1 success=no exit=-13 a0=0 a1=0 a2=0 a3=0 ppid=1 pid=2 exe=(null)".as_slice(),
            Verdict::Used,
        ),
        (
            b"arch=100000000 syscall=1 a0=0 a1=0 a2=0 a3=0 ppid=1 pid=2".as_slice(),
            Verdict::Bad(LineFault::Number(Field::Arch)),
        ),
        (
            b"arch=1 syscall=0x1 a0=0 a1=0 a2=0 a3=0 ppid=1 pid=2".as_slice(),
            Verdict::Bad(LineFault::Number(Field::Syscall)),
        ),
        (
            b"arch=1 syscall=1 success=Yes a0=0 a1=0 a2=0 a3=0 ppid=1 pid=2".as_slice(),
            Verdict::Bad(LineFault::Text(Field::Success)),
        ),
        (
            b"arch=1 syscall=1 exit=x a0=0 a1=0 a2=0 a3=0 ppid=1 pid=2".as_slice(),
            Verdict::Bad(LineFault::Number(Field::Exit)),
        ),
        (
            b"arch=1 syscall=1 a0=00000000000000000 a1=0 a2=0 a3=0 ppid=1 pid=2".as_slice(),
            Verdict::Bad(LineFault::Number(Field::A0)),
        ),
        (
            b"arch=1 syscall=1 a0=0 a1=- a2=0 a3=0 ppid=1 pid=2".as_slice(),
            Verdict::Bad(LineFault::Number(Field::A1)),
        ),
        (
            b"arch=1 syscall=1 a0=0 a1=0 a3=0 ppid=1 pid=2".as_slice(),
            Verdict::Bad(LineFault::Missing(Field::A2)),
        ),
        (
            b"arch=1 syscall=1 a0=0 a1=0 a2=0 ppid=1 pid=2".as_slice(),
            Verdict::Bad(LineFault::Missing(Field::A3)),
        ),
        (
            b"arch=1 syscall=1 a0=0 a1=0 a2=0 a3=0 ppid=4294967296 pid=2".as_slice(),
            Verdict::Bad(LineFault::Number(Field::Ppid)),
        ),
        (
            b"arch=1 syscall=1 a0=0 a1=0 a2=0 a3=0 ppid=1".as_slice(),
            Verdict::Bad(LineFault::Missing(Field::Pid)),
        ),
        (
            b"arch=1 syscall=1 a0=0 a1=0 a2=0 a3=0 ppid=1 pid=2 exe=/p".as_slice(),
            Verdict::Bad(LineFault::Text(Field::Exe)),
        ),
        // the first fault in the table's order, not in the line's
        (
            b"exe=/p pid=2 ppid=x a3=0 a2=0 a1=0 a0=0 syscall=1 arch=1".as_slice(),
            Verdict::Bad(LineFault::Number(Field::Ppid)),
        ),
    ] {
        assert_eq!(rt;
            class_of_fields(rt.alloc(), b"SYSCALL".as_slice(), fields)?,
            want
        );
    }
    Ok(())
}

#[test]
fn titles_and_ends_have_no_fields(rt: HostRuntime) -> Result<(), Fail> {
    for name in [b"PROCTITLE".as_slice(), b"EOE".as_slice()] {
        assert_eq!(rt;
            class_of_fields(rt.alloc(), name, b"proctitle=x fd0=y".as_slice())?,
            Verdict::Used
        );
    }
    Ok(())
}

#[test]
fn the_readers_give_the_numbers_that_are_spelled(rt: HostRuntime) {
    assert_eq!(rt; dec32(b"0042".as_slice()), Some(42));
    assert_eq!(rt;
        dec64(b"18446744073709551615".as_slice()),
        Some(18_446_744_073_709_551_615)
    );
    assert_eq!(rt; hex32(b"C000003e".as_slice()), Some(3_221_225_534));
    assert_eq!(rt;
        hex64(b"7fffd19c5592".as_slice()),
        Some(140_736_710_071_698)
    );
    assert_eq!(rt; signed(b"-13".as_slice()), Some(-13));
    assert_eq!(rt; signed(b"13".as_slice()), Some(13));
    assert_eq!(rt; handle(b"-1".as_slice()), Some(4_294_967_295));
    assert_eq!(rt; handle(b"4294967299".as_slice()), Some(3));
    assert_eq!(rt; yesno(b"yes".as_slice()), Some(true));
    assert_eq!(rt; yesno(b"no".as_slice()), Some(false));
    match device(b"fd:0A".as_slice()) {
        Some(device) => assert!(rt; device.major == 253 && device.minor == 10),
        None => assert!(rt; false),
    }
    assert_eq!(rt; quoted(b"\"/a b\"".as_slice()), Some(b"/a b".as_slice()));
}

// Counts a line, which may have a hundred bytes; three malformed lines are listed.
fn count_line(tally: &mut Tally, number: u64, line: &[u8]) -> Result<(), NoMemory> {
    let most = tally
        .used
        .max(tally.other)
        .max(tally.blank)
        .max(tally.malformed);
    if most > 99 {
        return Ok(());
    }
    tally.count(number, &lex(line, 100), 3)
}

#[test]
fn each_line_is_counted_and_the_first_faults_are_listed(rt: HostRuntime) -> Result<(), Fail> {
    let mut tally = Tally::new(rt.alloc());
    for (number, line) in [
        (1, b"type=EOE msg=audit(1.000:1):".as_slice()),
        (2, b" ".as_slice()),
        (3, b"x".as_slice()),
        (4, b"type=CWD msg=audit(1.000:1): ".as_slice()),
        (5, b"type=USER_MSG msg=audit(1.000:1): ".as_slice()),
        (6, b"type=MMAP msg=audit(1.000:1): fd=x".as_slice()),
        (7, b"type=CWD msg=audit(1.000:1): cwd=2F7".as_slice()),
        (8, b"type=PROCTITLE msg=audit(1.000:1): ".as_slice()),
    ] {
        count_line(&mut tally, number, line)?;
    }
    assert!(rt; tally.used == 2 && tally.other == 1 && tally.blank == 1 && tally.malformed == 4);
    let want = [
        Bad { line: 3, fault: 2 },
        Bad { line: 4, fault: 3 },
        Bad { line: 6, fault: 4 },
    ];
    assert_eq!(rt; tally.bad.as_slice(), want.as_slice());
    Ok(())
}

// A line of this length, which isn't read for its type.
fn put_message(log: &mut Bytes, length: usize) -> Result<(), NoMemory> {
    let front = b"type=USER_MSG msg=audit(1.000:1): ".as_slice();
    log.append(front)?;
    for _ in front.len()..length {
        log.append(b"x".as_slice())?;
    }
    log.append(b"\n".as_slice())
}

#[test]
fn the_longest_line_is_read_and_a_longer_one_is_not(rt: HostRuntime) -> Result<(), Fail> {
    let alloc = rt.alloc();
    let mut log = Bytes::new(alloc);
    put_message(&mut log, 65_536)?;
    put_message(&mut log, 65_537)?;
    let mut cut = LineCut::new(alloc, 65_536);
    let (taken, line) = cut.next(log.as_slice())?;
    assert_eq!(rt; taken, 65_537);
    match line {
        Some(line) => {
            assert!(rt; !line.long);
            assert_eq!(rt; class(line.text.as_slice()), Verdict::Other);
        }
        None => assert!(rt; false),
    }
    let (taken, line) = cut.next(&log.as_slice()[taken..])?;
    assert_eq!(rt; taken, 65_538);
    match line {
        Some(line) => assert!(rt; line.long && line.text.as_slice().is_empty()),
        None => assert!(rt; false),
    }
    assert_eq!(rt;
        class(&log.as_slice()[65_537..131_074]),
        Verdict::Bad(LineFault::TooLong)
    );
    Ok(())
}

// A line that spells a record.
fn used_line(line: &[u8]) -> Option<UsedLine<'_>> {
    match lex(line, 200) {
        Lexed::Used(used) => Some(used),
        _ => None,
    }
}

// The process of a used line.
fn pid(line: &[u8]) -> Option<&[u8]> {
    used_line(line)?.field(Field::Pid)
}

#[test]
fn a_system_call_is_taken_with_its_fields(rt: HostRuntime) {
    let line =
        b"type=SYSCALL msg=audit(12.345:67): arch=c000003e syscall=57 success=yes exit=-1 a0=0 a1=F a2=0 a3=0 ppid=1 pid=100 comm=\"a pid=7 b\" exe=\"/a b\"";
    match used_line(line.as_slice()) {
        Some(used) => {
            assert_eq!(rt; used.key.ms, 12_345);
            assert_eq!(rt; used.key.serial, 67);
            assert_eq!(rt; used.field(Field::Pid), Some(b"100".as_slice()));
            assert_eq!(rt; used.field(Field::Exit), Some(b"-1".as_slice()));
            assert_eq!(rt; used.field(Field::Exe), Some(b"\"/a b\"".as_slice()));
            assert_eq!(rt; used.field(Field::Name), None);
        }
        None => assert!(rt; false),
    }
}

#[test]
fn the_first_token_of_a_name_counts(rt: HostRuntime) {
    for (line, want) in [
        // a number in a quoted text is no token
        (
            b"type=SYSCALL msg=audit(1.000:1): arch=1 syscall=1 a0=0 a1=0 a2=0 a3=0 ppid=1 comm=\"a pid=7\" pid=8".as_slice(),
            Some(b"8".as_slice()),
        ),
        // a quote that isn't closed runs on to the end
        (
            b"type=SYSCALL msg=audit(1.000:1): arch=1 syscall=1 a0=0 a1=0 a2=0 a3=0 ppid=1 comm=\"a pid=7".as_slice(),
            None,
        ),
        (
            b"type=SYSCALL msg=audit(1.000:1): arch=1 syscall=1 a0=0 a1=0 a2=0 a3=0 ppid=1 pid=7 pid=x".as_slice(),
            Some(b"7".as_slice()),
        ),
        (
            b"type=SYSCALL msg=audit(1.000:1): arch=1 syscall=1 a0=0 a1=0 a2=0 a3=0 ppid=1 pid=x pid=7".as_slice(),
            None,
        ),
        // no such field, and a field with a fault that nobody asked for
        (
            b"type=SYSCALL msg=audit(1.000:1): arch=1 syscall=1 a0=0 a1=0 a2=0 a3=0 ppid=1".as_slice(),
            None,
        ),
        (
            b"type=SYSCALL msg=audit(1.000:1): arch=1 syscall=1 a0=0 a1=0 a2=0 a3=0x0 ppid=1 pid=7".as_slice(),
            None,
        ),
        // a node, and what a collector adds after the mark
        (
            b"node=web1 type=SYSCALL msg=audit(1.000:1): arch=1 syscall=1 a0=0 a1=0 a2=0 a3=0 ppid=1 pid=7".as_slice(),
            Some(b"7".as_slice()),
        ),
        (
            b"type=SYSCALL msg=audit(1.000:1): arch=1 syscall=1 a0=0 a1=0 a2=0 a3=0 ppid=1 pid=7\x1dARCH=x86_64 pid=8".as_slice(),
            Some(b"7".as_slice()),
        ),
    ] {
        assert_eq!(rt; pid(line), want);
    }
}

#[test]
fn a_scan_finds_the_fields_and_leaves_their_faults(rt: HostRuntime) {
    let line =
        b"type=PATH msg=audit(12.345:67): item=x name=\"/a b\" inode=2 objtype=PARENT name=\"c\"";
    let mut slots = Slots::new();
    match scan(line.as_slice(), 200, &mut LastStamp::none(), &mut slots) {
        Some(scanned) => {
            assert_eq!(rt; scanned.kind, Kind::Path);
            assert_eq!(rt; scanned.key.ms, 12_345);
            assert_eq!(rt; scanned.key.serial, 67);
            // `objtype` has no slot, and is searched for.
            assert_eq!(rt; scanned.search(Field::Objtype), Some(b"PARENT".as_slice()));
        }
        None => assert!(rt; false),
    }
    for (name, want) in [
        (Field::Item, Some(b"x".as_slice())),
        (Field::Name, Some(b"\"/a b\"".as_slice())),
        (Field::Inode, Some(b"2".as_slice())),
        (Field::Dev, None),
        (Field::Nametype, None),
    ] {
        assert_eq!(rt; slots.field(name), want);
    }
}

#[test]
fn a_scan_finds_nothing_in_lines_that_are_not_used_by_their_headers(rt: HostRuntime) {
    for line in [
        b"".as_slice(),
        b" \t".as_slice(),
        b"type=EXECVE msg=audit(12.345:67): argc=1".as_slice(),
        b"type=CWD msg=audit(12.34:67): cwd=\"/a\"".as_slice(),
        // One byte more than may be.
        b"type=CWD msg=audit(12.345:67): cwd=\"/longer\"".as_slice(),
    ] {
        let mut slots = Slots::new();
        assert!(rt; scan(line, 43, &mut LastStamp::none(), &mut slots).is_none());
    }
}

#[test]
fn lines_have_their_own_stamps_after_others(rt: HostRuntime) {
    let mut last = LastStamp::none();
    for (line, want) in [
        // What is held before any line has this time and serial number.
        (b"type=EOE msg=audit(0.000:0): ".as_slice(), Some((0, 0))),
        (
            b"type=CWD msg=audit(1600000000.123:456): cwd=\"/a\"".as_slice(),
            Some((1_600_000_000_123, 456)),
        ),
        (
            b"type=EOE msg=audit(1600000000.123:456): ".as_slice(),
            Some((1_600_000_000_123, 456)),
        ),
        // the same second, and a serial number that begins with that before it
        (
            b"type=EOE msg=audit(1600000000.124:4567): ".as_slice(),
            Some((1_600_000_000_124, 4567)),
        ),
        (
            b"type=EOE msg=audit(1600000000.124:456): ".as_slice(),
            Some((1_600_000_000_124, 456)),
        ),
        // stamps of 32 and 33 bytes
        (
            b"type=EOE msg=audit(1600000000.124:123456): ".as_slice(),
            Some((1_600_000_000_124, 123_456)),
        ),
        (
            b"type=EOE msg=audit(1600000000.124:1234567): ".as_slice(),
            Some((1_600_000_000_124, 1_234_567)),
        ),
        (
            b"type=EOE msg=audit(1600000000.124:123456): ".as_slice(),
            Some((1_600_000_000_124, 123_456)),
        ),
        (
            b"type=EOE msg=audit(1600000001.124:123456): ".as_slice(),
            Some((1_600_000_001_124, 123_456)),
        ),
        // a stamp that differs in its bracket alone, and the next line
        (
            b"type=EOE msg=audit(1600000001.124:123456]: ".as_slice(),
            None,
        ),
        (
            b"type=EOE msg=audit(1600000001.124:123456): ".as_slice(),
            Some((1_600_000_001_124, 123_456)),
        ),
    ] {
        let mut slots = Slots::new();
        let found = match scan(line, 200, &mut last, &mut slots) {
            Some(scanned) => Some((scanned.key.ms, scanned.key.serial)),
            None => None,
        };
        assert_eq!(rt; found, want);
    }
}
