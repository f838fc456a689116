//! Lines cut out of a log that comes in pieces.
use audit_lex::{Line, LineCut};
use flow_base::{Bytes, List, NoMemory};
use std::alloc::Global;
use std::test::Fail;

// Appends the lines of a piece to those that were given.
fn take_piece(cut: &mut LineCut, piece: &[u8], lines: &mut List<Line>) -> Result<(), NoMemory> {
    let mut rest = piece;
    for _ in 0..piece.len() {
        if cut.lines() > 99 || rest.is_empty() {
            return Ok(());
        }
        let (taken, line) = cut.next(rest)?;
        if let Some(line) = line {
            lines.push(line)?;
        }
        rest = &rest[taken..];
    }
    Ok(())
}

// The lines of a log that comes in pieces of this size and has an end.
fn lines_in_pieces(alloc: Global, log: &[u8], size: usize) -> Result<List<Line>, NoMemory> {
    let mut cut = LineCut::new(alloc, 4);
    let mut lines = List::new(alloc);
    let mut rest = log;
    for _ in 0..log.len() {
        let (piece, later) = rest.split_at(rest.len().min(size));
        take_piece(&mut cut, piece, &mut lines)?;
        rest = later;
    }
    if cut.lines() < 99 {
        if let Some(line) = cut.finish() {
            lines.push(line)?;
        }
    }
    Ok(lines)
}

fn is_line(line: &Line, number: u64, text: &[u8], long: bool) -> bool {
    line.number == number && line.text.as_slice() == text && line.long == long
}

#[test]
fn a_line_is_the_same_whatever_pieces_it_comes_in(rt: HostRuntime) -> Result<(), Fail> {
    let log = b"ab\ncdef\n\nghijk\r\nx".as_slice();
    for size in 1..=log.len() {
        let lines = lines_in_pieces(rt.alloc(), log, size)?;
        match lines.as_slice() {
            [first, second, third, fourth, fifth] => {
                assert!(rt; is_line(first, 1, b"ab".as_slice(), false), "{size}");
                assert!(rt; is_line(second, 2, b"cdef".as_slice(), false), "{size}");
                assert!(rt; is_line(third, 3, b"".as_slice(), false), "{size}");
                assert!(rt; is_line(fourth, 4, b"".as_slice(), true), "{size}");
                assert!(rt; is_line(fifth, 5, b"x".as_slice(), false), "{size}");
            }
            _ => assert!(rt; false, "{size}"),
        }
    }
    Ok(())
}

#[test]
fn a_cutter_goes_on_where_another_stopped(rt: HostRuntime) -> Result<(), Fail> {
    let alloc = rt.alloc();
    let tail = Bytes::from_slice(alloc, b"abc".as_slice())?;
    let mut cut = LineCut::resume(4, 7, tail, false);
    let (taken, line) = cut.next(b"d\ne".as_slice())?;
    assert_eq!(rt; taken, 2);
    match line {
        Some(line) => assert!(rt; is_line(&line, 8, b"abcd".as_slice(), false)),
        None => assert!(rt; false),
    }
    assert_eq!(rt; cut.tail(), b"".as_slice());
    let mut long = LineCut::resume(4, 0, Bytes::new(alloc), true);
    assert!(rt; long.long());
    match long.finish() {
        Some(line) => assert!(rt; is_line(&line, 1, b"".as_slice(), true)),
        None => assert!(rt; false),
    }
    assert!(rt; long.finish().is_none());
    assert_eq!(rt; long.lines(), 1);
    Ok(())
}
