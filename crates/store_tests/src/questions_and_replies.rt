//! Lines and replies. What is expected was worked out by hand from the formats.
use flow_base::{Bad, Bytes, EntityId, Flow, How, List, NoMemory, Stamp};
use reach_rows::Question;
use report_json::{Ask, BadQuestion, Counts, FindText, Reply, read_question, reply_text};
use std::alloc::Global;
use std::test::Fail;

fn back<'a>(of: u32, until: Option<u64>) -> Result<Ask<'a>, BadQuestion> {
    Ok(Ask::Question(Question::Back {
        of: EntityId(of),
        until,
    }))
}

fn fore<'a>(of: u32, since: Option<u64>) -> Result<Ask<'a>, BadQuestion> {
    Ok(Ask::Question(Question::Fore {
        of: EntityId(of),
        since,
    }))
}

fn why<'a>(from: u32, to: u32, until: Option<u64>) -> Result<Ask<'a>, BadQuestion> {
    Ok(Ask::Why {
        from: EntityId(from),
        to: EntityId(to),
        until,
    })
}

fn find(text: &[u8]) -> Result<Ask<'_>, BadQuestion> {
    Ok(Ask::Find(FindText::new(text)))
}

fn show<'a>(id: u32) -> Result<Ask<'a>, BadQuestion> {
    Ok(Ask::Show(EntityId(id)))
}

#[test]
fn lines_ask_what_they_spell(rt: HostRuntime) {
    for (line, want) in [
        (b"take 0".as_slice(), Ok(Ask::Take(0))),
        (b"take 279".as_slice(), Ok(Ask::Take(279))),
        (b"take 000000000000279".as_slice(), Ok(Ask::Take(279))),
        (
            b"take 999999999999999".as_slice(),
            Ok(Ask::Take(999_999_999_999_999)),
        ),
        (b"settle".as_slice(), Ok(Ask::Settle)),
        (b"stat".as_slice(), Ok(Ask::Stat)),
        (b"end".as_slice(), Ok(Ask::End)),
        (b"back 2".as_slice(), back(2, None)),
        (b"back 0000000002".as_slice(), back(2, None)),
        (b"back 4294967295".as_slice(), back(4_294_967_295, None)),
        (b"back 1 1.000".as_slice(), back(1, Some(1_000))),
        (b"back 1 0.007".as_slice(), back(1, Some(7))),
        (
            b"back 1 01700000000.250".as_slice(),
            back(1, Some(1_700_000_000_250)),
        ),
        (
            b"back 1 999999999999999.999".as_slice(),
            back(1, Some(999_999_999_999_999_999)),
        ),
        (b"fore 2".as_slice(), fore(2, None)),
        (b"fore 0000000002".as_slice(), fore(2, None)),
        (b"fore 4294967295".as_slice(), fore(4_294_967_295, None)),
        (b"fore 1 1.000".as_slice(), fore(1, Some(1_000))),
        (b"fore 1 0.007".as_slice(), fore(1, Some(7))),
        (
            b"fore 1 01700000000.250".as_slice(),
            fore(1, Some(1_700_000_000_250)),
        ),
        (
            b"fore 1 999999999999999.999".as_slice(),
            fore(1, Some(999_999_999_999_999_999)),
        ),
        (b"why 0 4".as_slice(), why(0, 4, None)),
        (b"why 4 0".as_slice(), why(4, 0, None)),
        (b"why 7 7".as_slice(), why(7, 7, None)),
        (
            b"why 0000000002 4294967295".as_slice(),
            why(2, 4_294_967_295, None),
        ),
        (b"why 2 4 1.006".as_slice(), why(2, 4, Some(1_006))),
        (b"why 2 4 0.000".as_slice(), why(2, 4, Some(0))),
        (
            b"find /tmp/a b.txt".as_slice(),
            find(b"/tmp/a b.txt".as_slice()),
        ),
        (b"find x".as_slice(), find(b"x".as_slice())),
        (b"find  x".as_slice(), find(b" x".as_slice())),
        (b"find x ".as_slice(), find(b"x ".as_slice())),
        (b"find  ".as_slice(), find(b" ".as_slice())),
        (b"find find x".as_slice(), find(b"find x".as_slice())),
        (b"find \"\t\r\0".as_slice(), find(b"\"\t\r\0".as_slice())),
        (b"find \xff".as_slice(), find(b"\xff".as_slice())),
        (b"show 0".as_slice(), show(0)),
        (b"show 0000000002".as_slice(), show(2)),
        (b"show 4294967295".as_slice(), show(4_294_967_295)),
    ] {
        assert_eq!(rt; read_question(line), want);
    }
}

#[test]
fn other_lines_are_bad_questions(rt: HostRuntime) {
    for line in [
        b"".as_slice(),
        b" ".as_slice(),
        b"take".as_slice(),
        b"take ".as_slice(),
        b"take  1".as_slice(),
        b"take 1 ".as_slice(),
        b"take 1 2".as_slice(),
        b"take -1".as_slice(),
        b"take +1".as_slice(),
        b"take 1x".as_slice(),
        b"take\t1".as_slice(),
        b"take 0000000000000279".as_slice(),
        b"Take 1".as_slice(),
        b" take 1".as_slice(),
        b"settle ".as_slice(),
        b"stat\r".as_slice(),
        b"end ".as_slice(),
        b"ended".as_slice(),
        b"en".as_slice(),
        b"back".as_slice(),
        b"back ".as_slice(),
        b"back 4294967296".as_slice(),
        b"back 00000000002".as_slice(),
        b"back  1".as_slice(),
        b"back 1 ".as_slice(),
        b"back 1  1.000".as_slice(),
        b"back 1\t1.000".as_slice(),
        b"back 1 1.000 ".as_slice(),
        b"back 1 1.000 2".as_slice(),
        b"back 1 1".as_slice(),
        b"back 1 1.".as_slice(),
        b"back 1 1.0".as_slice(),
        b"back 1 1.0000".as_slice(),
        b"back 1 1.0.0".as_slice(),
        b"back 1 .000".as_slice(),
        b"back 1 1,000".as_slice(),
        b"back 1 1000000000000000.000".as_slice(),
        b"back 1.000".as_slice(),
        b"back x".as_slice(),
        b"fore".as_slice(),
        b"fore ".as_slice(),
        b"fore 4294967296".as_slice(),
        b"fore 00000000002".as_slice(),
        b"fore  1".as_slice(),
        b"fore 1 ".as_slice(),
        b"fore 1 1".as_slice(),
        b"fore 1 1.0000".as_slice(),
        b"fore 1 1.000 2".as_slice(),
        b"fore x".as_slice(),
        b"why".as_slice(),
        b"why ".as_slice(),
        b"why 1".as_slice(),
        b"why 1 ".as_slice(),
        b"why  1 2".as_slice(),
        b"why 1  2".as_slice(),
        b"why 1 2 ".as_slice(),
        b"why 1 2 3".as_slice(),
        b"why 1 2 3.00".as_slice(),
        b"why 1 2 3.000 4".as_slice(),
        b"why 1 3.000".as_slice(),
        b"why 1 4294967296".as_slice(),
        b"why 4294967296 1".as_slice(),
        b"why 1 x".as_slice(),
        b"why x 1".as_slice(),
        b"whys 1 2".as_slice(),
        b"find".as_slice(),
        b"find ".as_slice(),
        b"find\tx".as_slice(),
        b"Find x".as_slice(),
        b"finds x".as_slice(),
        b"show".as_slice(),
        b"show ".as_slice(),
        b"show 1 ".as_slice(),
        b"show 1 2".as_slice(),
        b"show 4294967296".as_slice(),
        b"show x".as_slice(),
        b"fork 1".as_slice(),
        b"Fore 1".as_slice(),
        b"\xff".as_slice(),
    ] {
        assert_eq!(rt; read_question(line), Err(BadQuestion));
    }
}

fn no_counts(malformed_lines: List<Bad>) -> Counts {
    Counts {
        blank: 0,
        bytes: 0,
        events: 0,
        excess: 0,
        flows: 0,
        kept: 0,
        known: 0,
        late: 0,
        lines: 0,
        malformed: 0,
        malformed_lines,
        other: 0,
        unmapped: 0,
        used: 0,
        waiting: 0,
    }
}

// Each count with a value of its own.
fn all_counts(malformed_lines: List<Bad>) -> Counts {
    Counts {
        blank: 1,
        bytes: 2,
        events: 3,
        excess: 4,
        flows: 5,
        kept: 6,
        known: 7,
        late: 8,
        lines: 9,
        malformed: 10,
        malformed_lines,
        other: 11,
        unmapped: 12,
        used: 13,
        waiting: u64::MAX,
    }
}

fn ids(alloc: Global, count: u32) -> Result<List<EntityId>, NoMemory> {
    let mut ids = List::new(alloc);
    for id in 0..count {
        ids.push(EntityId(id))?;
    }
    Ok(ids)
}

// The text of a reply, which is let go.
fn text_of(alloc: Global, reply: Reply) -> Result<Bytes, NoMemory> {
    reply_text(alloc, &reply)
}

#[test]
fn replies_without_lists_have_these_texts(rt: HostRuntime) -> Result<(), Fail> {
    let alloc = rt.alloc();
    for (reply, want) in [
        (Reply::Take(279), "{\"take\":279}\n"),
        (Reply::Settle(2), "{\"settle\":2}\n"),
        (Reply::End, "{\"end\":true}\n"),
        (Reply::BadQuestion, "{\"error\":\"BadQuestion\"}\n"),
        (Reply::Unknown, "{\"error\":\"Unknown\"}\n"),
        (Reply::NotKept, "{\"error\":\"NotKept\"}\n"),
    ] {
        let text = text_of(alloc, reply)?;
        assert_eq!(rt; text.as_slice(), want.as_bytes());
    }
    Ok(())
}

#[test]
fn answers_have_these_texts(rt: HostRuntime) -> Result<(), Fail> {
    let alloc = rt.alloc();
    for (of, count, back, fore, sources) in [
        (
            2,
            3,
            "{\"back\":2,\"ids\":[0,1,2]}\n",
            "{\"fore\":2,\"ids\":[0,1,2]}\n",
            "{\"back\":2,\"sources\":[0,1,2]}\n",
        ),
        (
            4_294_967_295,
            0,
            "{\"back\":4294967295,\"ids\":[]}\n",
            "{\"fore\":4294967295,\"ids\":[]}\n",
            "{\"back\":4294967295,\"sources\":[]}\n",
        ),
    ] {
        let of = EntityId(of);
        let text = back_text(alloc, of, count)?;
        assert_eq!(rt; text.as_slice(), back.as_bytes());
        let text = fore_text(alloc, of, count)?;
        assert_eq!(rt; text.as_slice(), fore.as_bytes());
        let text = sources_text(alloc, of, count)?;
        assert_eq!(rt; text.as_slice(), sources.as_bytes());
    }
    Ok(())
}

fn back_text(alloc: Global, of: EntityId, count: u32) -> Result<Bytes, NoMemory> {
    let ids = ids(alloc, count)?;
    text_of(alloc, Reply::Back { of, ids })
}

fn fore_text(alloc: Global, of: EntityId, count: u32) -> Result<Bytes, NoMemory> {
    let ids = ids(alloc, count)?;
    text_of(alloc, Reply::Fore { of, ids })
}

fn sources_text(alloc: Global, of: EntityId, count: u32) -> Result<Bytes, NoMemory> {
    let ids = ids(alloc, count)?;
    text_of(alloc, Reply::Sources { of, ids })
}

#[test]
fn counts_have_these_texts(rt: HostRuntime) -> Result<(), Fail> {
    let alloc = rt.alloc();
    let text = text_of(alloc, Reply::Stat(no_counts(List::new(alloc))))?;
    let want =
        "{\"blank\":0,\"bytes\":0,\"events\":0,\"excess\":0,\"flows\":0,\"kept\":0,\"known\":0,\"late\":0,\"lines\":0,\"malformed\":0,\"malformed_lines\":[],\"other\":0,\"unmapped\":0,\"used\":0,\"waiting\":0}\n";
    assert_eq!(rt; text.as_slice(), want.as_bytes());
    let mut bads = List::new(alloc);
    bads.push(Bad { line: 3, fault: 5 })?;
    bads.push(Bad { line: 10, fault: 1 })?;
    let text = text_of(alloc, Reply::Stat(all_counts(bads)))?;
    let want =
        "{\"blank\":1,\"bytes\":2,\"events\":3,\"excess\":4,\"flows\":5,\"kept\":6,\"known\":7,\"late\":8,\"lines\":9,\"malformed\":10,\"malformed_lines\":[[3,5],[10,1]],\"other\":11,\"unmapped\":12,\"used\":13,\"waiting\":18446744073709551615}\n";
    assert_eq!(rt; text.as_slice(), want.as_bytes());
    Ok(())
}

fn flow(ms: u64, from: u32, how: How, serial: u32, to: u32) -> Flow {
    Flow {
        from: EntityId(from),
        to: EntityId(to),
        how,
        at: Stamp { ms, place: 9 },
        serial,
    }
}

fn path_of(alloc: Global, flows: &[Flow]) -> Result<Reply, NoMemory> {
    let mut path = List::new(alloc);
    for flow in flows {
        path.push(*flow)?;
    }
    Ok(Reply::Why {
        from: EntityId(0),
        to: EntityId(4),
        path: Some(path),
    })
}

#[test]
fn paths_have_these_texts(rt: HostRuntime) -> Result<(), Fail> {
    let alloc = rt.alloc();
    let none = Reply::Why {
        from: EntityId(4),
        to: EntityId(4_294_967_295),
        path: None,
    };
    for (reply, want) in [
        (none, "{\"from\":4,\"path\":null,\"to\":4294967295}\n"),
        (path_of(alloc, &[])?, "{\"from\":0,\"path\":[],\"to\":4}\n"),
        (
            path_of(
                alloc,
                &[
                    flow(1_002, 0, How::Exec, 3, 1),
                    flow(1_007, 1, How::Write, 8, 4),
                ],
            )?,
            "{\"from\":0,\"path\":[{\"at\":\"1.002\",\"from\":0,\"how\":\"exec\",\"serial\":3,\"to\":1},{\"at\":\"1.007\",\"from\":1,\"how\":\"write\",\"serial\":8,\"to\":4}],\"to\":4}\n",
        ),
        (
            path_of(
                alloc,
                &[
                    flow(0, 0, How::Fork, 0, 1),
                    flow(7, 1, How::Read, 1, 2),
                    flow(1_700_000_000_250, 2, How::Make, 4_294_967_295, 3),
                    flow(u64::MAX, 3, How::Alter, 10, 4),
                ],
            )?,
            "{\"from\":0,\"path\":[{\"at\":\"0.000\",\"from\":0,\"how\":\"fork\",\"serial\":0,\"to\":1},{\"at\":\"0.007\",\"from\":1,\"how\":\"read\",\"serial\":1,\"to\":2},{\"at\":\"1700000000.250\",\"from\":2,\"how\":\"make\",\"serial\":4294967295,\"to\":3},{\"at\":\"18446744073709551.615\",\"from\":3,\"how\":\"alter\",\"serial\":10,\"to\":4}],\"to\":4}\n",
        ),
    ] {
        let text = reply_text(alloc, &reply)?;
        assert_eq!(rt; text.as_slice(), want.as_bytes());
    }
    Ok(())
}

fn found(alloc: Global, text: &[u8], count: u32) -> Result<Reply, NoMemory> {
    Ok(Reply::Find {
        text: Bytes::from_slice(alloc, text)?,
        ids: ids(alloc, count)?,
    })
}

fn shown(alloc: Global, id: u32, key: &[u8], names: &[&[u8]]) -> Result<Reply, NoMemory> {
    let mut list = List::new(alloc);
    for name in names {
        list.push(Bytes::from_slice(alloc, name)?)?;
    }
    Ok(Reply::Show {
        id: EntityId(id),
        key: Bytes::from_slice(alloc, key)?,
        names: list,
    })
}

#[test]
fn texts_that_are_found_are_shown_as_lossy_texts(rt: HostRuntime) -> Result<(), Fail> {
    let alloc = rt.alloc();
    for (text, count, want) in [
        (
            b"/tmp/a b.txt".as_slice(),
            2,
            b"{\"find\":\"/tmp/a b.txt\",\"ids\":[0,1]}\n".as_slice(),
        ),
        (
            b" ".as_slice(),
            0,
            b"{\"find\":\" \",\"ids\":[]}\n".as_slice(),
        ),
        // Quotes and backslashes are escaped, control bytes by their letter or by four digits, and 7F stays.
        (
            b"\"\\\t\r\x08\x0c\0\x1f\x7f/".as_slice(),
            0,
            b"{\"find\":\"\\\"\\\\\\t\\r\\b\\f\\u0000\\u001f\x7f/\",\"ids\":[]}\n".as_slice(),
        ),
        // One U+FFFD, EF BF BD, for a byte that begins nothing, for a prefix of a character, and for each byte of a
        // longer form than needed.
        (
            b"\xff\xc3\xa9\xe2\x82A\xc0\x80".as_slice(),
            0,
            b"{\"find\":\"\xef\xbf\xbd\xc3\xa9\xef\xbf\xbdA\xef\xbf\xbd\xef\xbf\xbd\",\"ids\":[]}\n".as_slice(),
        ),
    ] {
        let reply = found(alloc, text, count)?;
        let said = text_of(alloc, reply)?;
        assert_eq!(rt; said.as_slice(), want);
    }
    Ok(())
}

#[test]
fn keys_and_names_are_shown_as_lossy_texts(rt: HostRuntime) -> Result<(), Fail> {
    let alloc = rt.alloc();
    let reply = shown(alloc, 2, b"lost 100 0 3".as_slice(), &[])?;
    let said = text_of(alloc, reply)?;
    let want = b"{\"is\":\"lost 100 0 3\",\"names\":[],\"show\":2}\n".as_slice();
    assert_eq!(rt; said.as_slice(), want);
    let names = [b"b".as_slice(), b"".as_slice(), b"a\"\n\xff".as_slice()];
    let reply = shown(alloc, 4_294_967_295, b"path /\xfe".as_slice(), &names)?;
    let said = text_of(alloc, reply)?;
    let want =
        b"{\"is\":\"path /\xef\xbf\xbd\",\"names\":[\"b\",\"\",\"a\\\"\\n\xef\xbf\xbd\"],\"show\":4294967295}\n".as_slice();
    assert_eq!(rt; said.as_slice(), want);
    Ok(())
}
