//! Small histories with their flows, each worked out by hand from the rules of lives.
ghost use Rattle.std.specs.Prelude.{◌≡◌, false};
ghost use Rattle.acts.specs.LookBack.{opens};

use acts::{Act, FileRef, Plain, Taken, Thing};
use flow_base::{
    Bytes, Device, EntityId, FileId, Flow, Full, How, Key, Limit, NoMemory, Refused, Stamp,
};
use std::alloc::Global;
use std::test::Fail;

// Acts without bytes, which a table can hold.
#[derive(Clone, Copy)]
enum Does {
    Sees(u32, u32),
    Forks(u32, u32),
    Ends(u32),
    Reads(u32, u32),
    Writes(u32, u32),
}

fn act_of(does: Does) -> Act
    ensures { opens result ≡ false }
{
    match does {
        Does::Sees(pid, ppid) => Act::See {
            pid,
            ppid,
            exe: None,
        },
        Does::Forks(pid, child) => Act::Fork { pid, child },
        Does::Ends(pid) => Act::End { pid },
        Does::Reads(pid, fd) => moved(pid, true, How::Read, fd),
        Does::Writes(pid, fd) => moved(pid, false, How::Write, fd),
    }
}

fn moved(pid: u32, inward: bool, how: How, fd: u32) -> Act
    ensures { opens result ≡ false }
{
    Act::Move {
        pid,
        inward,
        how,
        what: Thing::Fd(fd),
    }
}

fn process(pid: u32, life: u64) -> Key {
    Key::Process { pid, life }
}

fn lost(pid: u32, life: u64, fd: u32) -> Key {
    Key::Lost { pid, life, fd }
}

fn alter(what: Thing) -> Act
    ensures { opens result ≡ false }
{
    Act::Move {
        pid: 100,
        inward: false,
        how: How::Alter,
        what,
    }
}

fn named(alloc: Global, file: Option<FileId>) -> Result<FileRef, NoMemory> {
    let path = Bytes::from_slice(alloc, b"/f".as_slice())?;
    Ok(FileRef {
        file,
        path: Some(path),
    })
}

fn take(plain: &mut Plain, act: Act) -> Result<(), Refused>
    requires { opens act ≡ false }
{
    plain.act(Taken {
        act,
        ms: 1000,
        serial: 7,
    })
}

#[test]
fn lives_forks_and_unknown_descriptors_make_these_flows(rt: HostRuntime) -> Result<(), Fail> {
    let alloc = rt.alloc();
    let fork = How::Fork;
    let cases: [(&[Does], &[Key], &[(u32, u32, How)]); 10] = [
        // A fork begins a life of the child.
        (
            &[Does::Sees(100, 1), Does::Forks(100, 101)],
            &[process(100, 0), process(101, 0)],
            &[(0, 1, fork)],
        ),
        // A process is seen whose parent is live.
        (
            &[Does::Sees(100, 1), Does::Sees(101, 100)],
            &[process(100, 0), process(101, 0)],
            &[(0, 1, fork)],
        ),
        // A child is seen before its parent, and its fork claims it.
        (
            &[
                Does::Sees(101, 100),
                Does::Sees(100, 1),
                Does::Forks(100, 101),
            ],
            &[process(100, 0), process(101, 0)],
            &[(0, 1, fork)],
        ),
        // A child that was linked when it was seen gets no second flow from its fork.
        (
            &[
                Does::Sees(100, 1),
                Does::Sees(101, 100),
                Does::Forks(100, 101),
            ],
            &[process(100, 0), process(101, 0)],
            &[(0, 1, fork)],
        ),
        // A fork by another parent than the awaited one begins a life.
        (
            &[
                Does::Sees(101, 50),
                Does::Sees(100, 1),
                Does::Forks(100, 101),
            ],
            &[process(100, 0), process(101, 1)],
            &[(0, 1, fork)],
        ),
        // A second fork of one pid begins a second life, also with no end between.
        (
            &[
                Does::Sees(100, 1),
                Does::Forks(100, 101),
                Does::Forks(100, 101),
            ],
            &[process(100, 0), process(101, 0), process(101, 1)],
            &[(0, 1, fork), (0, 2, fork)],
        ),
        // A fork by itself is nothing.
        (&[Does::Sees(100, 1), Does::Forks(100, 100)], &[], &[]),
        // A pid that ended is used again.
        (
            &[
                Does::Sees(100, 1),
                Does::Forks(100, 101),
                Does::Ends(101),
                Does::Sees(101, 100),
            ],
            &[process(100, 0), process(101, 0), process(101, 1)],
            &[(0, 1, fork), (0, 2, fork)],
        ),
        // Nobody opened these descriptors.
        (
            &[
                Does::Sees(100, 1),
                Does::Reads(100, 3),
                Does::Writes(100, 1),
            ],
            &[lost(100, 0, 3), process(100, 0), lost(100, 0, 1)],
            &[(0, 1, How::Read), (1, 2, How::Write)],
        ),
        // They are others in another life.
        (
            &[
                Does::Sees(100, 1),
                Does::Reads(100, 3),
                Does::Ends(100),
                Does::Sees(100, 1),
                Does::Reads(100, 3),
            ],
            &[
                lost(100, 0, 3),
                process(100, 0),
                lost(100, 1, 3),
                process(100, 1),
            ],
            &[(0, 1, How::Read), (2, 3, How::Read)],
        ),
    ];
    for (acts, keys, arrows) in cases {
        let mut plain = Plain::new(alloc, 10, 10);
        for does in acts {
            let act = act_of(*does);
            plain
                .act(Taken {
                    act,
                    ms: 1000,
                    serial: 7,
                })
                .expect(&rt, "taken");
        }
        assert!(rt; plain.objects() == keys);
        assert_eq!(rt; plain.known() as usize, keys.len());
        assert_eq!(rt; plain.flows().len(), arrows.len());
        for (place, (from, to, how)) in arrows.iter().enumerate() {
            let want = Flow {
                from: EntityId(*from),
                to: EntityId(*to),
                how: *how,
                at: Stamp {
                    ms: 1000,
                    place: place as u64,
                },
                serial: 7,
            };
            assert_eq!(rt; plain.flows()[place], want);
        }
    }
    Ok(())
}

#[test]
fn a_file_that_is_born_again_is_another_object(rt: HostRuntime) -> Result<(), Fail> {
    let alloc = rt.alloc();
    let file = FileId {
        device: Device { major: 8, minor: 1 },
        ino: 7,
    };
    let mut plain = Plain::new(alloc, 10, 10);
    take(&mut plain, alter(Thing::File(named(alloc, Some(file))?)))?;
    take(
        &mut plain,
        Act::Birth {
            file: named(alloc, Some(file))?,
        },
    )?;
    take(&mut plain, alter(Thing::File(named(alloc, Some(file))?)))?;
    take(&mut plain, alter(Thing::File(named(alloc, None)?)))?;
    take(
        &mut plain,
        alter(Thing::Address(Bytes::from_slice(alloc, b"ip".as_slice())?)),
    )?;
    assert!(rt;
        plain.objects()
            == [
                process(100, 0),
                Key::Inode { file, born: 0 },
                Key::Inode { file, born: 1 },
                Key::Path {
                    path: Bytes::from_slice(alloc, b"/f".as_slice())?
                },
                Key::Address {
                    bytes: Bytes::from_slice(alloc, b"ip".as_slice())?
                },
            ]
            .as_slice()
    );
    Ok(())
}

#[test]
fn a_limit_refuses_the_act_that_would_pass_it(rt: HostRuntime) -> Result<(), Fail> {
    let alloc = rt.alloc();
    for (objects, flows, why) in [
        (
            2,
            10,
            Full {
                limit: Limit::Entities,
                number: 2,
            },
        ),
        (
            10,
            1,
            Full {
                limit: Limit::Flows,
                number: 1,
            },
        ),
        (
            2,
            1,
            Full {
                limit: Limit::Entities,
                number: 2,
            },
        ),
    ] {
        let mut plain = Plain::new(alloc, objects, flows);
        take(&mut plain, act_of(Does::Sees(100, 1)))?;
        take(&mut plain, act_of(Does::Forks(100, 101)))?;
        let refused = take(&mut plain, act_of(Does::Forks(100, 102)));
        assert_eq!(rt; refused, Err(Refused::Full(why)));
        assert_eq!(rt; plain.known(), 2);
        assert_eq!(rt; plain.flows().len(), 1);
    }
    Ok(())
}
