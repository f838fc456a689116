//! Lists of acts with what is held after them, worked out by hand from the rules of descriptors.
use acts::{Held, Object};
use fd_table::{FdEntry, Fds};
use flow_base::Bytes;
use std::test::Fail;
use table_salt::Salt;

// Sockets go by the act that made them.
#[derive(Clone, Copy)]
enum Step {
    Sets(u32, u32, u64, bool),
    Closes(u32, u32),
    Marks(u32, u32, bool),
    Execs(u32),
    Ends(u32),
    Forks(u32, u32),
    Holds(u32, u32, u64, bool),
    Lacks(u32, u32),
}

fn sets(fds: &mut Fds, pid: u32, fd: u32, act: u64, cloexec: bool) -> bool {
    if fds.reserve(1, 0).is_err() {
        return false;
    }
    fds.set(
        pid,
        fd,
        Held {
            object: Object::Sock(act),
            cloexec,
        },
    );
    true
}

fn forks(fds: &mut Fds, pid: u32, child: u32) -> bool {
    if fds.reserve(1, 0).is_err() {
        return false;
    }
    fds.share(child, pid);
    true
}

fn closes(fds: &mut Fds, pid: u32, fd: u32) -> bool {
    if fds.reserve(1, 0).is_err() {
        return false;
    }
    fds.close(pid, fd);
    true
}

fn marks(fds: &mut Fds, pid: u32, fd: u32, cloexec: bool) -> bool {
    if fds.reserve(1, 0).is_err() {
        return false;
    }
    fds.mark(pid, fd, cloexec);
    true
}

fn holds(fds: &Fds, pid: u32, fd: u32, act: u64, cloexec: bool) -> bool {
    match fds.held(pid, fd) {
        Some(Object::Sock(made)) => *made == act && fds.is_marked(pid, fd) == cloexec,
        _ => false,
    }
}

/// Whether the table answers so.
fn answers(fds: &mut Fds, step: Step) -> bool {
    match step {
        Step::Sets(pid, fd, act, cloexec) => return sets(fds, pid, fd, act, cloexec),
        Step::Closes(pid, fd) => return closes(fds, pid, fd),
        Step::Marks(pid, fd, cloexec) => return marks(fds, pid, fd, cloexec),
        Step::Execs(pid) => fds.on_exec(pid),
        Step::Ends(pid) => fds.clear(pid),
        Step::Forks(pid, child) => return forks(fds, pid, child),
        Step::Holds(pid, fd, act, cloexec) => return holds(fds, pid, fd, act, cloexec),
        Step::Lacks(pid, fd) => return fds.held(pid, fd).is_none() && !fds.is_marked(pid, fd),
    }
    true
}

fn all_answer(fds: &mut Fds, steps: &[Step]) -> bool {
    for step in steps {
        if !answers(fds, *step) {
            return false;
        }
    }
    true
}

#[test]
fn a_duplicate_outlives_an_exec_and_a_child_takes_it_over(rt: HostRuntime) {
    let mut fds = Fds::new(rt.alloc(), Salt::fixed());
    assert!(rt;
        all_answer(
            &mut fds,
            [
                Step::Sets(100, 3, 7, true),
                Step::Sets(100, 9, 7, false),
                Step::Sets(100, 4, 8, true),
                Step::Sets(100, 5, 9, true),
                Step::Sets(200, 3, 5, true),
                Step::Marks(100, 5, false),
                Step::Marks(100, 6, true),
                Step::Execs(100),
                Step::Lacks(100, 3),
                Step::Lacks(100, 4),
                Step::Lacks(100, 6),
                Step::Holds(100, 5, 9, false),
                Step::Holds(100, 9, 7, false),
                Step::Holds(200, 3, 5, true),
                Step::Forks(100, 200),
                Step::Ends(100),
                Step::Lacks(100, 9),
                Step::Lacks(200, 3),
                Step::Holds(200, 5, 9, false),
                Step::Holds(200, 9, 7, false),
            ]
            .as_slice(),
        )
    );
}

#[test]
fn each_descriptor_is_found_until_it_closes(rt: HostRuntime) {
    let mut fds = Fds::new(rt.alloc(), Salt::fixed());
    assert!(rt;
        all_answer(
            &mut fds,
            [
                Step::Sets(1, 8, 1, true),
                Step::Sets(1, 2, 2, true),
                Step::Sets(2, 8, 3, true),
                Step::Sets(1, 6, 4, true),
                Step::Sets(1, 4, 5, true),
                Step::Closes(1, 8),
                Step::Closes(1, 7),
                Step::Sets(1, 6, 6, false),
                Step::Sets(1, 1, 7, false),
            ]
            .as_slice(),
        )
    );
    assert!(rt;
        all_answer(
            &mut fds,
            [
                Step::Lacks(1, 8),
                Step::Holds(1, 2, 2, true),
                Step::Holds(1, 4, 5, true),
                Step::Holds(2, 8, 3, true),
                Step::Execs(1),
                Step::Holds(1, 1, 7, false),
                Step::Lacks(1, 2),
                Step::Lacks(1, 4),
                Step::Holds(1, 6, 6, false),
            ]
            .as_slice(),
        )
    );
}

#[test]
fn many_children_share_what_they_hold_and_change_it_alone(rt: HostRuntime) {
    let mut fds = Fds::new(rt.alloc(), Salt::fixed());
    for fd in 0..2000u32 {
        assert!(rt; sets(&mut fds, 1, fd * 3, fd as u64, fd % 5 == 0));
    }
    for child in 2..1000u32 {
        assert!(rt; forks(&mut fds, child - 1, child));
        assert!(rt; closes(&mut fds, child, child * 3));
        assert!(rt; sets(&mut fds, child, 4_000_000_000 + child, 5000, true));
    }
    for child in 2..900u32 {
        fds.clear(child);
    }
    fds.on_exec(950);
    for child in 0..9000u32 {
        assert!(rt; forks(&mut fds, 999, 1000));
        assert!(rt; marks(&mut fds, 1000, 5997, child % 2 == 0));
    }
    assert!(rt;
        all_answer(
            &mut fds,
            [
                Step::Lacks(500, 3),
                Step::Holds(1, 2997, 999, false),
                Step::Lacks(999, 2997),
                Step::Holds(998, 2997, 999, false),
                Step::Holds(999, 3000, 1000, true),
                Step::Lacks(950, 3000),
                Step::Holds(950, 3003, 1001, false),
                Step::Holds(999, 4_000_000_902, 5000, true),
                Step::Lacks(950, 4_000_000_902),
                Step::Execs(1000),
                Step::Holds(1000, 5997, 1999, false),
                Step::Lacks(1000, 3000),
            ]
            .as_slice(),
        )
    );
}

fn gives_address(fds: &mut Fds, act: u64, bytes: Bytes) -> bool {
    if fds.reserve(0, 1).is_err() {
        return false;
    }
    fds.set_address(act, bytes);
    true
}

fn has_address(fds: &Fds, act: u64, bytes: &[u8]) -> bool {
    match fds.address(act) {
        Some(address) => address.as_slice() == bytes,
        None => false,
    }
}

#[test]
fn an_address_is_that_of_its_socket_alone(rt: HostRuntime) {
    let mut fds = Fds::new(rt.alloc(), Salt::fixed());
    match Bytes::from_slice(rt.alloc(), b"\x02\x00\x01\xbb".as_slice()) {
        Ok(bytes) => assert!(rt; gives_address(&mut fds, 6, bytes)),
        Err(_) => assert!(rt; false),
    }
    assert!(rt; has_address(&fds, 6, b"\x02\x00\x01\xbb".as_slice()));
    assert!(rt; fds.address(3).is_none());
}

fn stands(entry: &FdEntry, fd: u32, act: u64, cloexec: bool) -> bool {
    match entry.held.object {
        Object::Sock(made) => entry.fd == fd && made == act && entry.held.cloexec == cloexec,
        _ => false,
    }
}

#[test]
fn what_a_process_holds_is_listed_in_ascending_order(rt: HostRuntime) -> Result<(), Fail> {
    let mut fds = Fds::new(rt.alloc(), Salt::fixed());
    assert!(rt;
        all_answer(
            &mut fds,
            [
                Step::Sets(7, 4_294_967_295, 1, true),
                Step::Sets(7, 4096, 2, false),
                Step::Sets(7, 4095, 3, true),
                Step::Sets(7, 0, 4, false),
                Step::Sets(7, 5, 5, true),
                Step::Sets(8, 6, 6, true),
                Step::Closes(7, 5),
            ]
            .as_slice(),
        )
    );
    match fds.entries(7)?.as_slice() {
        [first, second, third, fourth] => {
            assert!(rt; stands(first, 0, 4, false));
            assert!(rt; stands(second, 4095, 3, true));
            assert!(rt; stands(third, 4096, 2, false));
            assert!(rt; stands(fourth, 4_294_967_295, 1, true));
        }
        _ => assert!(rt; false),
    }
    assert_eq!(rt; fds.marked(7)?.as_slice(), [4095, 4_294_967_295].as_slice());
    assert!(rt; fds.entries(9)?.as_slice().is_empty());
    Ok(())
}
