//! Small lists of acts with their answers, each worked out by hand from the rules of lives.
ghost use Rattle.std.specs.Prelude.{◌≡◌, ◌≤◌, ◌<◌, ◌-◌, ◌^◌, true, IfSome};
ghost use Rattle.proc_table.specs.Table.{at};

use proc_table::{Forked, Life, Procs, Seen};
use table_salt::Salt;

#[derive(Clone, Copy)]
enum Step {
    Sees(u32, u32, Seen),
    Forks(u32, u32, Forked),
    Ends(u32),
}

/// Whether there is room for one act on a pid.
fn has_room(procs: &mut Procs, pid: u32) -> bool
    ensures room { result ≡ true → 1 ≤ procs.new.spare }
    ensures fits { result ≡ true → IfSome (at procs.new pid) (λ last. last.life < 2 ^ 64 - 1) }
{
    if procs.reserve(1).is_err() {
        return false;
    }
    match procs.at(pid) {
        Some(last) => last.life < u64::MAX,
        None => true,
    }
}

/// Whether the table answers so.
fn answers(procs: &mut Procs, step: Step) -> bool {
    match step {
        Step::Sees(pid, ppid, seen) => has_room(procs, pid) && procs.see(pid, ppid) == seen,
        Step::Forks(pid, child, forked) => {
            has_room(procs, child) && procs.fork(pid, child) == forked
        }
        Step::Ends(pid) => {
            procs.end(pid);
            true
        }
    }
}

fn all_answer(procs: &mut Procs, steps: &[Step]) -> bool {
    for step in steps {
        if !answers(procs, *step) {
            return false;
        }
    }
    true
}

#[test]
fn a_child_is_seen_before_its_fork_and_its_pid_is_used_again(rt: HostRuntime) {
    let mut procs = Procs::new(rt.alloc(), Salt::fixed());
    assert!(rt;
        all_answer(
            &mut procs,
            [
                Step::Sees(100, 1, Seen::Alone),
                Step::Sees(101, 100, Seen::Linked),
                Step::Forks(100, 101, Forked::Claimed),
                Step::Ends(101),
                Step::Sees(100, 1, Seen::Known),
                Step::Forks(100, 101, Forked::Began),
            ]
            .as_slice(),
        )
    );
    assert!(rt; procs.life(100) == Some(0));
    assert!(rt; procs.life(101) == Some(1));
    assert!(rt; procs.life(1) == None);
    assert!(rt; procs.at(1).is_none());
}

#[test]
fn a_fork_links_a_child_whose_parent_was_not_seen_before_it(rt: HostRuntime) {
    let mut procs = Procs::new(rt.alloc(), Salt::fixed());
    assert!(rt;
        all_answer(
            &mut procs,
            [
                Step::Sees(101, 100, Seen::Alone),
                Step::Sees(100, 1, Seen::Alone),
                Step::Forks(100, 101, Forked::Joined),
                Step::Forks(100, 100, Forked::Nothing),
                Step::Forks(100, 101, Forked::Began),
            ]
            .as_slice(),
        )
    );
    assert!(rt; procs.life(101) == Some(1));
    procs.end(101);
    assert!(rt; procs.life(101) == None);
    assert!(rt;
        matches!(
            procs.at(101),
            Some(Life {
                life: 1,
                live: false,
                awaits: None,
                linked: true,
            })
        )
    );
}

#[test]
fn what_is_put_is_found_again(rt: HostRuntime) {
    let mut procs = Procs::new(rt.alloc(), Salt::fixed());
    let life = Life {
        life: 7,
        live: true,
        awaits: Some(2),
        linked: false,
    };
    if has_room(&mut procs, 5) {
        procs.put(5, life);
    }
    assert!(rt; procs.at(5).copied() == Some(life));
    assert!(rt; all_answer(&mut procs, [Step::Forks(2, 5, Forked::Joined)].as_slice()));
}
