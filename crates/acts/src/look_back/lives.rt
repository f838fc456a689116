//! Lives, by going over all acts for each question.
ghost use Rattle.std.specs.Prelude.{◌≡◌, ◌≤◌, ◌<◌, ◌-◌, ◌^◌, ◌∷◌, length};
ghost use Rattle.acts.specs.Lives.{live};
ghost use Rattle.acts.specs.LookBack.{so_far};
ghost use Rattle.acts.specs.Standing.{standing, forked_by};

use crate::act::{Act, Taken};

/// How often a pid was begun, and how it stands.
#[derive(Clone, Copy, Debug, PartialEq, Eq)]
pub struct Standing {
    pub beginnings: u64,
    pub live: bool,
    pub awaits: Option<u32>,
    pub linked: bool,
}

/// How a pid stands after these acts, oldest first.
pub fn stands_after(taken: &[Taken], pid: u32) -> Standing
    ensures standing { result ≡ standing (so_far taken.now) pid }
    ensures few { result.beginnings ≤ length taken.now }
{
    let mut state = Standing {
        beginnings: 0,
        live: false,
        awaits: None,
        linked: false,
    };
    for i in 0..taken.len() {
        state = after(&taken[..i], &taken[i].act, state, pid);
    }
    state
}

/// How a pid stands after one more act.
pub fn after(before: &[Taken], act: &Act, state: Standing, pid: u32) -> Standing
    requires stands { state ≡ standing (so_far before.now) pid }
    requires fits { state.beginnings < 2 ^ 64 - 1 }
    ensures { result ≡ standing (act.now ∷ so_far before.now) pid }
{
    match act {
        Act::See {
            pid: seen,
            ppid,
            ..
        } if *seen == pid && !state.live => Standing {
            beginnings: state.beginnings + 1,
            live: true,
            awaits: Some(*ppid),
            linked: *ppid != pid && is_live(before, *ppid),
        },
        Act::Fork { pid: caller, child } if *child == pid && *caller != pid => forked(
            state, *caller,
        ),
        Act::End { pid: ended } if *ended == pid => Standing {
            live: false,
            ..state
        },
        _ => state,
    }
}

/// How a child stands after a fork by another pid: claimed if it awaited that pid, else begun.
pub fn forked(state: Standing, caller: u32) -> Standing
    requires fits { state.beginnings < 2 ^ 64 - 1 }
    ensures { result ≡ forked_by caller state }
{
    let claimed = state.live && state.awaits == Some(caller);
    Standing {
        beginnings: if claimed {
            state.beginnings
        } else {
            state.beginnings + 1
        },
        live: true,
        awaits: None,
        linked: true,
    }
}

/// Whether a pid is live after these acts, oldest first.
pub fn is_live(taken: &[Taken], pid: u32) -> bool
    ensures { result ≡ live (so_far taken.now) pid }
{
    let mut is_live = false;
    for one in taken {
        is_live = match &one.act {
            Act::See { pid: seen, .. } if *seen == pid => true,
            Act::Fork { pid: caller, child } if *child == pid && *caller != pid => true,
            Act::End { pid: ended } if *ended == pid => false,
            _ => is_live,
        };
    }
    is_live
}
