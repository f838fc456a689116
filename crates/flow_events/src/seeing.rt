//! What the see of an event finds.
//!
//! Nearly each event is of a process that is live by then, so its life is looked up once, and the rest is done only for
//! a process that isn't live.
ghost use Rattle.std.specs.Prelude.{◌≡◌};
ghost use Rattle.flow_events.specs.Acting.{SeesChange, SeesHolder, SeesLife, SeesLink};
ghost use Rattle.flow_events.specs.Added.{HasTwoEnds};

use crate::acting::{Acting, see_acting, see_link};
use crate::change::Change;
use crate::effects::see_change;
use acts::{Link, only_live_pids_hold, sees_hand_on};
use proc_table::Procs;

/// What the see of an event finds: the process once it is seen, what the see does to descriptors, and what it links.
#[derive(Drop)]
pub struct Seen {
    pub acting: Acting,
    pub change: Change,
    pub link: Option<Link>,
}

/// What a see of this pid finds, which says this parent.
pub fn see_process(procs: &Procs, pid: u32, ppid: u32) -> Seen
    ensures pid { result.acting.pid ≡ pid }
    ensures life { SeesLife procs.now pid ppid result.acting.life }
    ensures held { SeesHolder procs.now pid ppid result.acting.holder }
    ensures change { SeesChange procs.now pid ppid result.change }
    ensures link { SeesLink procs.now result.acting.pid ppid result.link }
    ensures ends { HasTwoEnds result.link }
{
    sees_hand_on();
    only_live_pids_hold();
    if let Some(life) = procs.life(pid) {
        return Seen {
            acting: Acting {
                pid,
                life,
                holder: pid,
            },
            change: Change::Nothing,
            link: None,
        };
    }
    see_new(procs, pid, ppid)
}

// The same for any process.
fn see_new(procs: &Procs, pid: u32, ppid: u32) -> Seen
    ensures pid { result.acting.pid ≡ pid }
    ensures life { SeesLife procs.now pid ppid result.acting.life }
    ensures held { SeesHolder procs.now pid ppid result.acting.holder }
    ensures change { SeesChange procs.now pid ppid result.change }
    ensures link { SeesLink procs.now result.acting.pid ppid result.link }
    ensures ends { HasTwoEnds result.link }
{
    let acting = see_acting(procs, pid, ppid);
    let change = see_change(procs, pid, ppid);
    let link = see_link(procs, acting.pid, ppid);
    Seen {
        acting,
        change,
        link,
    }
}
