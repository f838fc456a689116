//! What an act does to lives.
ghost use Rattle.std.specs.Prelude.{◌≡◌, ◌≤◌, ◌<◌, ◌+◌, ◌-◌, ◌^◌, ◌↔◌, ◌∷◌, ℕ, List, Option, IfSome, IsTrue};
ghost use Rattle.acts.specs.declared.act.Act.{Act};
ghost use Rattle.acts.specs.declared.act.Act.TheVariants as act;
ghost use Rattle.proc_table.specs.Table.{StandsFor, at, standing_of};
ghost use Rattle.flow_events.specs.Lives.{LivesBelow};

use acts::Act;
use proc_table::Procs;

/// What an act does to lives. It takes no memory.
pub fn live_on(procs: &mut Procs, act: &Act)
    requires room { 1 ≤ procs.old.spare }
    ensures next { LivesBelow procs.old (2 ^ 64 - 1)
        → (acts : List Act) → StandsFor procs.old acts → StandsFor procs.new (act.now ∷ acts) }
    ensures spare { procs.old.spare ≤ procs.new.spare + 1 }
{
    match act {
        Act::See { pid, ppid, .. } => see(procs, *pid, *ppid),
        Act::Fork { pid, child } => fork(procs, *pid, *child),
        Act::End { pid } => procs.end(*pid),
        _ => {}
    }
}

// Whether there is a number for the next life of a pid. After acts there is one.
fn has_next(procs: &Procs, pid: u32) -> bool
    ensures { IsTrue result ↔ IfSome (at procs.now pid) (λ last. last.life < 2 ^ 64 - 1) }
{
    match procs.at(pid) {
        Some(last) => last.life < u64::MAX,
        None => true,
    }
}

// Whether a pid is live.
fn is_live(procs: &Procs, pid: u32) -> bool
    ensures { result ≡ (standing_of (at procs.now pid)).live }
{
    match procs.at(pid) {
        Some(last) => last.live,
        None => false,
    }
}

// A call of the process was logged. Nearly always the process is live by then, and nothing changes.
fn see(procs: &mut Procs, pid: u32, ppid: u32)
    requires room { 1 ≤ procs.old.spare }
    ensures next { LivesBelow procs.old (2 ^ 64 - 1) → (acts : List Act) (exe : Option (List ℕ))
        → StandsFor procs.old acts → StandsFor procs.new (act.See pid ppid exe ∷ acts) }
    ensures spare { procs.old.spare ≤ procs.new.spare + 1 }
{
    if !is_live(procs, pid) && has_next(procs, pid) {
        procs.see(pid, ppid);
    }
}

// The process made a child.
fn fork(procs: &mut Procs, pid: u32, child: u32)
    requires room { 1 ≤ procs.old.spare }
    ensures next { LivesBelow procs.old (2 ^ 64 - 1) → (acts : List Act)
        → StandsFor procs.old acts → StandsFor procs.new (act.Fork pid child ∷ acts) }
    ensures spare { procs.old.spare ≤ procs.new.spare + 1 }
{
    if has_next(procs, child) {
        procs.fork(pid, child);
    }
}
