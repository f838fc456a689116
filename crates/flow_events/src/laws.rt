//! Laws of the process of an event.
ghost use Rattle.std.specs.Prelude.{◌∷◌, ℕ, List, Option};
ghost use Rattle.acts.specs.declared.act.Act.{Act};
ghost use Rattle.acts.specs.declared.act.Act.TheVariants as act;
ghost use Rattle.proc_table.specs.Table.{Table as Lives};
ghost use Rattle.fd_table.specs.Table.{Table as Descriptors};
ghost use Rattle.flow_events.specs.declared.acting.Acting.{Acting};
ghost use Rattle.flow_events.specs.Acting.{IsActing, SeeStarts};
ghost use Rattle.call_acts.specs.Events.{IsCalm};

#[tactic(auto, using(crate::proofs::CalmActs::calm_acting))]
/// A birth and a move leave the process of an event as it is.
pub fn calm_acts_leave_the_process()
    ensures { (procs : Lives) (fds : Descriptors) (acting : Acting) (act : Act) (acts : List Act)
        → IsCalm act → IsActing procs fds acting acts → IsActing procs fds acting (act ∷ acts) }
{}

#[tactic(auto, using(crate::proofs::CalmActs::seen_acting))]
/// After a see the process is as the tables and the see say.
pub fn a_see_starts_the_process()
    ensures { (procs : Lives) (fds : Descriptors) (acting : Acting) (acts : List Act) (ppid : ℕ)
        (exe : Option (List ℕ)) → SeeStarts procs fds acting acts (act.See acting.pid ppid exe) }
{}
