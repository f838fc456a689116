//! What runs that were stopped leave to those that go on.
ghost use Rattle.std.specs.Prelude.{true, ℕ, List};
ghost use Rattle.flow_base.specs.declared.limits.Limits.{Limits};
ghost use Rattle.audit_lex.specs.History.{History};
ghost use Rattle.reach_model.specs.declared.modes.Mode.{Mode};
ghost use Rattle.dialogue.specs.Saves.{IsReached};
ghost use Rattle.store_runs.specs.Stores.{GoesOn};
ghost use Rattle.dialogue.specs.Runs.{HasTaken, begun_of, steps_of, whole_of};

/// Whatever a crash leaves of a run of `reduce --resume` that has synced its disk, another such run over
/// the same log goes on from it to the same history, unless all of the log is there already. So however
/// often runs are stopped, the first that ends leaves the history of one that was never stopped.
pub fn stopped_runs_go_on()
    ensures { (limits : Limits) (mode : Mode) (h : History) (before : ℕ) (log bytes : List ℕ)
        → HasTaken true before log
        → IsReached limits mode (begun_of true h before log)
        (steps_of (begun_of true h before log)) bytes
        → GoesOn limits mode (whole_of (begun_of true h before log)) log bytes }
{}
