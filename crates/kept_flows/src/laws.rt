//! What ties flows that come next after others to flows that may be taken in.
ghost use Rattle.std.specs.Prelude.{List};
ghost use Rattle.flow_base.specs.declared.types.Flow.{Flow};
ghost use Rattle.kept_flows.specs.KeptFlows.{KeptFlows, StandsFor, ComeNext};
ghost use Rattle.kept_flows.specs.Taking.{MayTakeIn};

/// If kept flows stand for some flows, the flows that come next after these may be taken in.
pub fn flows_that_come_next_may_be_taken()
    ensures { (kept : KeptFlows) (F more : List Flow) → StandsFor kept F → ComeNext F more
        → MayTakeIn kept more }
{}
