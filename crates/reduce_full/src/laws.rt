//! Why full mode refuses a question.
ghost use Rattle.std.specs.Prelude.{List};
ghost use Rattle.flow_base.specs.declared.types.Flow.{Flow};
ghost use Rattle.reach_model.specs.Flows.{IsLawful};
ghost use Rattle.reach_model.specs.Laws.{AnswersAll};
ghost use Rattle.reach_model.specs.Rows.{Row, Keeps};

use reach_model::Mode;

/// There are flows whose rows in full mode don't answer every question as the flows do: one flow, and a later one of the same
/// pair, which is dropped. Forward from the time of the later one the rows reach nothing. So a start after the object's
/// first flow is refused.
pub fn full_mode_loses_later_starts()
    ensures { (F : List Flow) × (R : List Row) × IsLawful F × Keeps Mode.Full F R
        × ¬ AnswersAll F R }
{}
