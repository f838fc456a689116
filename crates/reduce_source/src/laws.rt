//! Why source mode refuses a question.
ghost use Rattle.std.specs.Prelude.{List};
ghost use Rattle.flow_base.specs.declared.types.Flow.{Flow};
ghost use Rattle.reach_model.specs.Flows.{IsLawful};
ghost use Rattle.reach_model.specs.Laws.{AnswersFromFirst};
ghost use Rattle.reach_model.specs.Rows.{Row, Keeps};

use reach_model::Mode;

/// There are flows whose rows in source mode don't answer what full mode answers: two flows out of
/// a source, and one between their targets, which is dropped. Forward from the first target the
/// rows reach nothing. So a question forward from an object that is no source is refused.
pub fn source_mode_loses_other_starts()
    ensures { (F : List Flow) × (R : List Row) × IsLawful F × Keeps Mode.Source F R
        × ¬ AnswersFromFirst F R }
{}
