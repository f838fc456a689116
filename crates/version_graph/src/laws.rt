//! Links by the order of a list are links by places.
ghost use Rattle.std.specs.Prelude.{◌↔◌, List};
ghost use Rattle.flow_base.specs.declared.types.Flow.{Flow};
ghost use Rattle.reach_model.specs.Flows.{source, target};
ghost use Rattle.reach_model.specs.Laws.{AscendsByFirst};
ghost use Rattle.reach_model.specs.Rows.{Row, IsLinked, firsts};
ghost use Rattle.version_graph.specs.Links.{EndsDiffer, HasLink};

/// Among rows whose first flows ascend, a pair is linked by their order exactly if full mode says that it is.
pub fn links_are_those_of_full_mode()
    ensures { (R : List Row) (f : Flow) → AscendsByFirst R → EndsDiffer R
        → HasLink (firsts R) (source f) (target f) ↔ IsLinked R f }
{}
