//! Laws on lists of flows and lists of ids, for callers that build them.
ghost use Rattle.std.specs.Prelude.{◌≡◌, ◌↔◌, ℕ, List, [], ◌∷◌, ◌++◌, max};
ghost use Rattle.std.specs.List.{Contains};
ghost use Rattle.flow_base.specs.declared.types.EntityId.{EntityId};
ghost use Rattle.flow_base.specs.declared.types.Flow.{Flow};
ghost use Rattle.reach_model.specs.Ids.{IsAscending, numbers};
ghost use Rattle.reach_model.specs.Numbers.{IsLawfulWith, MayFollow, beyond, known};

/// The empty list of flows is lawful, and lawful flows stay lawful exactly if the next flow may follow them.
pub fn lawful_flows_grow()
    ensures none { IsLawfulWith 0 [] }
    ensures next { (count : ℕ) (F : List Flow) (f : Flow) → IsLawfulWith count F → MayFollow F f
        → IsLawfulWith (max count (beyond f)) (F ++ f ∷ []) }
    ensures only_next { (count : ℕ) (F : List Flow) (f : Flow) → IsLawfulWith count (F ++ f ∷ [])
        → IsLawfulWith (known F) F × MayFollow F f }
    ensures known { (F : List Flow) (f : Flow) → known (F ++ f ∷ []) ≡ max (known F) (beyond f) }
{}

/// One list alone has a set of ids in ascending order, so an answer is determined.
pub fn ascending_ids_are_one()
    ensures { (a b : List EntityId) → IsAscending (numbers a) → IsAscending (numbers b)
        → ((u : ℕ) → Contains (numbers a) u ↔ Contains (numbers b) u) → a ≡ b }
{}
