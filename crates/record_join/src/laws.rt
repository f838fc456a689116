//! What holds of the events of every list of records.
ghost use Rattle.std.specs.Prelude.{◌≡◌, ◌++◌, List, None, option_to_list};
ghost use Rattle.record_join.specs.Events.{Joining, ripe_key, next_event, next_left};
ghost use Rattle.record_join.specs.History.{Step, start, events, released_after, left_after, state, IsDated, IsInOrder, HoldsAll};
ghost use Rattle.record_join.specs.PutBack.{IsSound, entered, fresh, put_back};
ghost use Rattle.record_join.specs.StandsFor.{Joiner, StandsFor};
ghost use Rattle.flow_base.specs.declared.limits.Limits.{Limits};

/// If a list of steps ends with a settle and all was in order, each event holds the records of
/// its key in the order of arrival, no record is missing, and the keys ascend.
pub fn settled_events_hold_all()
    ensures { (limits : Limits) (steps : List Step) → IsInOrder limits steps
        → HoldsAll steps (events limits start steps) }
{}

/// A step's releases are the next one and then the others, until the least group isn't ripe.
pub fn releases_end()
    ensures ends { (limits : Limits) (s : Joining) → ripe_key limits (left_after limits s) ≡ None }
    ensures events { (limits : Limits) (s : Joining)
        → released_after limits s ≡ option_to_list (next_event limits s)
        ++ released_after limits (next_left limits s) }
    ensures left { (limits : Limits) (s : Joining)
        → left_after limits s ≡ left_after limits (next_left limits s) }
{}

/// Effective times and lateness are those of the events alone.
pub fn events_are_dated()
    ensures { (limits : Limits) (steps : List Step) → IsDated (events limits start steps) }
{}

/// A joiner that is made again by `resume`, and by `take` of the records and ends of another's groups,
/// stands for what the other stands for.
pub fn a_joiner_is_made_again()
    ensures { (limits : Limits) (s : Joining) (join again : Joiner) → IsSound limits s
        → StandsFor limits join s → StandsFor limits again
        (entered limits (fresh s.clock) (put_back join.groups)) → StandsFor limits again s }
{}

/// What waits after any steps is sound.
pub fn states_are_sound()
    ensures { (limits : Limits) (steps : List Step) → IsSound limits (state limits start steps) }
{}
