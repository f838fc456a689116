//! What ordering and undoing promise together. The functions do nothing; their contracts are laws.
ghost use Rattle.audit_order.specs.Turns.{LesserGoFirst, PastHaveGone, FullMemoryHasGone, AllHaveGone};
ghost use Rattle.audit_order.specs.Together.{EventsGoTogether};
ghost use Rattle.audit_order.specs.Own.{CallsCountInOrder, LaterCallsCountLater, SerialsGoInOrder, ForksGoFirst};
ghost use Rattle.audit_order.specs.Reads.{UndoesOrders, TextHasLines, RewritesByRules, AddsPeersByRules};

/// Undoing what orders a log gives the lines of the log and the ends and peers that were added, in some order.
pub fn ordered_logs_are_undone()
    ensures { UndoesOrders }
{}

/// If connections aren't apart, no peer is added.
pub fn no_peer_is_added_without_its_rule()
    ensures { AddsPeersByRules }
{}

/// Lines without a line feed that are written, each with a line feed after it, are the lines of what is written.
pub fn written_lines_are_lines()
    ensures { TextHasLines }
{}

/// If no rule is on, no line is rewritten.
pub fn nothing_is_rewritten_without_rules()
    ensures { RewritesByRules }
{}

/// Whenever a line of an ordered log was written, each line that had come and has a lesser place had been written before.
pub fn lesser_places_go_first()
    ensures { LesserGoFirst }
{}

/// Lines of an ordered log were written as soon as they were due: those whose places were past before a further line was read, and
/// those for which there was no memory, or that came before a node was started, before the line came that said so.
pub fn due_lines_have_gone()
    ensures past { PastHaveGone }
    ensures memory { FullMemoryHasGone }
    ensures starts { AllHaveGone }
{}

/// Once the first line of an event was written, only lines of that event were, and late ones, as long as a line waited that had come
/// by then.
pub fn events_go_together()
    ensures { EventsGoTogether }
{}

/// A call counts no earlier than the calls of its process, and the forks that began it, that were read before, as far as the clock had
/// come with those: than the latest of them, and than each since its node was started. And of two lines the one that counts no later and
/// has the lesser serial number was written first, unless it was late, or a fork that went early.
pub fn calls_keep_their_order()
    ensures counts { CallsCountInOrder }
    ensures later { LaterCallsCountLater }
    ensures goes { SerialsGoInOrder }
{}

/// Whenever a line was written that counts no earlier than a fork was entered, and after the calls of the process that forked, as the
/// calls of its child do, the fork had been written, if it had come. Forks don't wait so for one another.
pub fn children_stand_after_their_forks()
    ensures { ForksGoFirst }
{}
