//! What the places of lines promise, for callers to use. The functions do nothing; their contracts are laws.
ghost use Rattle.order_place.specs.Laws.{SeesOn, WritesOn, CountsTogether, KeepsOrder, ForksGoEarly, CountsAfterEntry, FilesDoNotWait, IsShared};

/// What is known of the processes and events of each node is what was seen of it, newest first.
pub fn places_look_back()
    ensures sees { SeesOn }
    ensures writes { WritesOn }
{}

/// The lines of an event count at one time, and go by one number, as long as it is held.
pub fn lines_of_an_event_count_together()
    ensures { CountsTogether }
{}

/// A call counts no earlier than the calls of its process before it and the forks that began it, as far as the clock had come with
/// those.
pub fn calls_of_a_process_keep_their_order()
    ensures { KeepsOrder }
{}

/// A fork goes right after its process's call before it, if it counts at the time of that, and else first of what counts at its
/// entry.
pub fn forks_go_early()
    ensures { ForksGoEarly }
{}

/// A line counts no earlier than its own time.
pub fn lines_count_after_their_entry()
    ensures { CountsAfterEntry }
{}

/// A read of what is known to be a regular file counts at most a tick after its entry, unless its process's call before it, or the
/// fork that began the process, counts later.
pub fn reads_of_files_do_not_wait()
    ensures { FilesDoNotWait }
{}

/// One event moves the clock at most as far as the window past the times of the others.
pub fn the_clock_is_shared()
    ensures { IsShared }
{}
