//! What a run takes of its log is saved as the run goes on: rows of a store on its disk, and rows in memory not at all.
ghost use Rattle.std.specs.Prelude.{Bool, ◌≡◌, ◌≤◌, ◌+◌, ℕ, List, Option, Some, length, take, OnOk, IfOk, IfErr};
ghost use Rattle.flow_base.specs.declared.limits.Limits.{Limits};
ghost use Rattle.outside.specs.Cause.{Rose};
ghost use Rattle.reach_model.specs.declared.modes.Mode.{Mode};
ghost use Rattle.ingest.specs.Asking.{StandsStill};
ghost use Rattle.ingest.specs.Events.{events_of};
ghost use Rattle.ingest.specs.Parts.{Engine};
ghost use Rattle.ingest.specs.StandsFor.{StandsFor};
ghost use Rattle.ingest.specs.Stops.{Stops};
ghost use Rattle.report_json.specs.declared.reply.Reply.TheVariants as reply;
ghost use Rattle.dialogue.specs.declared.halt.Halt.{Halt};
ghost use Rattle.dialogue.specs.declared.halt.Halt.TheVariants as halt;
ghost use Rattle.dialogue.specs.Dialogue.{Moment, settled_on, taken_on};
ghost use Rattle.dialogue.specs.Course.{At, GoesUp, HasCauses, IsDue, kind_of, never};
ghost use Rattle.dialogue.specs.Saves.{AddsLawfully, KeepsPace, LacksLawfully, ReadsLawfully, SavesLawfully, Start, lack_of};

use crate::halt::Halt;
use crate::log::take_log;
use crate::session::Session;
use crate::turn::settle;
use batch_log::a_disk_reads_in_one_way;
use ingest::{Ingest, stops_stay, what_can_commit_still_can, what_is_saved_stays_saved};
use outside::{Disk, Source};
use reach_rows::{Keep, Reducer, VecRows};
use reduced_store::Store;
use report_json::Reply;
use row_codec::payloads_are_apart;

/// Rows that a run saves as it goes.
pub trait Saves: Keep {
    /// No save has failed.
    ghost can: { Self → Type 0 };

    /// A save may pass a limit.
    ghost limited: { Type 0 };

    /// What holds of an engine and what was saved of it at a moment of a run that began so.
    ghost holds: { Start Self → Limits → Engine Self → Moment → Type 0 };

    /// All that came up to a moment is saved.
    ghost all: { Start Self → Limits → Self → Moment → Type 0 };

    /// What is left of a run that halted before a moment.
    ghost ends: { Start Self → Limits → Self → Moment → Halt → Type 0 };

    /// Of the bytes that were read of a log, at most this many aren't saved.
    ghost lacks: { Start Self → Limits → Mode → Self → Option (List ℕ) → ℕ → Type 0 };

    /// Since the start, at most this many batches were put on the disk.
    ghost adds: { Start Self → Limits → Self → ℕ → Type 0 };

    /// The second state is the first one after calls that didn't fail.
    ghost uses: { Self → Self → Type 0 };

    /// The count of failed calls rose from one state to the other.
    ghost rose: { Self → Self → Type 0 };

    /// The rows may not be observable, so a read may find no row at a place.
    ghost hidden: { Self → Type 0 };

    /// Saves all that the engine has taken.
    fn save<R: Reducer>(engine: &mut Ingest<R, Self>) -> Result<(), Halt>
        requires can { can engine.old.joined.keep }
        ensures can { OnOk result (can engine.new.joined.keep) }
        ensures holds { (start : Start Self) (limits : Limits) (m : Moment) → m.mode ≡ R.mode
            → StandsFor limits engine.old m.history → holds start limits engine.old m
            → OnOk result (holds start limits engine.new m) }
        ensures all { (start : Start Self) (limits : Limits) (m : Moment) → m.mode ≡ R.mode
            → StandsFor limits engine.old m.history → holds start limits engine.old m
            → OnOk result (all start limits engine.new.joined.keep m) }
        ensures ends { (start : Start Self) (limits : Limits) (m : Moment) → m.mode ≡ R.mode
            → StandsFor limits engine.old m.history → holds start limits engine.old m
            → IfErr result (ends start limits engine.new.joined.keep m) }
        ensures lacks { (start : Start Self) (limits : Limits) (left : Option (List ℕ))
            (m : Moment) (most : ℕ) → m.mode ≡ R.mode
            → StandsFor limits engine.old m.history → holds start limits engine.old m
            → left ≡ Some m.log → lacks start limits R.mode engine.old.joined.keep left most
            → lacks start limits R.mode engine.new.joined.keep left (lack_of result 0 most) }
        ensures adds { (start : Start Self) (limits : Limits) (m : Moment) (n : ℕ)
            → holds start limits engine.old m → adds start limits engine.old.joined.keep n
            → adds start limits engine.new.joined.keep (n + 1) }
        ensures stands { StandsStill engine.old engine.new }
        ensures due { IfErr result (IsDue never) }
        ensures causes { IfErr result
            (HasCauses ⊥ ⊥ (rose engine.old.joined.keep engine.new.joined.keep) ⊥ limited) }
        ensures uses { uses engine.old.joined.keep engine.new.joined.keep };

    /// How what is said of saving belongs together.
    fn saves_lawfully()
        ensures { SavesLawfully Self.alike can holds ends uses rose };

    /// How reads of the rows belong to what is said of saving.
    fn reads_lawfully()
        ensures { ReadsLawfully Self.rows Self.faults Self.spent hidden uses rose };

    /// How what is said of lacking belongs together.
    fn lacks_lawfully()
        ensures { LacksLawfully Self.alike lacks };

    /// How what is said of adding belongs together.
    fn adds_lawfully()
        ensures { AddsLawfully Self.alike adds };
}

impl Saves for VecRows {
    ghost use Rattle.std.specs.Prelude.{◌≡◌};
    ghost use Rattle.dialogue.specs.Saves.{adds_nothing, can_always, hides_none, lacks_nothing, nothing_cut, nothing_more, nothing_put, rises_never, uses_none};

    ghost can = { can_always };

    ghost limited = { ⊥ };

    ghost holds = { nothing_more };

    ghost all = { nothing_put };

    ghost ends = { nothing_cut };

    ghost lacks = { lacks_nothing };

    ghost adds = { adds_nothing };

    ghost uses = { uses_none };

    ghost rose = { rises_never };

    ghost hidden = { hides_none };

    fn save<R: Reducer>(_engine: &mut Ingest<R, VecRows>) -> Result<(), Halt> {
        Ok(())
    }

    fn saves_lawfully() {}

    fn reads_lawfully() {}

    fn lacks_lawfully() {}

    fn adds_lawfully() {}
}

impl<D: Disk> Saves for Store<D> {
    ghost use Rattle.std.specs.Prelude.{◌≡◌, ⊤};
    ghost use Rattle.kept_flows.specs.Committing.{CanCommit};
    ghost use Rattle.dialogue.specs.Saves.{AddsToStore, IsAllPutAway, IsCutShort, IsHiddenIn, IsPutAway, LacksInStore, RoseIn, UsesStore};

    ghost can = { CanCommit D.state };

    ghost limited = { ⊤ };

    ghost holds = { IsPutAway D.state };

    ghost all = { IsAllPutAway D.state };

    ghost ends = { IsCutShort D.state };

    ghost lacks = { LacksInStore D.state };

    ghost adds = { AddsToStore D.state };

    ghost uses = { UsesStore D.state D.faults D.spent };

    ghost rose = { RoseIn D.faults D.spent };

    ghost hidden = { IsHiddenIn D.state };

    fn save<R: Reducer>(engine: &mut Ingest<R, Store<D>>) -> Result<(), Halt> {
        a_disk_reads_in_one_way();
        payloads_are_apart();
        engine.commit()?;
        Ok(())
    }

    fn saves_lawfully() {
        what_can_commit_still_can::<D>();
        what_is_saved_stays_saved::<D>();
    }

    fn reads_lawfully() {}

    fn lacks_lawfully() {}

    fn adds_lawfully() {}
}

// This many more bytes of the log were taken. All is saved if they fill a batch.
fn fill<R: Reducer, K: Saves>(session: &mut Session<R, K>, taken: u64) -> Result<(), Halt>
    requires within { session.old.unsaved + taken ≤ session.old.batch }
    requires can { K.can session.old.engine.joined.keep }
    ensures can { OnOk result (K.can session.new.engine.joined.keep) }
    ensures at { (takes : Bool) (start : Start K) (limits : Limits) (left : Option (List ℕ))
        (m : Moment)
        → At (kind_of R.mode takes (K.holds start limits)) limits session.old.engine left m
        → OnOk result
        (At (kind_of R.mode takes (K.holds start limits)) limits session.new.engine left m) }
    ensures ends { (takes : Bool) (start : Start K) (limits : Limits) (left : Option (List ℕ))
        (m : Moment)
        → At (kind_of R.mode takes (K.holds start limits)) limits session.old.engine left m
        → IfErr result (K.ends start limits session.new.engine.joined.keep m) }
    ensures lacks { (takes : Bool) (start : Start K) (limits : Limits) (left : Option (List ℕ))
        (m : Moment)
        → At (kind_of R.mode takes (K.holds start limits)) limits session.old.engine left m
        → K.lacks start limits R.mode session.old.engine.joined.keep left
        (session.old.unsaved + taken)
        → K.lacks start limits R.mode session.new.engine.joined.keep left
        (lack_of result session.new.unsaved session.old.batch) }
    ensures adds { (takes : Bool) (start : Start K) (limits : Limits) (left : Option (List ℕ))
        (m : Moment) (most : ℕ)
        → At (kind_of R.mode takes (K.holds start limits)) limits session.old.engine left m
        → KeepsPace (K.adds start limits) session.old.batch session.old.engine.joined.keep
        (session.old.unsaved + taken) left most
        → KeepsPace (K.adds start limits) session.old.batch session.new.engine.joined.keep
        (lack_of result session.new.unsaved 0) left most }
    ensures batch { session.new.batch ≡ session.old.batch }
    ensures due { IfErr result (IsDue never) }
    ensures causes { IfErr result (HasCauses ⊥ ⊥
        (K.rose session.old.engine.joined.keep session.new.engine.joined.keep) ⊥ K.limited) }
    ensures uses { K.uses session.old.engine.joined.keep session.new.engine.joined.keep }
{
    K::saves_lawfully();
    K::lacks_lawfully();
    K::adds_lawfully();
    let unsaved = session.unsaved + taken;
    if unsaved < session.batch {
        session.unsaved = unsaved;
        return Ok(());
    }
    K::save(&mut session.engine)?;
    session.unsaved = 0;
    Ok(())
}

/// Takes the next `most` bytes of the log, or what is left, and says how many they were. Whenever they
/// fill a batch, all is saved.
pub fn take<R: Reducer, K: Saves, L: Source>(
    session: &mut Session<R, K>,
    log: &mut L,
    most: u64,
) -> Result<u64, Halt>
    requires can { K.can session.old.engine.joined.keep }
    ensures can { OnOk result (K.can session.new.engine.joined.keep) }
    ensures took { (takes : Bool) (start : Start K) (limits : Limits) (m : Moment)
        → At (kind_of R.mode takes (K.holds start limits)) limits session.old.engine
        (L.left log.old) m
        → OnOk result (At (kind_of R.mode takes (K.holds start limits)) limits
        session.new.engine (L.left log.new) (taken_on most m)) }
    ensures count { (takes : Bool) (start : Start K) (limits : Limits) (m : Moment)
        → At (kind_of R.mode takes (K.holds start limits)) limits session.old.engine
        (L.left log.old) m
        → IfOk result (λ n. n ≡ length (take most m.log)) }
    ensures due { (takes : Bool) (start : Start K) (limits : Limits) (m : Moment)
        → At (kind_of R.mode takes (K.holds start limits)) limits session.old.engine
        (L.left log.old) m
        → IfErr result (IsDue (Stops limits (taken_on most m).history)) }
    ensures ends { (takes : Bool) (start : Start K) (limits : Limits) (m : Moment)
        → At (kind_of R.mode takes (K.holds start limits)) limits session.old.engine
        (L.left log.old) m
        → IfErr result (K.ends start limits session.new.engine.joined.keep (taken_on most m)) }
    ensures lacks { (takes : Bool) (start : Start K) (limits : Limits) (m : Moment)
        → At (kind_of R.mode takes (K.holds start limits)) limits session.old.engine
        (L.left log.old) m
        → K.lacks start limits R.mode session.old.engine.joined.keep (L.left log.old)
        session.old.unsaved
        → K.lacks start limits R.mode session.new.engine.joined.keep (L.left log.new)
        (lack_of result session.new.unsaved session.old.batch) }
    ensures adds { (takes : Bool) (start : Start K) (limits : Limits) (m : Moment) (most : ℕ)
        → At (kind_of R.mode takes (K.holds start limits)) limits session.old.engine
        (L.left log.old) m
        → KeepsPace (K.adds start limits) session.old.batch session.old.engine.joined.keep
        session.old.unsaved (L.left log.old) most
        → KeepsPace (K.adds start limits) session.old.batch session.new.engine.joined.keep
        (lack_of result session.new.unsaved 0) (L.left log.new) most }
    ensures batch { session.new.batch ≡ session.old.batch }
    ensures causes { IfErr result
        (HasCauses (Rose (L.faults log.old) (L.faults log.new) (L.spent log.new)) ⊥
        (K.rose session.old.engine.joined.keep session.new.engine.joined.keep) ⊥ K.limited) }
    ensures uses { K.uses session.old.engine.joined.keep session.new.engine.joined.keep }
    ensures counts { GoesUp
        (L.faults log.old) (L.faults log.new) (L.spent log.old) (L.spent log.new) }
{
    stops_stay();
    K::saves_lawfully();
    K::lacks_lawfully();
    K::adds_lawfully();
    let mut count: u64 = 0;
    while count < most {
        let room = (most - count).min(session.batch - session.unsaved);
        let taken = take_log(&mut session.engine, log, session.piece.as_mut_slice(), room)?;
        fill(session, taken)?;
        count += taken;
        if taken < room {
            return Ok(count);
        }
    }
    Ok(count)
}

/// Settles, saves all, and says how many events are released.
pub fn settle_all<R: Reducer, K: Saves>(session: &mut Session<R, K>) -> Result<Reply, Halt>
    requires can { K.can session.old.engine.joined.keep }
    ensures can { OnOk result (K.can session.new.engine.joined.keep) }
    ensures settled { (takes : Bool) (start : Start K) (limits : Limits)
        (left : Option (List ℕ)) (m : Moment)
        → At (kind_of R.mode takes (K.holds start limits)) limits session.old.engine left m
        → OnOk result (At (kind_of R.mode takes (K.holds start limits)) limits
        session.new.engine left (settled_on m)) }
    ensures all { (takes : Bool) (start : Start K) (limits : Limits)
        (left : Option (List ℕ)) (m : Moment)
        → At (kind_of R.mode takes (K.holds start limits)) limits session.old.engine left m
        → OnOk result (K.all start limits session.new.engine.joined.keep (settled_on m)) }
    ensures reply { (takes : Bool) (start : Start K) (limits : Limits)
        (left : Option (List ℕ)) (m : Moment)
        → At (kind_of R.mode takes (K.holds start limits)) limits session.old.engine left m
        → IfOk result (λ r. r ≡ reply.Settle (length (events_of limits (settled_on m).history))) }
    ensures due { (takes : Bool) (start : Start K) (limits : Limits)
        (left : Option (List ℕ)) (m : Moment)
        → At (kind_of R.mode takes (K.holds start limits)) limits session.old.engine left m
        → IfErr result (IsDue (Stops limits (settled_on m).history)) }
    ensures ends { (takes : Bool) (start : Start K) (limits : Limits)
        (left : Option (List ℕ)) (m : Moment)
        → At (kind_of R.mode takes (K.holds start limits)) limits session.old.engine left m
        → IfErr result (K.ends start limits session.new.engine.joined.keep (settled_on m)) }
    ensures lacks { (takes : Bool) (start : Start K) (limits : Limits)
        (left : Option (List ℕ)) (m : Moment)
        → At (kind_of R.mode takes (K.holds start limits)) limits session.old.engine left m
        → K.lacks start limits R.mode session.old.engine.joined.keep left session.old.unsaved
        → K.lacks start limits R.mode session.new.engine.joined.keep left
        (lack_of result session.new.unsaved session.old.batch) }
    ensures adds { (takes : Bool) (start : Start K) (limits : Limits)
        (left : Option (List ℕ)) (m : Moment) (most : ℕ)
        → At (kind_of R.mode takes (K.holds start limits)) limits session.old.engine left m
        → KeepsPace (K.adds start limits) session.old.batch session.old.engine.joined.keep
        session.old.unsaved left most
        → KeepsPace (K.adds start limits) session.old.batch session.new.engine.joined.keep
        (lack_of result session.new.unsaved 0) left (most + session.old.batch) }
    ensures batch { session.new.batch ≡ session.old.batch }
    ensures causes { IfErr result (HasCauses ⊥ ⊥
        (K.rose session.old.engine.joined.keep session.new.engine.joined.keep) ⊥ K.limited) }
    ensures uses { K.uses session.old.engine.joined.keep session.new.engine.joined.keep }
{
    K::saves_lawfully();
    K::lacks_lawfully();
    K::adds_lawfully();
    let reply = settle(&mut session.engine)?;
    K::save(&mut session.engine)?;
    session.unsaved = 0;
    Ok(reply)
}
