//! A trial: the log that a seed determines goes to the engine of each mode, and each of them gets a line.
//!
//! The log is made once, and the four engines borrow it in turn, so that two of them never stand in memory together. Their
//! history is the same, and a limit that it passes stops the first of them, before anything is written.
ghost use Rattle.std.specs.Prelude.{◌≡◌, ◌≤◌, ◌^◌, ◌∷◌, ◌++◌, [], OnOk, OnErr, IfOk, IfErr, List, ℕ, length, take};
ghost use Rattle.std.specs.Io.KnownBytes.{Appends};
ghost use Rattle.flow_base.specs.declared.limits.Limits.{Limits};
ghost use Rattle.outside.specs.Cause.{Rose};
ghost use Rattle.audit_lex.specs.History.{History};
ghost use Rattle.ingest.specs.StandsFor.{StandsFor};
ghost use Rattle.ingest.specs.Stops.{Fits, Stops};
ghost use Rattle.dialogue.specs.declared.halt.Halt.TheVariants as halt;
ghost use Rattle.dialogue.specs.Course.{GoesUp, HasCauses, IsDue};
ghost use Rattle.audit_cli.specs.Trials.{AreTotals, CountsBack, HasHistory, IsModeLine, IsNew, Tried, all_modes, settled, trial_history};

use crate::trial_line::{Totals, mode_line, size_of, totals_in};
use audit_gen::generate;
use dialogue::{Halt, halt_of, reply_of, settle};
use flow_base::{Bytes, EntityId, Limits};
use ingest::{Ingest, stops_stay, what_fits_never_stops};
use outside::{Sink, put_all};
use reach_model::Mode;
use reach_rows::{Plain, Question, Reducer, VecRows};
use reduce_continuous::Continuous;
use reduce_source::Sources;
use report_json::Ask;
use std::alloc::Global;
use table_salt::Salt;

/// Tries every mode on the log of this seed and number of events, and writes their lines.
pub fn trial<O: Sink>(
    alloc: Global,
    salt: Salt,
    limits: &Limits,
    seed: u64,
    events: u32,
    out: &mut O,
) -> Result<(), Halt>
    ensures tried { Tried limits.now (trial_history seed events) all_modes
        (O.written out.old) (O.written out.new) result }
    ensures causes { IfErr result
        (HasCauses ⊥ (Rose (O.faults out.old) (O.faults out.new) (O.spent out.new)) ⊥ ⊥ ⊥) }
{
    let log = generate(alloc, seed, events)?;
    try_modes(alloc, salt, limits, log.as_slice(), out)
}

// Tries every mode on a log.
fn try_modes<O: Sink>(
    alloc: Global,
    salt: Salt,
    limits: &Limits,
    log: &[u8],
    out: &mut O,
) -> Result<(), Halt>
    ensures tried { Tried limits.now (settled log.now) all_modes
        (O.written out.old) (O.written out.new) result }
    ensures causes { IfErr result
        (HasCauses ⊥ (Rose (O.faults out.old) (O.faults out.new) (O.spent out.new)) ⊥ ⊥ ⊥) }
{
    what_fits_never_stops();
    let _plain = try_mode(alloc, salt, limits, Plain::new(), log, out)?;
    let _continuous = try_mode(alloc, salt, limits, Continuous::new(alloc, salt), log, out)?;
    let _full = try_mode(
        alloc,
        salt,
        limits,
        reduce_full::Full::new(alloc, salt),
        log,
        out,
    )?;
    try_mode(alloc, salt, limits, Sources::new(alloc), log, out)
}

// Tries the mode of these new tables on a log, and writes its line.
fn try_mode<R: Reducer + Drop, O: Sink>(
    alloc: Global,
    salt: Salt,
    limits: &Limits,
    reducer: R,
    log: &[u8],
    out: &mut O,
) -> Result<(), Halt>
    requires stands { R.stands_for reducer [] }
    requires holds { R.holds reducer [] }
    ensures tried { Tried limits.now (settled log.now) (R.mode ∷ [])
        (O.written out.old) (O.written out.new) result }
    ensures causes { IfErr result
        (HasCauses ⊥ (Rose (O.faults out.old) (O.faults out.new) (O.spent out.new)) ⊥ ⊥ ⊥) }
    ensures counts { GoesUp
        (O.faults out.old) (O.faults out.new) (O.spent out.old) (O.spent out.new) }
{
    let line = line_in(alloc, salt, limits, reducer, log)?;
    match put_all(out, line.as_slice()) {
        Ok(()) => Ok(()),
        Err(_) => Err(Halt::WriteFault),
    }
}

// The line of the mode of these new tables after a log and a settle.
fn line_in<R: Reducer + Drop>(
    alloc: Global,
    salt: Salt,
    limits: &Limits,
    reducer: R,
    log: &[u8],
) -> Result<Bytes, Halt>
    requires stands { R.stands_for reducer [] }
    requires holds { R.holds reducer [] }
    ensures line { IfOk result (λ line. IsModeLine R.mode limits.now (settled log.now) line) }
    ensures fits { OnOk result (Fits limits.now (settled log.now)) }
    ensures due { IfErr result (IsDue (Stops limits.now (settled log.now))) }
    ensures causes { IfErr result (HasCauses ⊥ ⊥ ⊥ ⊥ ⊥) }
{
    let mode = reducer.mode();
    let mut engine = Ingest::new(alloc, salt, limits, reducer, VecRows::new(alloc));
    line_after(alloc, mode, &mut engine, log)
}

// The line of a new engine after a log and a settle.
fn line_after<R: Reducer>(
    alloc: Global,
    mode: Mode,
    engine: &mut Ingest<R, VecRows>,
    log: &[u8],
) -> Result<Bytes, Halt>
    requires mode { mode ≡ R.mode }
    requires begun { IsNew engine.old }
    ensures line { (limits : Limits) → StandsFor limits engine.old []
        → IfOk result (λ line. IsModeLine R.mode limits (settled log.now) line) }
    ensures fits { (limits : Limits) → StandsFor limits engine.old []
        → OnOk result (Fits limits (settled log.now)) }
    ensures due { (limits : Limits) → StandsFor limits engine.old []
        → IfErr result (IsDue (Stops limits (settled log.now))) }
    ensures causes { IfErr result (HasCauses ⊥ ⊥ ⊥ ⊥ ⊥) }
{
    follow(engine, log)?;
    line_now(alloc, mode, engine)
}

// Gives a new engine all of a log, and settles.
fn follow<R: Reducer>(engine: &mut Ingest<R, VecRows>, log: &[u8]) -> Result<(), Halt>
    ensures stands { (limits : Limits) → StandsFor limits engine.old []
        → OnOk result (StandsFor limits engine.new (settled log.now)) }
    ensures due { (limits : Limits) → StandsFor limits engine.old []
        → IfErr result (IsDue (Stops limits (settled log.now))) }
    ensures causes { IfErr result (HasCauses ⊥ ⊥ ⊥ ⊥ ⊥) }
{
    stops_stay();
    match engine.feed(log) {
        Ok(()) => {}
        Err(stop) => return Err(halt_of(stop.why)),
    }
    let _events = settle(engine)?;
    Ok(())
}

// The line of an engine at its history.
fn line_now<R: Reducer>(
    alloc: Global,
    mode: Mode,
    engine: &mut Ingest<R, VecRows>,
) -> Result<Bytes, Halt>
    requires mode { mode ≡ R.mode }
    requires stands { HasHistory engine.old }
    ensures line { (limits : Limits) (h : History) → StandsFor limits engine.old h
        → IfOk result (λ line. IsModeLine R.mode limits h line) }
    ensures causes { IfErr result (HasCauses ⊥ ⊥ ⊥ ⊥ ⊥) }
    ensures memory { IfErr result (λ why. why ≡ halt.NoMemory) }
{
    let totals = totals_now(engine)?;
    let back = count_back(engine, totals.known)?;
    let line = mode_line(alloc, mode, &totals, back)?;
    Ok(line)
}

// The totals of an engine at its history.
fn totals_now<R: Reducer>(engine: &mut Ingest<R, VecRows>) -> Result<Totals, Halt>
    ensures totals { (limits : Limits) (h : History) → StandsFor limits engine.old h
        → IfOk result (λ totals. AreTotals R.mode limits h totals) }
    ensures stands { (limits : Limits) (h : History) → StandsFor limits engine.old h
        → OnOk result (StandsFor limits engine.new h) }
    ensures causes { IfErr result (HasCauses ⊥ ⊥ ⊥ ⊥ ⊥) }
    ensures memory { IfErr result (λ why. why ≡ halt.NoMemory) }
{
    let reply = reply_of(engine, &Ask::Stat)?;
    Ok(totals_in(&reply))
}

// How many objects or sources the last of this many known objects can have come from.
fn count_back<R: Reducer>(engine: &mut Ingest<R, VecRows>, known: u64) -> Result<u64, Halt>
    requires { known ≤ 2 ^ 32 }
    ensures reached { (limits : Limits) (h : History) → StandsFor limits engine.old h
        → IfOk result (λ back. CountsBack R.mode limits h known back) }
    ensures causes { IfErr result (HasCauses ⊥ ⊥ ⊥ ⊥ ⊥) }
    ensures memory { IfErr result (λ why. why ≡ halt.NoMemory) }
{
    if known == 0 {
        return Ok(0);
    }
    let reply = reply_of(
        engine,
        &Ask::Question(Question::Back {
            of: EntityId((known - 1) as u32),
            until: None,
        }),
    )?;
    Ok(size_of(&reply))
}
