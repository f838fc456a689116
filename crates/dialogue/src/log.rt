//! Bytes of the log go to the engine, as many as are asked for and no more.
ghost use Rattle.std.specs.Prelude.{◌≡◌, ◌≤◌, ◌<◌, ℕ, List, length, take, drop, Some, IfOk, IfErr, OnOk};
ghost use Rattle.dialogue.specs.declared.halt.Halt.TheVariants as halt;
ghost use Rattle.flow_base.specs.declared.limits.Limits.{Limits};
ghost use Rattle.outside.specs.Cause.{Rose};
ghost use Rattle.ingest.specs.Stops.{Stops};
ghost use Rattle.dialogue.specs.Dialogue.{Moment, taken_on};
ghost use Rattle.dialogue.specs.Course.{CountsOn, GoesUp, HasCauses, IsDue, IsPart, StandsAt};
ghost use Rattle.dialogue.specs.Saves.{LeavesAllBut, count_of};

use crate::halt::{Halt, halt_of};
use ingest::{Ingest, stops_stay};
use outside::Source;
use reach_rows::{Keep, Reducer};

// Takes the next bytes of the log, at most as many as the buffer holds. It takes none only at the
// end.
fn take_piece<R: Reducer, K: Keep, L: Source>(
    engine: &mut Ingest<R, K>,
    log: &mut L,
    buf: &mut [u8],
) -> Result<usize, Halt>
    requires { 0 < length buf.old }
    ensures within { IfOk result (λ n. n ≤ length buf.old) }
    ensures took { (limits : Limits) (m : Moment)
        → StandsAt limits engine.old (L.left log.old) m
        → IfOk result
        (λ n. StandsAt limits engine.new (L.left log.new) (taken_on n m)) }
    ensures some { (limits : Limits) (m : Moment)
        → StandsAt limits engine.old (L.left log.old) m
        → IfOk result (λ n. IsPart n m.log) }
    ensures due { (limits : Limits) (m : Moment)
        → StandsAt limits engine.old (L.left log.old) m
        → IfErr result (IsDue (Stops limits (taken_on (length buf.old) m).history)) }
    ensures causes { IfErr result
        (HasCauses (Rose (L.faults log.old) (L.faults log.new) (L.spent log.new)) ⊥ ⊥ ⊥ ⊥) }
    ensures left { (bytes : List ℕ) → L.left log.old ≡ Some bytes
        → LeavesAllBut (count_of result (length buf.old)) bytes (L.left log.new) }
    ensures part { IfOk result (CountsOn engine.old.part engine.new.part) }
    ensures alike { K.alike engine.old.joined.keep engine.new.joined.keep }
    ensures marked { engine.new.joined.tables.marked ≡ engine.old.joined.tables.marked }
    ensures counts { GoesUp
        (L.faults log.old) (L.faults log.new) (L.spent log.old) (L.spent log.new) }
{
    stops_stay();
    let count = match log.read(buf) {
        Ok(count) => count,
        Err(_) => return Err(Halt::ReadFault),
    };
    match engine.feed(&buf[..count]) {
        Ok(()) => Ok(count),
        Err(stop) => Err(halt_of(stop.why)),
    }
}

/// Takes the next `most` bytes of the log, or what is left, and says how many they were. Each read
/// takes at most as many as the buffer holds.
pub fn take_log<R: Reducer, K: Keep, L: Source>(
    engine: &mut Ingest<R, K>,
    log: &mut L,
    buf: &mut [u8],
    most: u64,
) -> Result<u64, Halt>
    requires { 0 < length buf.old }
    ensures within { IfOk result (λ n. n ≤ most) }
    ensures took { (limits : Limits) (m : Moment)
        → StandsAt limits engine.old (L.left log.old) m
        → IfOk result
        (λ _. StandsAt limits engine.new (L.left log.new) (taken_on most m)) }
    ensures count { (limits : Limits) (m : Moment)
        → StandsAt limits engine.old (L.left log.old) m
        → IfOk result (λ n. n ≡ length (take most m.log)) }
    ensures due { (limits : Limits) (m : Moment)
        → StandsAt limits engine.old (L.left log.old) m
        → IfErr result (IsDue (Stops limits (taken_on most m).history)) }
    ensures causes { IfErr result
        (HasCauses (Rose (L.faults log.old) (L.faults log.new) (L.spent log.new)) ⊥ ⊥ ⊥ ⊥) }
    ensures left { (bytes : List ℕ) → L.left log.old ≡ Some bytes
        → LeavesAllBut (count_of result most) bytes (L.left log.new) }
    ensures part { IfOk result (CountsOn engine.old.part engine.new.part) }
    ensures alike { K.alike engine.old.joined.keep engine.new.joined.keep }
    ensures marked { engine.new.joined.tables.marked ≡ engine.old.joined.tables.marked }
    ensures counts { GoesUp
        (L.faults log.old) (L.faults log.new) (L.spent log.old) (L.spent log.new) }
{
    stops_stay();
    let mut count: u64 = 0;
    while count < most {
        let room = (most - count).min(buf.len() as u64) as usize;
        let taken = take_piece(engine, log, &mut buf[..room])?;
        if taken == 0 {
            return Ok(count);
        }
        count += taken as u64;
    }
    Ok(count)
}

/// Passes over the next `most` bytes of the log, or what is left, and says how many they were.
pub fn pass_over<L: Source>(log: &mut L, buf: &mut [u8], most: u64) -> Result<u64, Halt>
    requires { 0 < length buf.old }
    ensures count { (bytes : List ℕ) → L.left log.old ≡ Some bytes
        → IfOk result (λ n. n ≡ length (take most bytes)) }
    ensures passed { (bytes : List ℕ) → L.left log.old ≡ Some bytes
        → OnOk result (L.left log.new ≡ Some (drop most bytes)) }
    ensures left { (bytes : List ℕ) → L.left log.old ≡ Some bytes
        → LeavesAllBut most bytes (L.left log.new) }
    ensures due { IfErr result (λ why. why ≡ halt.ReadFault) }
    ensures causes { IfErr result
        (HasCauses (Rose (L.faults log.old) (L.faults log.new) (L.spent log.new)) ⊥ ⊥ ⊥ ⊥) }
    ensures counts { GoesUp
        (L.faults log.old) (L.faults log.new) (L.spent log.old) (L.spent log.new) }
{
    let mut passed: u64 = 0;
    while passed < most {
        let room = (most - passed).min(buf.len() as u64) as usize;
        let count = match log.read(&mut buf[..room]) {
            Ok(count) => count,
            Err(_) => return Err(Halt::ReadFault),
        };
        if count == 0 {
            return Ok(passed);
        }
        passed += count as u64;
    }
    Ok(passed)
}
