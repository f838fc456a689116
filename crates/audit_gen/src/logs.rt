//! A log, event by event.
ghost use Rattle.std.specs.Prelude.{◌≡◌, IfOk, string_bytes};
ghost use Rattle.audit_gen.specs.Logs as logs;
ghost use Rattle.audit_gen.specs.Logs.{event_text, generated};

use crate::deeds::{deed_of, pid_of};
use crate::lines::{lines_of, stamp_text};
use flow_base::{Bytes, NoMemory};
use rand_core::utils::NextWord;
use rand_pcg::Lcg64Xsh32;
use std::alloc::{AllocError, Global};

/// The log of this many events by this 64-bit seed, in just as much memory as it has bytes: its lines are made twice,
/// first to count them.
pub fn generate(alloc: Global, seed: u64, events: u32) -> Result<Bytes, NoMemory>
    ensures { IfOk result (λ log. log ≡ generated seed events) }
{
    let mut words = generator_of(seed);
    let mut log = Vec::with_capacity(alloc, size_of(alloc, seed, events)?)?;
    for number in 0..events {
        let text = event_of(alloc, number, words.next_word())?;
        log.extend_from_slice(text.as_bytes())?;
    }
    Ok(Bytes::from_vec(log))
}

// How many bytes the log has: a guess as far as proofs go, since room is all that it is for.
fn size_of(alloc: Global, seed: u64, events: u32) -> Result<usize, AllocError> {
    let mut words = generator_of(seed);
    let mut size = 0usize;
    for number in 0..events {
        let text = event_of(alloc, number, words.next_word())?;
        size = size.saturating_add(text.len());
    }
    Ok(size)
}

// The generator that gives the words of a log, by its 64-bit seed.
fn generator_of(seed: u64) -> Lcg64Xsh32
    ensures { result ≡ logs.generator_of seed }
{
    Lcg64Xsh32::new(seed, 1)
}

// The lines of an event.
fn event_of(alloc: Global, number: u32, word: u32) -> Result<String, AllocError>
    ensures { IfOk result (λ text. string_bytes text ≡ event_text number word) }
{
    let number = u64::from(number);
    let stamp = stamp_text(alloc, 1_000_000 + number, number + 1)?;
    lines_of(alloc, &stamp, pid_of(word), deed_of(word))
}
