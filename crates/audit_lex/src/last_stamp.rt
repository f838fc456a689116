//! The stamp of a line before.
//!
//! All lines of an event have one stamp, so most lines have the stamp of the line before. A stamp that was read is kept
//! with its key, and a line that has the same one is known by one comparison: its numbers aren't read again. Nor are the
//! seconds, if those alone are the same.
ghost use Rattle.std.specs.Prelude.{◌≡◌, ◌<◌, ◌≤◌, ◌^◌, length, option_map, IfSome};
ghost use Rattle.audit_lex.specs.Header.{seconds_of, stamp_of};

use crate::header::{EventKey, seconds_of_stamp, stamp, stamp_after};
use crate::near::begins_alike;
use std::marker::Model;
use std::simd::prelude::*;

/// A stamp and what it says. A reader's answer is the same whatever stands in it: it only saves work.
#[derive(Drop)]
pub struct LastStamp {
    // A text that begins with the stamp.
    bytes: [u8; 32],
    // How long the stamp is up to its dot, with the dot, and what its seconds are.
    dot: usize,
    seconds: u64,
    // How long the stamp is, with its closing bracket, and its key.
    len: usize,
    key: EventKey,
}

impl Model for LastStamp {
    ghost use Rattle.audit_lex.specs.HeldStamps.{HoldsStamp};

    ghost Value = { Unit {0} };

    ghost view = { λ _. tt };

    ghost invariant = { λ a. HoldsStamp a.bytes a.dot a.seconds a.len a.key };
}

impl LastStamp {
    /// What is held before any line was read: the first stamp of all time, so that no reader asks whether one is held.
    pub fn none() -> LastStamp {
        LastStamp {
            bytes: *b"msg=audit(0.000:0)              ",
            dot: 12,
            seconds: 0,
            len: 18,
            key: EventKey { ms: 0, serial: 0 },
        }
    }

    /// The stamp's time and serial number, and what stands after it. A stamp that isn't the one that is held takes its
    /// place.
    pub(crate) fn stamp<'a>(&mut self, text: &'a [u8]) -> Option<(EventKey, &'a [u8])>
        ensures { option_map (λ p. (p.0, p.1.now)) result ≡ stamp_of text.now }
    {
        if text.len() < 32 {
            return stamp(text);
        }
        if begins_alike(&self.bytes, self.len, text) {
            return Some((self.key, &text[self.len..]));
        }
        let (seconds, after) = self.seconds(text)?;
        let (key, rest) = stamp_after(seconds, after)?;
        let len = text.len() - rest.len();
        // A longer stamp is a rare one, and is read anew in each line.
        if len <= 32 {
            self.bytes = u8x32::from_slice(text).to_array();
            self.dot = text.len() - after.len();
            self.seconds = seconds;
            self.len = len;
            self.key = key;
        }
        Some((key, rest))
    }

    // The stamp's seconds, and what stands after their dot. Many events have the seconds of the event before.
    #[inline(always)]
    fn seconds<'a>(&self, text: &'a [u8]) -> Option<(u64, &'a [u8])>
        requires { 32 ≤ length text.now }
        ensures read { option_map (λ p. (p.0, p.1.now)) result ≡ seconds_of text.now }
        ensures below { IfSome result (λ p. p.0 < 10 ^ 15) }
    {
        if begins_alike(&self.bytes, self.dot, text) {
            return Some((self.seconds, &text[self.dot..]));
        }
        seconds_of_stamp(text)
    }
}
