//! Where an event counts among others.
ghost use Rattle.std.specs.Prelude.{◌≡◌};
ghost use Rattle.order_place.specs.Places.{later_of, fork_number};

/// The time at which an event counts, and the serial number by which it goes among those that count then.
#[derive(Clone, Copy, Debug, PartialEq, Eq)]
pub struct Slot {
    pub time: u64,
    pub goes_by: u32,
}

impl Slot {
    /// The later of two, if there are two. Of two that count at one time it has the greater number.
    pub fn later_of(self, before: Option<Slot>) -> Slot
        ensures { result ≡ later_of self before }
    {
        match before {
            None => self,
            Some(before) => {
                if self.time == before.time {
                    Slot {
                        time: self.time,
                        goes_by: self.goes_by.max(before.goes_by),
                    }
                } else if self.time < before.time {
                    before
                } else {
                    self
                }
            }
        }
    }
}

/// The number by which a fork goes: that of its process's call before it if that counts at the same time, and else 0; but no greater
/// one than its own.
pub fn fork_number(time: u64, serial: u32, before: Option<Slot>) -> u32
    ensures { result ≡ fork_number time serial before }
{
    match before {
        None => 0,
        Some(before) => {
            if time == before.time {
                serial.min(before.goes_by)
            } else {
                0
            }
        }
    }
}
