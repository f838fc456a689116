//! The clock of a log: a time counts once more than one event speaks for it.
ghost use Rattle.std.specs.Prelude.{◌≡◌};
ghost use Rattle.order_place.specs.Clocks.{others_at, clock_after};

/// How far past the other events' times a time may be, in milliseconds, for the clock to follow it.
pub const WINDOW: u64 = 20_000;

/// The time of the clock; the greatest time that a line bore, with its serial number, and the greatest one that a line of
/// another serial number bore.
#[derive(Clone, Copy, Debug, PartialEq, Eq)]
pub struct Clock {
    pub time: u64,
    pub greatest: u64,
    pub serial: u32,
    pub second: u64,
}

impl Clock {
    /// No line was seen.
    pub fn new() -> Clock
        ensures { result ≡ record { time = 0; greatest = 0; serial = 0; second = 0 } }
    {
        Clock {
            time: 0,
            greatest: 0,
            serial: 0,
            second: 0,
        }
    }

    /// The clock after a line of this time and this serial number. It follows the line if a line of another serial
    /// number bore a time that is no more than the window before it, or a later one.
    pub fn after(self, ms: u64, serial: u32) -> Clock
        ensures { result ≡ clock_after self ms serial }
    {
        let others = self.others(serial);
        let time = if ms.saturating_sub(WINDOW) <= others {
            self.time.max(ms)
        } else {
            self.time
        };
        if serial == self.serial {
            Clock {
                time,
                greatest: self.greatest.max(ms),
                ..self
            }
        } else if self.greatest < ms {
            Clock {
                time,
                greatest: ms,
                serial,
                second: self.greatest,
            }
        } else {
            Clock {
                time,
                second: self.second.max(ms),
                ..self
            }
        }
    }

    // The greatest time that a line of another serial number bore.
    fn others(self, serial: u32) -> u64
        ensures { result ≡ others_at self serial }
    {
        if serial == self.serial {
            self.second
        } else {
            self.greatest
        }
    }
}
