//! How long lines wait, and how many bytes of them.
ghost use Rattle.std.specs.Prelude.{◌≡◌, ◌*◌};

/// How long lines wait, in milliseconds of the log's time, and how many bytes of them.
#[derive(Clone, Copy, Debug, PartialEq, Eq)]
pub struct Bounds {
    pub window: u64,
    pub memory: u64,
}

/// The seconds that lines wait, unless the words say otherwise.
pub const SECONDS: u32 = 20;

/// The units of 2^20 bytes that may wait, unless the words say otherwise.
pub const MEGABYTES: u32 = 64;

impl Bounds {
    /// Bounds of so many seconds and so many units of 2^20 bytes.
    pub fn of(seconds: u32, megabytes: u32) -> Bounds
        ensures { result ≡ record { window = seconds * 1000; memory = megabytes * 1048576 } }
    {
        Bounds {
            window: u64::from(seconds) * 1000,
            memory: u64::from(megabytes) * 1_048_576,
        }
    }
}
