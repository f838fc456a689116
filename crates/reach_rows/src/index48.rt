//! Indexes below 2^48, in 6 bytes each.
ghost use Rattle.std.specs.Prelude.{◌≡◌, ◌<◌, ◌^◌};
ghost use Rattle.reach_rows.specs.Indexes.{index_in};

use std::mem::size_of;

const _: () = prove!(size_of::<Index48>() == 6);

/// An index below 2^48. Three numbers of 16 bits leave no gap beside fields of other sizes, as one of 64 bits would.
#[derive(Clone, Copy)]
pub struct Index48 {
    pub low: u16,
    pub middle: u16,
    pub high: u16,
}

impl Index48 {
    /// These 6 bytes for an index.
    pub fn new(index: u64) -> Index48
        requires { index < 2 ^ 48 }
        ensures { index_in result ≡ index }
    {
        Index48 {
            low: (index % 0x1_0000) as u16,
            middle: (index / 0x1_0000 % 0x1_0000) as u16,
            high: (index / 0x1_0000_0000) as u16,
        }
    }

    /// The index.
    pub fn get(self) -> u64
        ensures index { result ≡ index_in self }
        ensures small { result < 2 ^ 48 }
    {
        self.low as u64 + 0x1_0000 * self.middle as u64 + 0x1_0000_0000 * self.high as u64
    }
}
