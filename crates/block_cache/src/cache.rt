//! A cache of a disk's blocks.
ghost use Rattle.std.specs.Prelude.{◌≡◌, ◌↔◌, ◌≤◌, ◌<◌, ◌+◌, ◌*◌, ◌/◌, ◌%◌, ◌^◌, [], length, IfOk, IfSome, IsErr, IsTrue};
ghost use Rattle.outside.specs.Disk.{OnlyLooks, UsesDisk};
ghost use Rattle.block_cache.specs.Cached.{HasRange, HoldsRange, IsCacheOf, IsHeld, SparesDisk, block_of, range};

use crate::blocks::{BLOCK, Blocks, copy_from};
use flow_base::{Bytes, NoMemory};
use outside::{Disk, Failed, read_whole};
use std::alloc::Global;
use std::marker::Model;

/// Blocks of a disk that were read lately, of those whose bytes no commit changes.
#[derive(Drop)]
pub struct BlockCache {
    alloc: Global,
    blocks: Blocks,
    firm: u64,
}

impl Model for BlockCache {
    ghost use Rattle.block_cache.specs.Cached.{Cached};

    ghost Value = { Cached };

    ghost view = { λ c. record { blocks = c.blocks; firm = c.firm } };
}

impl BlockCache {
    /// A cache that holds no block, for a disk whose bytes before the place `firm` don't change.
    pub fn new(alloc: Global, firm: u64) -> Result<BlockCache, NoMemory>
        ensures { IfOk result (λ cache. cache ≡ record { blocks = []; firm = firm }) }
    {
        let blocks = Blocks::new(alloc)?;
        Ok(BlockCache {
            alloc,
            blocks,
            firm,
        })
    }

    /// More of the disk's bytes don't change any more: those before the place `firm`.
    pub fn raise(&mut self, firm: u64)
        requires { self.old.firm ≤ firm }
        ensures { self.new ≡ record self.old { firm = firm } }
    {
        self.firm = firm;
    }

    /// The place before which the disk's bytes don't change.
    pub fn firm(&self) -> u64
        ensures { result ≡ self.now.firm }
    {
        self.firm
    }

    /// Fills the buffer with the bytes from a place on, or says that the disk ends before it is full.
    /// If all blocks of the range are held, the disk isn't asked.
    pub fn read<D: Disk>(&mut self, disk: &mut D, at: u64, buf: &mut [u8]) -> Result<bool, Failed>
        requires fits { at + length buf.old < 2 ^ 64 }
        requires cache { (D.state disk.old).told → IsCacheOf (D.state disk.old).reads self.old }
        ensures whole { (D.state disk.old).told → IfOk result (λ whole.
            IsTrue whole ↔ HasRange at (length buf.new) (D.state disk.old).reads) }
        ensures bytes { (D.state disk.old).told → IfOk result (λ whole. IsTrue whole
            → buf.new ≡ range at (length buf.new) (D.state disk.old).reads) }
        ensures cache { (D.state disk.old).told → IsCacheOf (D.state disk.new).reads self.new }
        ensures held { HoldsRange at (length buf.old) self.old.blocks
            → SparesDisk disk.old disk.new result self.old.blocks self.new.blocks }
        ensures firm { self.new.firm ≡ self.old.firm }
        ensures looks { OnlyLooks (D.state disk.old) (D.state disk.new) }
        ensures uses { UsesDisk D.state D.faults D.spent disk.old disk.new (IsErr result) }
    {
        let mut done = 0;
        while done < buf.len() {
            let place = at + done as u64;
            let room = BLOCK - (place % BLOCK as u64) as usize;
            let count = room.min(buf.len() - done);
            if !self.read_piece(disk, place, &mut buf[done..done + count])? {
                return Ok(false);
            }
            done += count;
        }
        Ok(true)
    }

    // Reads a piece that lies within one block.
    fn read_piece<D: Disk>(
        &mut self,
        disk: &mut D,
        at: u64,
        piece: &mut [u8],
    ) -> Result<bool, Failed>
        requires some { 0 < length piece.old }
        requires within { at % 4096 + length piece.old ≤ 4096 }
        requires fits { at + length piece.old < 2 ^ 64 }
        requires cache { (D.state disk.old).told → IsCacheOf (D.state disk.old).reads self.old }
        ensures whole { (D.state disk.old).told → IfOk result (λ whole.
            IsTrue whole ↔ HasRange at (length piece.new) (D.state disk.old).reads) }
        ensures bytes { (D.state disk.old).told → IfOk result (λ whole. IsTrue whole
            → piece.new ≡ range at (length piece.new) (D.state disk.old).reads) }
        ensures cache { (D.state disk.old).told → IsCacheOf (D.state disk.new).reads self.new }
        ensures held { IsHeld (at / 4096) self.old.blocks
            → SparesDisk disk.old disk.new result self.old.blocks self.new.blocks }
        ensures firm { self.new.firm ≡ self.old.firm }
        ensures looks { OnlyLooks (D.state disk.old) (D.state disk.new) }
        ensures uses { UsesDisk D.state D.faults D.spent disk.old disk.new (IsErr result) }
    {
        let number = at / BLOCK as u64;
        let from = (at % BLOCK as u64) as usize;
        if self.blocks.copy_held(number, from, piece) {
            return Ok(true);
        }
        if let Some(block) = self.read_block(disk, number)? {
            copy_from(block.as_slice(), from, piece);
            self.blocks.keep(number, block);
            return Ok(true);
        }
        read_whole(disk, at, piece)
    }

    // A block, or none if a byte of it may change, the disk ends before its end or allocation fails.
    fn read_block<D: Disk>(&self, disk: &mut D, number: u64) -> Result<Option<Bytes>, Failed>
        ensures firmly { IfOk result (λ read. IfSome read (λ block.
            number * 4096 + 4096 ≤ self.now.firm)) }
        ensures whole { IfOk result (λ read. IfSome read (λ block. length block ≡ 4096)) }
        ensures block { (D.state disk.old).told → IfOk result (λ read. IfSome read (λ block.
            block ≡ block_of number (D.state disk.old).reads)) }
        ensures looks { OnlyLooks (D.state disk.old) (D.state disk.new) }
        ensures uses { UsesDisk D.state D.faults D.spent disk.old disk.new (IsErr result) }
    {
        if number >= self.firm / BLOCK as u64 {
            return Ok(None);
        }
        let Ok(mut room) = block_room(self.alloc) else {
            return Ok(None);
        };
        if read_whole(disk, number * BLOCK as u64, room.as_mut_slice())? {
            return Ok(Some(Bytes::from_vec(room)));
        }
        Ok(None)
    }
}

// Memory for a block.
fn block_room(alloc: Global) -> Result<Vec<u8>, NoMemory>
    ensures { IfOk result (λ room. length room.items ≡ 4096) }
{
    Ok(vec![in alloc; 0; BLOCK]?)
}
