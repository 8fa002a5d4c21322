// The log memory: a record for each write, and a block's bytes are those of its latest record.
ghost use Rattle.std.specs.Prelude.{◌≡◌, ◌+◌, ◌<◌, ◌≤◌, [], length, take, slice_index_or, slice_set};
ghost use Rattle.memory.specs.Log.{blocks_by, logged, all_logged};

use crate::block::Block;
use crate::latest::{Record, latest};
use crate::{Memory, SPENT};
use air::fault::Fault;

// Places further on in the buffer are never used.
pub const MOST_PLACES: usize = 4096;

// A buffer of the caller's and the number of its used places, since a memory allocates nothing.
#[derive(Drop)]
pub struct LogMemory<'a> {
    places: &'a mut [Record],
    used: usize,
    ghost within: { used ≤ length places.now },
}

impl<'a> LogMemory<'a> {
    // A memory with no record yet; what the buffer held is ignored.
    pub fn new(places: &'a mut [Record]) -> LogMemory<'a>
        ensures places { result.places.now ≡ places.old }
        ensures used { result.used ≡ 0 }
    {
        LogMemory { places, used: 0 }
    }

    // A block as the records in the used places tell it.
    fn block_by(&self, block: Block) -> [u8; 4]
        ensures value { result ≡ slice_index_or (blocks_by (take self.now.used self.now.places.now)) block [] }
    {
        latest(block.number(), &self.places[..self.used]).unwrap_or([0; 4])
    }

    // Puts a record at the first unused place.
    fn append(&mut self, block: Block, bytes: [u8; 4])
        requires { self.old.used < length self.old.places.now }
        ensures places { self.new.places.now ≡ slice_set self.old.places.now self.old.used (record { block = block; bytes = bytes }) }
        ensures used { self.new.used ≡ self.old.used + 1 }
        ensures after { blocks_by (take self.new.used self.new.places.now) ≡ slice_set (blocks_by (take self.old.used self.old.places.now)) block bytes }
    {
        self.places[self.used] = Record {
            block: block.number(),
            bytes,
        };
        self.used += 1;
    }
}

impl Memory for LogMemory<'_> {
    ghost holds = { λ p. logged p.places.now p.used };

    ghost whole = { λ p. all_logged p.places.now p.used };

    fn read(&self, block: u8) -> Result<[u8; 4], Fault> {
        let block = Block::try_from(block)?;
        Ok(self.block_by(block))
    }

    fn left(&self) -> u32 {
        self.places.len().min(MOST_PLACES).saturating_sub(self.used) as u32
    }

    fn write(&mut self, block: u8, bytes: [u8; 4]) -> Result<(), Fault> {
        let block = Block::try_from(block)?;
        if self.left() == 0 {
            return Err(SPENT);
        }
        self.append(block, bytes);
        Ok(())
    }
}
