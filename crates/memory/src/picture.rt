// The picture memory: its blocks lie in a buffer of 256 bytes.
ghost use Rattle.std.specs.Prelude.{◌≡◌, ◌*◌, min, [], length, slice_index_or, slice_set};
ghost use Rattle.memory.specs.Picture.{blocks_in, put_four, pictured, all_pictured};

use crate::block::Block;
use crate::{Memory, SPENT};
use air::fault::Fault;

const SIZE: usize = 256;

const MOST_WRITES: u32 = 100_000;

// A block that lies in a buffer.
fn block_in(cells: &[u8; SIZE], block: Block) -> [u8; 4]
    ensures value { result ≡ slice_index_or (blocks_in cells.now) block [] }
{
    let (blocks, _) = cells.as_chunks();
    blocks[block.number() as usize]
}

// Puts a block into a buffer. A slice: tried as an array by `as_mut_array`, but the prover did not find in the caller's buffer what was put there.
fn put_block(cells: &mut [u8], block: Block, bytes: [u8; 4])
    requires { length cells.old ≡ 256 }
    ensures cells { cells.new ≡ put_four cells.old (4 * block) bytes }
    ensures after { blocks_in cells.new ≡ slice_set (blocks_in cells.old) block bytes }
{
    let at = 4 * block.number() as usize;
    cells[at..at + 4].copy_from_slice(&bytes);
}

// A buffer of the caller's, of whatever length, since a memory allocates nothing.
#[derive(Drop)]
pub struct PictureMemory<'a> {
    cells: &'a mut [u8],
    left: u32,
}

impl<'a> PictureMemory<'a> {
    // A memory that starts with what the buffer holds. In a buffer of another length than 256 bytes there is nothing to store.
    pub fn new(cells: &'a mut [u8], writes: u32) -> PictureMemory<'a>
        ensures cells { result.cells.now ≡ cells.old }
        ensures left { result.left ≡ min writes 100000 }
    {
        PictureMemory {
            cells,
            left: writes.min(MOST_WRITES),
        }
    }
}

impl Memory for PictureMemory<'_> {
    ghost holds = { λ p. pictured p.cells.now p.left };

    ghost whole = { λ p. all_pictured p.cells.now p.left };

    fn read(&self, block: u8) -> Result<[u8; 4], Fault> {
        let block = Block::try_from(block)?;
        match self.cells.as_array() {
            Some(cells) => Ok(block_in(cells, block)),
            None => Ok([0; 4]),
        }
    }

    fn left(&self) -> u32 {
        if self.cells.len() == SIZE {
            self.left
        } else {
            0
        }
    }

    fn write(&mut self, block: u8, bytes: [u8; 4]) -> Result<(), Fault> {
        let block = Block::try_from(block)?;
        // A buffer of another length has no writes left.
        if self.left() == 0 {
            return Err(SPENT);
        }
        put_block(self.cells, block, bytes);
        self.left -= 1;
        Ok(())
    }
}
