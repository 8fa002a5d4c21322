// WRITE: what may be written where, the keyhole, and the answer.
ghost use Rattle.std.specs.Prelude.{◌≡◌, Ok};
ghost use Rattle.tag.specs.Boxes.{box_of};
ghost use Rattle.tag.specs.Locks.{locked};
ghost use Rattle.tag.specs.Write.{closed, kill_by, merge_into, change_by, write_answer, write_box};

use crate::Tag;
use crate::locks::{lock_bit, merge};
use crate::map::{
    DYNAMIC_LOCKS, KEYHOLE, KILL, LAST_CLOSED, PASSWORD, PRODUCT, STATIC_LOCKS, TAPS,
};
use crate::power::KILLED;
use crate::state::State;
use air::answer::{Answer, Refusal};
use air::fault::Fault;
use memory::Memory;
use memory::block::Block;

// What an acknowledged WRITE stores.
#[derive(Clone, Copy)]
struct Change {
    block: Block,
    bytes: [u8; 4],
}

// Blocks that no WRITE reaches.
fn is_closed(block: Block) -> bool
    ensures value { result ≡ closed block }
{
    matches!(block.number(), 0 | 1 | PRODUCT | TAPS..=LAST_CLOSED)
}

impl<M: Memory> Tag<M> {
    fn is_locked(&self, block: Block) -> Result<bool, Fault>
        ensures value { result ≡ Ok (locked (box_of M.holds self.now).mem.blocks block) }
    {
        let fixed = self.memory.read(STATIC_LOCKS)?;
        let dynamic = self.memory.read(DYNAMIC_LOCKS)?;
        Ok(lock_bit(block, fixed, dynamic))
    }

    // The keyhole: only the stored password, once it is locked, turns it.
    fn kill_by(&self, bytes: [u8; 4]) -> Result<Option<Change>, Fault>
        ensures value { result ≡ Ok (kill_by (box_of M.holds self.now).mem.blocks bytes) }
    {
        if !self.is_locked(Block::try_from(PASSWORD)?)? || bytes != self.memory.read(PASSWORD)? {
            return Ok(None);
        }
        let [_, b, c, d] = self.memory.read(KILL)?;
        Ok(Some(Change {
            block: Block::try_from(KILL)?,
            bytes: [KILLED, b, c, d],
        }))
    }

    // What a WRITE of any other block is to store: the bytes are no `Change` before they are merged.
    fn merge_into(&self, block: Block, bytes: [u8; 4]) -> Result<Change, Fault>
        ensures value { result ≡ Ok (merge_into (box_of M.holds self.now).mem.blocks block bytes) }
    {
        let old = self.memory.read(block.number())?;
        Ok(Change {
            block,
            bytes: merge(block, old, bytes),
        })
    }

    // What a WRITE is to store, if it may: block and bytes are a `Change` once the block is known to be one.
    fn change_by(&self, block: u8, bytes: [u8; 4]) -> Result<Option<Change>, Fault>
        ensures value { result ≡ Ok (change_by (box_of M.holds self.now).mem.blocks block bytes) }
    {
        let Ok(block) = Block::try_from(block) else {
            return Ok(None);
        };
        if is_closed(block) || self.is_locked(block)? {
            return Ok(None);
        }
        if block.number() == KEYHOLE {
            return self.kill_by(bytes);
        }
        Ok(Some(self.merge_into(block, bytes)?))
    }

    pub(crate) fn write(&mut self, block: u8, bytes: [u8; 4]) -> Result<Answer, Fault>
        ensures value { result ≡ Ok (write_answer (box_of M.holds self.old) block bytes) }
        ensures after { box_of M.holds self.new ≡ write_box (box_of M.holds self.old) block bytes }
    {
        let Some(change) = self.change_by(block, bytes)? else {
            return Ok(self.nack(Refusal::Block));
        };
        let place = change.block.number();
        if self.memory.write(place, change.bytes).is_err() {
            return Ok(self.nack(Refusal::Memory));
        }
        if block == KEYHOLE {
            self.state = State::Killed;
        }
        Ok(Answer::Ack)
    }
}
