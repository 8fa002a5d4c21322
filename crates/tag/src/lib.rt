// The tag end of a box: made, powered, read, written, locked and killed, over any memory.
#![tactic(auto)]

ghost use Rattle.std.specs.Prelude.{◌≡◌};
ghost use Rattle.memory.specs.Memory.{reading};
ghost use Rattle.tag.specs.Boxes.{box_of};

use crate::state::State;
use air::fault::Fault;
use memory::Memory;

pub mod code;
mod frame;
mod locks;
pub mod making;
mod map;
mod power;
mod read;
pub mod state;
mod window;
mod write;

#[derive(Drop)]
pub struct Tag<M: Memory> {
    memory: M,
    state: State,
    // Whether the tag was last woken from HALT, which is then its home.
    from_halt: bool,
    uid: [u8; 7],
    code: [u8; 3],
}

impl<M: Memory> Tag<M> {
    // A stored block, as the board that owns the memory sees it.
    pub fn stored(&self, block: u8) -> Result<[u8; 4], Fault>
        ensures value { result ≡ reading (box_of M.holds self.now).mem block }
    {
        self.memory.read(block)
    }

    // The writes left.
    pub fn left(&self) -> u32
        ensures value { result ≡ (box_of M.holds self.now).mem.left }
    {
        self.memory.left()
    }
}
