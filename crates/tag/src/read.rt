// READ: the shown bytes of four blocks.
ghost use Rattle.std.specs.Prelude.{◌≡◌, Ok, MatchResult};
ghost use Rattle.std.specs.List.{flat_map};
ghost use Rattle.memory.specs.Memory.{block as block_in};
ghost use Rattle.tag.specs.Boxes.{box_of};
ghost use Rattle.tag.specs.Read.{window_of, shown_by};
ghost use Rattle.tag.specs.Window.{meant, block_shown};

use crate::Tag;
use crate::map::{CUSTOM, SETTING};
use crate::window::Window;
use air::fault::Fault;
use memory::Memory;
use memory::block::Block;

// Four blocks' bytes in a row.
fn joined(blocks: [[u8; 4]; 4]) -> [u8; 16]
    ensures value { result ≡ flat_map (λ four. four) blocks }
{
    *blocks.as_flattened().as_array().unwrap()
}

impl<M: Memory> Tag<M> {
    // The window as it stands now: five blocks are read for it.
    fn window(&self) -> Result<Window, Fault>
        ensures value { MatchResult result (λ w. meant w ≡ window_of (box_of M.holds self.now)) (λ _. ⊥) }
    {
        let setting = self.memory.read(SETTING)?;
        // One by one, since the prover knows nothing of an array that is made with `?` in a closure.
        let custom = [
            self.memory.read(CUSTOM)?,
            self.memory.read(CUSTOM + 1)?,
            self.memory.read(CUSTOM + 2)?,
            self.memory.read(CUSTOM + 3)?,
        ];
        Ok(Window::new(setting, custom, self.code))
    }

    // The shown bytes of a block.
    fn shown(&self, window: &Window, block: Block) -> Result<[u8; 4], Fault>
        ensures value { result ≡ Ok (block_shown (meant window.now) block (block_in (box_of M.holds self.now).mem block)) }
    {
        Ok(window.shown_block(block, self.memory.read(block.number())?))
    }

    // The bytes that READ shows from a block on: four blocks, going on from the last to the first.
    pub(crate) fn shown_from(&self, block: Block) -> Result<[u8; 16], Fault>
        ensures value { result ≡ Ok (shown_by (box_of M.holds self.now) block) }
    {
        let window = self.window()?;
        // One by one, since the prover knows nothing of an array that is made with `?` in a closure.
        let first = self.shown(&window, block)?;
        let second = self.shown(&window, block.wrapping_add(1))?;
        let third = self.shown(&window, block.wrapping_add(2))?;
        let fourth = self.shown(&window, block.wrapping_add(3))?;
        Ok(joined([first, second, third, fourth]))
    }
}
