// The call of a board: a frame, and the tag's answer.
ghost use Rattle.std.specs.Prelude.{◌≡◌};
ghost use Rattle.tag.specs.Boxes.{box_of};
ghost use Rattle.tag.specs.Calls.{heard, frame_answer, frame_box, frame_buffer};
ghost use Rattle.tag.specs.Locks.{Guards};

use crate::Tag;
use air::answer::{NO_ROOM, ROOM};
use air::fault::Fault;
use air::frame::{Frame, taken_apart};
use memory::Memory;

// The frame, if the call is not refused. Bytes and count come side by side, as a board gives them.
#[tactic(auto, unfolding(crate::specs::Calls::heard))]
fn heard(frame: &[u8], count: u8, buffer: &[u8]) -> Result<Frame, Fault>
    ensures value { result ≡ heard frame.now count buffer.now }
{
    if buffer.len() < ROOM {
        return Err(NO_ROOM);
    }
    taken_apart(frame, count)
}

impl<M: Memory> Tag<M> {
    // A frame and the count of bits used in its last byte: the number of the answer's bits, which go first into the buffer.
    // The buffer is the caller's, since a tag allocates nothing.
    #[tactic(auto, using(crate::proofs::Guarding::guards), unfolding(crate::specs::Calls::heard))]
    pub fn frame(&mut self, frame: &[u8], count: u8, buffer: &mut [u8]) -> Result<usize, Fault>
        ensures value { result ≡ frame_answer (box_of M.holds self.old) frame.now count buffer.old }
        ensures after { box_of M.holds self.new ≡ frame_box (box_of M.holds self.old) frame.now count buffer.old }
        ensures buffer { buffer.new ≡ frame_buffer (box_of M.holds self.old) frame.now count buffer.old }
        ensures guards { Guards }
    {
        let frame = heard(frame, count, buffer)?;
        self.step(frame)?.put(buffer)
    }
}
