// The states of a tag, and its step at a frame.
ghost use Rattle.std.specs.Prelude.{◌≡◌, Ok};
ghost use Rattle.air.specs.declared.answer.Answer.TheVariants.{Silence, Atqa, Nack};
ghost use Rattle.tag.specs.Boxes.{box_of, homed};
ghost use Rattle.tag.specs.States.{woken, met, chosen, read_step, step_of};

use crate::Tag;
use air::answer::{Answer, Refusal};
use air::bits::Bits;
use air::fault::Fault;
use air::frame::Frame;
use air::level::{Level, level_bytes};
use memory::Memory;
use memory::block::Block;

#[derive(Clone, Copy, PartialEq, Eq)]
pub enum State {
    Off,
    Killed,
    Idle,
    Ready1,
    Ready2,
    Active,
    Halt,
}

impl<M: Memory> Tag<M> {
    // READY1, READY2 and ACTIVE go home: to HALT if the tag was last woken from there, else to IDLE.
    fn go_home(&mut self)
        ensures after { box_of M.holds self.new ≡ homed (box_of M.holds self.old) }
    {
        self.state = if self.from_halt {
            State::Halt
        } else {
            State::Idle
        };
    }

    // A frame that is not listed gets silence and sends the tag home.
    fn lost(&mut self) -> Answer
        ensures value { result ≡ Silence }
        ensures after { box_of M.holds self.new ≡ homed (box_of M.holds self.old) }
    {
        self.go_home();
        Answer::Silence
    }

    // Each NACK sends the tag home.
    pub(crate) fn nack(&mut self, refusal: Refusal) -> Answer
        ensures value { result ≡ Nack refusal }
        ensures after { box_of M.holds self.new ≡ homed (box_of M.holds self.old) }
    {
        self.go_home();
        Answer::Nack { refusal }
    }

    fn wake(&mut self, from_halt: bool) -> Answer
        ensures value { result ≡ Atqa }
        ensures after { box_of M.holds self.new ≡ woken (box_of M.holds self.old) from_halt }
    {
        self.from_halt = from_halt;
        self.state = State::Ready1;
        Answer::Atqa
    }

    // Tells the rest of a level's bits, if those given begin them.
    fn anticollide(&mut self, level: Level, given: Bits) -> Answer
        ensures value { result ≡ (met (box_of M.holds self.old) level given).answer }
        ensures after { box_of M.holds self.new ≡ (met (box_of M.holds self.old) level given).after }
    {
        match given.rest_of(level_bytes(level, self.uid)) {
            Some(bits) => Answer::Rest { bits },
            None => self.lost(),
        }
    }

    // Goes on to the next state, if the tag's own bytes are selected.
    fn select(&mut self, level: Level, bytes: [u8; 5], next: State) -> Answer
        ensures value { result ≡ (chosen (box_of M.holds self.old) level bytes next).answer }
        ensures after { box_of M.holds self.new ≡ (chosen (box_of M.holds self.old) level bytes next).after }
    {
        if bytes != level_bytes(level, self.uid) {
            return self.lost();
        }
        self.state = next;
        Answer::Sak { level }
    }

    fn read(&mut self, block: u8) -> Result<Answer, Fault>
        ensures value { result ≡ Ok (read_step (box_of M.holds self.old) block).answer }
        ensures after { box_of M.holds self.new ≡ (read_step (box_of M.holds self.old) block).after }
    {
        let Ok(block) = Block::try_from(block) else {
            return Ok(self.nack(Refusal::Block));
        };
        Ok(Answer::Shown {
            bytes: self.shown_from(block)?,
        })
    }

    pub(crate) fn step(&mut self, frame: Frame) -> Result<Answer, Fault>
        ensures value { result ≡ Ok (step_of (box_of M.holds self.old) frame).answer }
        ensures after { box_of M.holds self.new ≡ (step_of (box_of M.holds self.old) frame).after }
    {
        match (self.state, frame) {
            (State::Off | State::Killed, _) => Ok(Answer::Silence),
            (State::Idle, Frame::Reqa | Frame::Wupa) => Ok(self.wake(false)),
            (State::Halt, Frame::Wupa) => Ok(self.wake(true)),
            (State::Idle | State::Halt, _) => Ok(Answer::Silence),
            (
                State::Ready1,
                Frame::Anticollision {
                    level: Level::One,
                    given,
                },
            ) => Ok(self.anticollide(Level::One, given)),
            (
                State::Ready1,
                Frame::Selection {
                    level: Level::One,
                    bytes,
                },
            ) => Ok(self.select(Level::One, bytes, State::Ready2)),
            (
                State::Ready2,
                Frame::Anticollision {
                    level: Level::Two,
                    given,
                },
            ) => Ok(self.anticollide(Level::Two, given)),
            (
                State::Ready2,
                Frame::Selection {
                    level: Level::Two,
                    bytes,
                },
            ) => Ok(self.select(Level::Two, bytes, State::Active)),
            (State::Active, Frame::Halt) => {
                self.state = State::Halt;
                Ok(Answer::Silence)
            }
            (State::Active, Frame::Read { block }) => self.read(block),
            (State::Active, Frame::Write { block, bytes }) => self.write(block, bytes),
            (State::Active, Frame::Damaged) => Ok(self.nack(Refusal::Crc)),
            (State::Ready1 | State::Ready2 | State::Active, _) => Ok(self.lost()),
        }
    }
}
