// Power off, power on, and the code that is drawn there.
ghost use Rattle.std.specs.Prelude.{◌≡◌, Ok};
ghost use Rattle.tag.specs.Boxes.{box_of, in_state};
ghost use Rattle.tag.specs.Power.{drawn, drawn_box, power_answer, powered};
ghost use Rattle.tag.specs.declared.state.State.TheVariants.{Off};

use crate::Tag;
use crate::code::{CODES, HYPHENS, tap_code};
use crate::map::{KILL, TAPS};
use crate::state::State;
use air::fault::Fault;
use memory::Memory;

// The mark of a killed tag.
pub(crate) const KILLED: u8 = 0xa5;

// Power on, and the tag is not OFF.
const POWERED: Fault = Fault::Call {
    number: 4,
    address: 0,
};

impl<M: Memory> Tag<M> {
    // Power off leads to OFF from every state.
    pub fn power_off(&mut self)
        ensures after { box_of M.holds self.new ≡ in_state (box_of M.holds self.old) Off }
    {
        self.state = State::Off;
    }

    // Draws a code if there is one and a write is left: the next number is stored before the code is shown.
    fn draw(&mut self) -> Result<Option<u16>, Fault>
        ensures value { result ≡ Ok (drawn (box_of M.holds self.old).mem) }
        ensures after { box_of M.holds self.new ≡ drawn_box (box_of M.holds self.old) }
    {
        let tap = u32::from_le_bytes(self.memory.read(TAPS)?);
        self.code = HYPHENS;
        if tap >= CODES {
            return Ok(None);
        }
        if self.memory.write(TAPS, (tap + 1).to_le_bytes()).is_err() {
            return Ok(None);
        }
        let tap = tap as u16;
        self.code = tap_code(tap);
        Ok(Some(tap))
    }

    // Power on from OFF: whether a code was drawn, and its tap number or 0.
    pub fn power_on(&mut self) -> Result<(bool, u16), Fault>
        ensures value { result ≡ power_answer (box_of M.holds self.old) }
        ensures after { box_of M.holds self.new ≡ powered (box_of M.holds self.old) }
    {
        if self.state != State::Off {
            return Err(POWERED);
        }
        if self.memory.read(KILL)?[0] == KILLED {
            self.state = State::Killed;
            self.code = HYPHENS;
            return Ok((false, 0));
        }
        self.state = State::Idle;
        let drawn = self.draw()?;
        // A flag and a number is what a board gets, as a rule of the project.
        Ok(drawn.map_or((false, 0), |tap| (true, tap)))
    }
}
