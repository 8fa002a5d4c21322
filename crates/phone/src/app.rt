// The layout walk for the phone app in C.
ghost use Rattle.std.specs.Prelude.{◌≡◌};
ghost use Rattle.phone.specs.App.{reported, ReportedOff};
ghost use Rattle.phone.specs.Layout.{walked};

use crate::layout::{Message, walk};
use air::fault::Fault;

// Number 0 with place and length of the message, or a fault's number with its address in `place` and length 0: numbers, since it goes to C.
#[repr(C)]
#[derive(Clone, Copy)]
pub struct Report {
    pub number: u16,
    pub place: u16,
    pub length: u16,
}

impl From<Result<Message, Fault>> for Report {
    ghost from_gives = { λ answer report. report ≡ reported answer };

    fn from(answer: Result<Message, Fault>) -> Report {
        match answer {
            Ok(message) => Report {
                number: 0,
                place: message.place,
                length: u16::from(message.length),
            },
            Err(fault) => Report {
                number: u16::from(fault.number()),
                place: fault.address(),
                length: 0,
            },
        }
    }
}

// What phone_c exports.
pub fn youthgoat_layout_walk(picture: &[u8]) -> Report
    ensures value { result ≡ reported (walked picture.now).answer }
    ensures laid { ReportedOff picture.now result }
{
    Report::from(walk(picture))
}
