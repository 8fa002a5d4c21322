// Frames taken apart: what a phone asks of a tag.
ghost use Rattle.std.specs.Prelude.{◌≡◌, ◌+◌, ◌<◌, ◌≤◌, length};
ghost use Rattle.air.specs.Frames.{seals, short_of, selected_by, asked_by, of_level, taken_apart, frame_of};

use crate::bits::{Bits, first_bits};
use crate::crc::crc_a;
use crate::fault::Fault;
use crate::level::Level;

pub const LONGEST: usize = 64;

// A frame of over 64 bytes.
const TOO_LONG: Fault = Fault::Call {
    number: 2,
    address: 0,
};

// A bit count that is not 1 to 8.
const BAD_COUNT: Fault = Fault::Call {
    number: 3,
    address: 0,
};

// Frames of seven bits.
const REQA: u8 = 0x26;

const WUPA: u8 = 0x52;

// The commands that the other frames begin with.
const LEVEL_1: u8 = 0x93;

const LEVEL_2: u8 = 0x95;

const HALT: u8 = 0x50;

const READ: u8 = 0x30;

const WRITE: u8 = 0xa2;

// NVB of a selection.
const WHOLE_UID: u8 = 0x70;

#[derive(Clone, Copy)]
pub enum Frame {
    Reqa,
    Wupa,
    Anticollision { level: Level, given: Bits },
    Selection { level: Level, bytes: [u8; 5] },
    Halt,
    Read { block: u8 },
    Write { block: u8, bytes: [u8; 4] },
    // READ or WRITE of right length and wrong CRC_A.
    Damaged,
    Unlisted,
}

// A frame that may be taken apart: its bytes, and how many bits of the last one count.
#[derive(Clone, Copy)]
struct Sent<'a> {
    bytes: &'a [u8],
    count: u8,
    ghost fits: { (1 ≤ count) × ((count ≤ 8) × (length bytes.now ≤ 64)) },
}

// Whether these are the bytes of the run's CRC_A.
fn is_sealed(bytes: &[u8], low: u8, high: u8) -> bool
    ensures value { result ≡ seals bytes.now low high }
{
    crc_a(bytes) == u16::from_le_bytes([low, high])
}

// A frame of seven bits.
fn short(byte: u8) -> Frame
    ensures value { result ≡ short_of byte }
{
    match byte & 0x7f {
        REQA => Frame::Reqa,
        WUPA => Frame::Wupa,
        _ => Frame::Unlisted,
    }
}

impl Sent<'_> {
    // The bits of an anticollision: they follow NVB, whose digits count the bytes and bits of the whole frame.
    fn asked(&self) -> Option<Bits>
        ensures value { result ≡ asked_by self.now.bytes.now self.now.count }
    {
        let [_, nvb, bytes @ ..] = self.bytes else {
            return None;
        };
        let (whole @ 2..=6, part @ 0..=7) = (*nvb >> 4, *nvb & 0x0f) else {
            return None;
        };
        let bits = 8 * (whole - 2) + part;
        if 8 * bytes.len() + usize::from(self.count) == usize::from(bits) + 8 {
            Some(first_bits(bytes, bits))
        } else {
            None
        }
    }

    // The five bytes of a selection: NVB 70h, and CRC_A at the end.
    fn selected(&self) -> Option<[u8; 5]>
        ensures value { result ≡ selected_by self.now.bytes.now self.now.count }
    {
        match self.bytes {
            [_, WHOLE_UID, a, b, c, d, bcc, low, high] if self.count == 8 => {
                if is_sealed(&self.bytes[..7], *low, *high) {
                    Some([*a, *b, *c, *d, *bcc])
                } else {
                    None
                }
            }
            _ => None,
        }
    }

    // A frame of a cascade level.
    fn of_level(&self, level: Level) -> Frame
        ensures value { result ≡ of_level level self.now.bytes.now self.now.count }
    {
        if let Some(bytes) = self.selected() {
            return Frame::Selection { level, bytes };
        }
        match self.asked() {
            Some(given) => Frame::Anticollision { level, given },
            None => Frame::Unlisted,
        }
    }

    fn kind(&self) -> Frame
        ensures value { result ≡ taken_apart self.now.bytes.now self.now.count }
    {
        match self.bytes {
            [byte] if self.count == 7 => short(*byte),
            [LEVEL_1, ..] => self.of_level(Level::One),
            [LEVEL_2, ..] => self.of_level(Level::Two),
            [HALT, 0x00, low, high] if self.count == 8 => {
                if is_sealed(&self.bytes[..2], *low, *high) {
                    Frame::Halt
                } else {
                    Frame::Unlisted
                }
            }
            [READ, block, low, high] if self.count == 8 => {
                if is_sealed(&self.bytes[..2], *low, *high) {
                    Frame::Read { block: *block }
                } else {
                    Frame::Damaged
                }
            }
            [WRITE, block, a, b, c, d, low, high] if self.count == 8 => {
                if is_sealed(&self.bytes[..6], *low, *high) {
                    Frame::Write {
                        block: *block,
                        bytes: [*a, *b, *c, *d],
                    }
                } else {
                    Frame::Damaged
                }
            }
            _ => Frame::Unlisted,
        }
    }
}

// What a frame asks: its bytes, and how many bits of the last one count, side by side as a board gives them.
pub fn taken_apart(frame: &[u8], count: u8) -> Result<Frame, Fault>
    ensures value { result ≡ frame_of frame.now count }
{
    if frame.len() > LONGEST {
        return Err(TOO_LONG);
    }
    if frame.is_empty() {
        return Ok(Frame::Unlisted);
    }
    if count == 0 || count > 8 {
        return Err(BAD_COUNT);
    }
    Ok(Sent {
        bytes: frame,
        count,
    }
    .kind())
}
