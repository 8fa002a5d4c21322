// Answers: what a tag says, and how it lies in the answer buffer.
ghost use Rattle.std.specs.Prelude.{◌≡◌, ◌+◌, ◌/◌, ◌≤◌, length, take};
ghost use Rattle.air.specs.Answers.{laid, with_crc, sak_of, put_answer, put_buffer};

use crate::bits::Packed;
use crate::crc::crc_a;
use crate::fault::Fault;
use crate::level::Level;

// The longest answer: 16 bytes and CRC_A.
pub const ROOM: usize = 18;

// The answer buffer has under 18 bytes.
pub const NO_ROOM: Fault = Fault::Call {
    number: 1,
    address: 0,
};

// Why a READ or WRITE is not done, by the four bits that say so.
#[derive(Clone, Copy)]
pub enum Refusal {
    // There is no such block, or it may not be written so.
    Block = 0x0,
    Crc = 0x1,
    // The memory refused.
    Memory = 0x5,
}

#[derive(Clone, Copy)]
pub enum Answer {
    Silence,
    // The answer to a wake-up.
    Atqa,
    // The rest of a level's bits.
    Rest { bits: Packed },
    // The answer to a selection.
    Sak { level: Level },
    Ack,
    Nack { refusal: Refusal },
    // The shown bytes of four blocks.
    Shown { bytes: [u8; 16] },
}

// Puts bytes first into the buffer, whose later bytes are kept.
fn lay(buffer: &mut [u8], bytes: &[u8])
    requires { length bytes.now ≤ length buffer.old }
    ensures after { buffer.new ≡ laid buffer.old bytes.now }
{
    let n = bytes.len();
    buffer[..n].copy_from_slice(bytes);
}

fn sak(level: Level) -> u8
    ensures value { result ≡ sak_of level }
{
    match level {
        Level::One => 0x04,
        Level::Two => 0x00,
    }
}

// Puts up to 16 bytes and their CRC_A first into the buffer.
fn lay_with_crc(buffer: &mut [u8], bytes: &[u8])
    requires { (18 ≤ length buffer.old) × (length bytes.now ≤ 16) }
    ensures after { buffer.new ≡ laid buffer.old (with_crc bytes.now) }
{
    lay(buffer, bytes);
    lay(&mut buffer[bytes.len()..], &crc_a(bytes).to_le_bytes());
}

// Puts packed bits first into the buffer.
fn lay_bits(buffer: &mut [u8], bits: Packed)
    requires { 5 ≤ length buffer.old }
    ensures after { buffer.new ≡ laid buffer.old (take ((bits.count + 7) / 8) bits.bytes) }
{
    let n = usize::from(bits.count).div_ceil(8).min(bits.bytes.len());
    lay(buffer, &bits.bytes[..n]);
}

impl Answer {
    // Puts the answer first into a buffer of at least 18 bytes, whose later bytes are kept: the number of its bits, 0 for silence.
    // The buffer is the caller's, since a tag allocates nothing.
    pub fn put(self, buffer: &mut [u8]) -> Result<usize, Fault>
        ensures value { result ≡ put_answer self buffer.old }
        ensures after { buffer.new ≡ put_buffer self buffer.old }
    {
        if buffer.len() < ROOM {
            return Err(NO_ROOM);
        }
        match self {
            Answer::Silence => Ok(0),
            Answer::Atqa => {
                lay(buffer, &[0x44, 0x00]);
                Ok(16)
            }
            Answer::Rest { bits } => {
                lay_bits(buffer, bits);
                Ok(usize::from(bits.count))
            }
            Answer::Sak { level } => {
                lay_with_crc(buffer, &[sak(level)]);
                Ok(24)
            }
            Answer::Ack => {
                lay(buffer, &[0xa]);
                Ok(4)
            }
            Answer::Nack { refusal } => {
                lay(buffer, &[refusal as u8]);
                Ok(4)
            }
            Answer::Shown { bytes } => {
                lay_with_crc(buffer, &bytes);
                Ok(144)
            }
        }
    }
}
