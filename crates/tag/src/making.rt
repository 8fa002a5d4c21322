// Making a tag: its 64 blocks are written into a memory, which the tag then takes over.
ghost use Rattle.std.specs.Prelude.{◌≡◌, ◌≤◌, ◌++◌, Ok};
ghost use Rattle.tag.specs.Boxes.{box_of};
ghost use Rattle.tag.specs.Making.{hex, made_block, all_made, making, made, opened};

use crate::Tag;
use crate::code::{HYPHENS, digit_of};
use crate::map::{CAPABILITY, PASSWORD, PRODUCT, SETTING, STATIC_LOCKS};
use crate::state::State;
use air::fault::Fault;
use air::level::{Level, level_bytes};
use memory::{BLOCKS, Memory};

// Making with under 64 writes left.
const FEW_WRITES: Fault = Fault::Call {
    number: 5,
    address: 0,
};

// What a tag is made with.
#[derive(Clone, Copy)]
pub struct Identity {
    pub uid: [u8; 7],
    pub product: [u8; 4],
    pub password: [u8; 4],
}

// A byte as two hexadecimal digits. By hand, since a tag allocates nothing: the library writes capitals only into a `String`, and small letters into a slice.
fn hex_of(byte: u8) -> [u8; 2]
    ensures value { result ≡ hex byte }
{
    [digit_of(byte >> 4), digit_of(byte & 0x0f)]
}

fn pair(first: u8, second: u8) -> [u8; 4]
    ensures value { result ≡ hex first ++ hex second }
{
    let [a, b] = hex_of(first);
    let [c, d] = hex_of(second);
    [a, b, c, d]
}

// A block as it is made.
fn made_block(identity: &Identity, block: u8) -> [u8; 4]
    ensures value { result ≡ made_block identity.now block }
{
    let Identity {
        uid,
        product,
        password,
    } = *identity;
    let [a, b, c, d, e, f, g] = uid;
    match block {
        0 => [a, b, c, level_bytes(Level::One, uid)[4]],
        1 => [d, e, f, g],
        STATIC_LOCKS => [level_bytes(Level::Two, uid)[4], 0x2c, 0x00, 0x00],
        CAPABILITY => [0xe1, 0x10, 0x14, 0x00],
        4 => [0x03, 0x00, 0xfe, 0x00],
        PRODUCT => product,
        SETTING => [0x0f, 0x00, 0x00, 0x00],
        PASSWORD => password,
        60 => pair(a, b),
        61 => pair(c, d),
        62 => pair(e, f),
        63 => {
            let [high, low] = hex_of(g);
            [high, low, 0x78, 0x00]
        }
        _ => [0; 4],
    }
}

fn write_all<M: Memory>(memory: &mut M, identity: &Identity) -> Result<(), Fault>
    requires { 64 ≤ (M.holds memory.old).left }
    ensures value { result ≡ Ok tt }
    ensures after { M.holds memory.new ≡ all_made (M.holds memory.old) identity.now }
{
    for block in 0..BLOCKS {
        memory.write(block, made_block(identity, block))?;
    }
    Ok(())
}

// Writes blocks 0 to 63 of a tag into a lent memory.
pub fn make<M: Memory>(memory: &mut M, identity: &Identity) -> Result<(), Fault>
    ensures value { result ≡ making (M.holds memory.old) }
    ensures after { M.holds memory.new ≡ made (M.holds memory.old) identity.now }
{
    if memory.left() < u32::from(BLOCKS) {
        return Err(FEW_WRITES);
    }
    write_all(memory, identity)
}

impl<M: Memory> Tag<M> {
    // Takes a memory over: the tag is OFF, with the UID from blocks 0 and 1.
    pub fn open(memory: M) -> Tag<M>
        ensures value { box_of M.holds result ≡ opened (M.holds memory) }
    {
        let [a, b, c, _] = memory.read(0).unwrap();
        let [d, e, f, g] = memory.read(1).unwrap();
        Tag {
            memory,
            state: State::Off,
            from_halt: false,
            uid: [a, b, c, d, e, f, g],
            code: HYPHENS,
        }
    }
}
