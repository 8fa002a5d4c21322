// What a box's memory means, and two memories that keep this meaning.
#![tactic(auto)]

ghost use Rattle.std.specs.Prelude.{◌≡◌, length};
ghost use Rattle.memory.specs.Memory.{Contents, reading, writing, written};

use air::fault::Fault;

pub mod block;
pub mod latest;
pub mod log;
pub mod picture;

pub const BLOCKS: u8 = 64;

// 64 blocks of four bytes, and a number of writes left.
pub trait Memory {
    ghost holds: { Self → Contents };

    ghost whole: { (m : Self) → length (holds m).blocks ≡ 64 };

    fn read(&self, block: u8) -> Result<[u8; 4], Fault>
        ensures value { result ≡ reading (holds self.now) block };

    fn left(&self) -> u32
        ensures value { result ≡ (holds self.now).left };

    // Block and bytes side by side, as a memory is called.
    fn write(&mut self, block: u8, bytes: [u8; 4]) -> Result<(), Fault>
        ensures value { result ≡ writing (holds self.old) block }
        ensures after { holds self.new ≡ written (holds self.old) block bytes };
}

// A block above 63.
const NO_BLOCK: Fault = Fault::Memory {
    number: 14,
    address: 0,
};

// No write left.
const SPENT: Fault = Fault::Memory {
    number: 15,
    address: 0,
};
