// Lock bits: which blocks are locked, and which bits a write of blocks 2, 3 and 44 sets.
ghost use Rattle.std.specs.Prelude.{◌≡◌, cond};
ghost use Rattle.tag.specs.Locks.{statlock, lock_bit, gained, gained_block, merged};

use crate::map::{CAPABILITY, DYNAMIC_LOCKS, STATIC_LOCKS};
use memory::block::Block;
use std::array;

// The lock bits of blocks 3 to 15, by the bytes of block 2.
fn statlock(two: [u8; 4]) -> u16
    ensures value { result ≡ statlock two }
{
    let [_, _, low, high] = two;
    u16::from_le_bytes([low, high])
}

// The lock bit of a block, by the bytes of blocks 2 and 44.
pub(crate) fn lock_bit(block: Block, fixed: [u8; 4], dynamic: [u8; 4]) -> bool
    ensures value { result ≡ lock_bit fixed dynamic block }
{
    let number = block.number();
    match number {
        0..=2 => false,
        3..=15 => (statlock(fixed) >> number) & 1 == 1,
        44..=51 => (dynamic[3] >> (number - 44)) & 1 == 1,
        _ => {
            let k = (number - 16) >> 1;
            (dynamic[(k >> 3) as usize] >> (k & 7)) & 1 == 1
        }
    }
}

// The bits that a guard shuts, if it is set.
fn shut_by(is_set: bool, mask: u16) -> u16
    ensures value { result ≡ cond is_set mask 0 }
{
    if is_set { mask } else { 0 }
}

// The lock bits after a write of those carried: a guard that was set before shuts its bits.
fn gain(old: u16, carried: u16) -> u16
    ensures value { result ≡ gained old carried }
{
    let shut = shut_by(old & 1 == 1, 0x0008)
        | shut_by(old >> 1 & 1 == 1, 0x03f0)
        | shut_by(old >> 2 & 1 == 1, 0xfc00);
    old | (carried & !shut)
}

// Block 2 after a write.
fn gain_block(old: [u8; 4], fresh: [u8; 4]) -> [u8; 4]
    ensures value { result ≡ gained_block old fresh }
{
    let [a, b, _, _] = old;
    let [low, high] = gain(statlock(old), statlock(fresh)).to_le_bytes();
    [a, b, low, high]
}

// What a write leaves in a block.
pub(crate) fn merge(block: Block, old: [u8; 4], fresh: [u8; 4]) -> [u8; 4]
    ensures value { result ≡ merged block old fresh }
{
    match block.number() {
        STATIC_LOCKS => gain_block(old, fresh),
        CAPABILITY | DYNAMIC_LOCKS => array::from_fn(|i| old[i] | fresh[i]),
        _ => fresh,
    }
}
