// A block's number: there are 64 blocks.
ghost use Rattle.std.specs.Prelude.{◌≡◌, ◌+◌, ◌%◌, ◌<◌};
ghost use Rattle.memory.specs.Block.{numbered};

use crate::{BLOCKS, NO_BLOCK};
use air::fault::Fault;
use std::marker::Model;

#[derive(Clone, Copy)]
pub struct Block {
    number: u8,
}

// Clauses see the number.
impl Model for Block {
    ghost use Rattle.std.specs.Prelude.{ℕ, ◌<◌};

    ghost Value = { ℕ };

    ghost view = { λ b. b.number };

    ghost invariant = { λ b. b.number < 64 };

    ghost inverse = { λ n. record { number = n } };
}

impl Block {
    pub fn number(self) -> u8
        ensures value { result ≡ self }
        ensures below { result < 64 }
    {
        self.number
    }

    // The block that many further on, going on from the last to the first.
    pub fn wrapping_add(self, further: u8) -> Block
        ensures value { result ≡ (self + further) % 64 }
        ensures below { self < 64 }
    {
        Block {
            number: self.number.wrapping_add(further) % BLOCKS,
        }
    }
}

impl TryFrom<u8> for Block {
    type Error = Fault;

    ghost try_from_gives = { λ number r. r ≡ numbered number };

    fn try_from(number: u8) -> Result<Block, Fault> {
        if number < BLOCKS {
            Ok(Block { number })
        } else {
            Err(NO_BLOCK)
        }
    }
}
