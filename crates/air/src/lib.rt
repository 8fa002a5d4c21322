// The air rules: what a box's tag and a phone share.
#![tactic(auto)]

pub mod answer;
pub mod bits;
pub mod crc;
pub mod fault;
pub mod frame;
pub mod level;
