// The worked examples of the rules, shown and run.
#![tactic(auto)]

ghost use Rattle.std.specs.Prelude.{◌≡◌};
ghost use Rattle.examples.specs.Worked.{Worked, given, locked_picture, sized_picture};

use air::crc::crc_a;
use phone::app::{Report, youthgoat_layout_walk};

pub mod tags;

// What the code gives on the examples.
#[derive(Clone, Copy)]
pub struct Results {
    pub crc_of_zeros: [u8; 2],
    pub crc_of_12_34: [u8; 2],
    pub past_lock_area: Report,
    pub size_accepted: Report,
    pub size_refused: Report,
}

// A picture with an area of `size` times eight bytes, which begins with an empty message.
fn with_size(size: u8) -> [u8; 256]
    ensures value { result ≡ sized_picture size }
{
    let mut picture = [0; 256];
    picture[12..17].copy_from_slice(&[0xe1, 0x10, size, 0x00, 0x03]);
    picture
}

// A lock control TLV with B0 18 34, a TLV of type 04h that ends at 174, and an empty message at 175.
fn with_lock_area() -> [u8; 256]
    ensures value { result ≡ locked_picture }
{
    let mut picture = with_size(0x1e);
    picture[16..23].copy_from_slice(&[0x01, 0x03, 0xb0, 0x18, 0x34, 0x04, 152]);
    picture[175] = 0x03;
    picture
}

// Every example holds of the rules, and the code gives what the rules give.
#[tactic(auto, using(crate::proofs::Showing::worked))]
pub fn worked_examples() -> Results
    ensures value { result ≡ given }
    ensures hold { Worked }
{
    Results {
        crc_of_zeros: crc_a(&[0x00, 0x00]).to_le_bytes(),
        crc_of_12_34: crc_a(&[0x12, 0x34]).to_le_bytes(),
        past_lock_area: youthgoat_layout_walk(&with_lock_area()),
        size_accepted: youthgoat_layout_walk(&with_size(0x1e)),
        size_refused: youthgoat_layout_walk(&with_size(0x1f)),
    }
}
