// The window: the text that READ shows inside the address area, and the bytes shown around it.
ghost use Rattle.std.specs.Prelude.{◌≡◌, ◌≤◌};

use crate::map::{KEYHOLE, PASSWORD};
use memory::block::Block;
use std::array;

// The first `len` bytes of `text`, from address `start` on: an array with a length beside it, since a tag allocates nothing.
#[derive(Clone, Copy)]
pub(crate) struct Window {
    start: u8,
    len: u8,
    text: [u8; 18],
    ghost within: { len ≤ 18 },
}

impl Window {
    ghost use Rattle.tag.specs.Window.{window_by, meant, read_in, byte_shown, block_shown};

    // The window by its setting, blocks 60 to 63 and the code.
    pub(crate) fn new(setting: [u8; 4], custom: [[u8; 4]; 4], code: [u8; 3]) -> Window
        ensures value { meant result ≡ window_by (read_in setting custom) code }
    {
        let [a, b, c, d] = custom;
        let [x, y, z] = code;
        let start = ((setting[0] & 0x3f) << 2) + (setting[1] >> 6);
        // Written out, so that it is seen which byte lies where: 14 bytes of the custom field, the separator, the code.
        let both = [
            a[0], a[1], a[2], a[3], b[0], b[1], b[2], b[3], c[0], c[1], c[2], c[3], d[0], d[1],
            d[2], x, y, z,
        ];
        let alone = [x, y, z, 0, 0, 0, 0, 0, 0, 0, 0, 0, 0, 0, 0, 0, 0, 0];
        let (len, text) = match (setting[1] & 1 == 1, setting[1] >> 2 & 1 == 1) {
            (true, true) => (18, both),
            (true, false) => (14, both),
            (false, true) => (3, alone),
            (false, false) => (0, alone),
        };
        Window { start, len, text }
    }

    // The byte shown at an address where `stored` is stored.
    fn shown_byte(&self, address: u8, stored: u8) -> u8
        ensures value { result ≡ byte_shown (meant self.now) address stored }
    {
        // Neither the password nor the keyhole is ever shown.
        let block = address >> 2;
        if block == PASSWORD || block == KEYHOLE {
            0
        } else if (16..=175).contains(&address)
            && address >= self.start
            && address - self.start < self.len
        {
            self.text[(address - self.start) as usize]
        } else {
            stored
        }
    }

    // The bytes shown of a block.
    pub(crate) fn shown_block(&self, block: Block, stored: [u8; 4]) -> [u8; 4]
        ensures value { result ≡ block_shown (meant self.now) block stored }
    {
        let at = 4 * block.number();
        array::from_fn(|i| self.shown_byte(at + i as u8, stored[i]))
    }
}
