// Runs of bits, lowest first, and what is left of a level's bits after those that were given.
ghost use Rattle.std.specs.Prelude.{◌≡◌, ◌*◌, ◌^◌, ◌<◌, ◌≤◌, true, length, take, drop};
ghost use Rattle.air.specs.Bits.{cut, bits_of, begins, gathered, spread, packed, rest_after, Packing};

// The first `count` bits of `value`: a number and no list, since a tag allocates nothing.
#[derive(Clone, Copy)]
pub struct Bits {
    pub count: u8,
    pub value: u64,
}

// A number of bits, packed into bytes from bit 0 on; the bits above are zeros. An array, since a tag allocates nothing.
#[derive(Clone, Copy)]
pub struct Packed {
    pub count: u8,
    pub bytes: [u8; 5],
}

// Up to eight bytes as a number, lowest byte first.
fn number(bytes: &[u8]) -> u64
    requires { length bytes.now ≤ 8 }
    ensures bits { bits_of bytes.now ≡ cut 2 (8 * length bytes.now) result }
    ensures below { result < 2 ^ (8 * length bytes.now) }
{
    let mut eight = [0; 8];
    eight[..bytes.len()].copy_from_slice(bytes);
    u64::from_le_bytes(eight)
}

pub(crate) fn first_bits(bytes: &[u8], count: u8) -> Bits
    requires { (count < 40) × ((count ≤ 8 * length bytes.now) × (length bytes.now ≤ 5)) }
    ensures value { result ≡ gathered (take count (bits_of bytes.now)) }
{
    Bits {
        count,
        value: number(bytes) & ((1u64 << count) - 1),
    }
}

// The bits of a level from one on.
fn rest_from(level: [u8; 5], count: u8) -> Packed
    requires { count ≤ 40 }
    ensures value { result ≡ packed (drop count (bits_of level)) }
{
    let [a, b, c, d, e, _, _, _] = (number(&level) >> count).to_le_bytes();
    Packed {
        count: 40 - count,
        bytes: [a, b, c, d, e],
    }
}

impl Bits {
    // Whether these bits begin a level's.
    fn begin(self, level: [u8; 5]) -> bool
        ensures value { result ≡ begins (spread self) (bits_of level) }
        ensures within { result ≡ true → self.count ≤ 40 }
    {
        let all = number(&level);
        if self.count > 40 {
            return false;
        }
        let mask = (1u64 << self.count) - 1;
        all & mask == self.value & mask
    }

    // The rest of a level's bits, if these begin them.
    #[tactic(auto, using(crate::proofs::Resting::packs))]
    pub fn rest_of(self, level: [u8; 5]) -> Option<Packed>
        ensures value { result ≡ rest_after level self }
        ensures packing { Packing }
    {
        if self.begin(level) {
            Some(rest_from(level, self.count))
        } else {
            None
        }
    }
}
