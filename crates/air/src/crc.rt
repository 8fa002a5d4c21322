// CRC_A, the check over a frame's bytes.
ghost use Rattle.std.specs.Prelude.{◌≡◌};
ghost use Rattle.air.specs.Crc.{worth, byte_in, crc};

// The shift register, by its two bytes.
#[derive(Clone, Copy)]
struct Register {
    low: u8,
    high: u8,
}

impl Register {
    const INITIAL: Register = Register {
        low: 0x63,
        high: 0x63,
    };

    // The register after the eight bits of a byte, all at once.
    fn fed(self, byte: u8) -> Register
        ensures value { worth result ≡ byte_in (worth self) byte }
    {
        let sum = self.low ^ byte;
        let mixed = sum ^ (sum << 4);
        Register {
            low: self.high ^ (mixed << 3) ^ (mixed >> 4),
            high: mixed ^ (mixed >> 5),
        }
    }
}

impl From<Register> for u16 {
    ghost from_gives = { λ r n. n ≡ worth r };

    fn from(register: Register) -> u16 {
        u16::from_le_bytes([register.low, register.high])
    }
}

// CRC_A of a run of bytes; its low byte is sent first.
#[tactic(auto, unfolding(crate::specs::Crc::crc))]
pub fn crc_a(bytes: &[u8]) -> u16
    ensures value { result ≡ crc bytes.now }
{
    let mut register = Register::INITIAL;
    for byte in bytes {
        register = register.fed(*byte);
    }
    u16::from(register)
}
