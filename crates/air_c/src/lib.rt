// CRC_A for the phone app in C: a crate of its own, since a static library serves no other crate.
#![tactic(auto)]

ghost use Rattle.std.specs.Prelude.{◌≡◌};
ghost use Rattle.air.specs.Crc.{crc};

#[unsafe(no_mangle)]
pub extern "C" fn youthgoat_crc_a(bytes: &[u8]) -> u16
    ensures value { result ≡ crc bytes.now }
{
    air::crc::crc_a(bytes)
}
