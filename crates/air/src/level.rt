// Cascade levels: a UID of seven bytes is told in two steps.
ghost use Rattle.std.specs.Prelude.{◌≡◌};
ghost use Rattle.air.specs.Levels.{checked, level_bytes};

#[derive(Clone, Copy)]
pub enum Level {
    One,
    Two,
}

// Stands first at level one: the UID goes on at level two.
const CASCADE_TAG: u8 = 0x88;

// Four bytes and their check byte, BCC.
fn checked(a: u8, b: u8, c: u8, d: u8) -> [u8; 5]
    ensures value { result ≡ checked a b c d }
{
    [a, b, c, d, a ^ b ^ c ^ d]
}

// The five bytes that a level tells of a UID.
pub fn level_bytes(level: Level, uid: [u8; 7]) -> [u8; 5]
    ensures value { result ≡ level_bytes level uid }
{
    let [a, b, c, d, e, f, g] = uid;
    match level {
        Level::One => checked(CASCADE_TAG, a, b, c),
        Level::Two => checked(d, e, f, g),
    }
}
