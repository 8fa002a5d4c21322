// Tap codes: three base-36 digits that no other tap number has.
ghost use Rattle.std.specs.Prelude.{◌≡◌, ◌<◌};
ghost use Rattle.tag.specs.Code.{digit, digits, code_of, Apart};

// The number of codes.
pub const CODES: u32 = 46_656;

// Shown where no code was drawn.
pub const HYPHENS: [u8; 3] = [b'-'; 3];

// One digit: 0 to 9, then A to Z. `char::from_digit` has small letters, and a `char`.
pub(crate) fn digit_of(n: u8) -> u8
    requires { n < 36 }
    ensures value { result ≡ digit n }
{
    if n < 10 { b'0' + n } else { b'A' + (n - 10) }
}

// The digits of a tap number, highest first.
fn digits_of(tap: u16) -> [u8; 3]
    requires { tap < 46656 }
    ensures value { result ≡ digits tap }
{
    [
        digit_of((tap / 1296) as u8),
        digit_of((tap / 36 % 36) as u8),
        digit_of((tap % 36) as u8),
    ]
}

// The code of a tap number; hyphens past the last code.
#[tactic(auto, using(crate::proofs::Coding::apart))]
pub fn tap_code(tap: u16) -> [u8; 3]
    ensures value { result ≡ code_of tap }
    ensures apart { Apart }
{
    if u32::from(tap) < CODES {
        digits_of(tap)
    } else {
        HYPHENS
    }
}
