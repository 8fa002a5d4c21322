// Numbers written in decimal digits.
ghost use Rattle.std.specs.Prelude.{◌≡◌};
ghost use Rattle.calls.specs.Decimal.{with_digit, number};

// A number with one more digit.
fn with_digit(number: u32, digit: u8) -> Option<u32>
    ensures value { result ≡ with_digit number digit }
{
    let digit = char::from(digit).to_digit(10)?;
    number.checked_mul(10)?.checked_add(digit)
}

// The number that a word writes, if it does.
pub(crate) fn number_in(word: &[u8]) -> Option<u32>
    ensures value { result ≡ number word.now }
{
    if word.is_empty() {
        return None;
    }
    // As plain as `try_fold`: it ends at the same sign.
    let mut n = 0;
    for digit in word {
        n = with_digit(n, *digit)?;
    }
    Some(n)
}
