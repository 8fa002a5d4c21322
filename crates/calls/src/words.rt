// The words of a line: separated by spaces, up to the comment.
ghost use Rattle.std.specs.Prelude.{◌≡◌, ◌≤◌, length};
ghost use Rattle.calls.specs.Words.{up_to, spaces, uncommented, first, rest};

// How many signs come before the first of a kind.
fn up_to(sign: u8, text: &[u8]) -> usize
    ensures value { result ≡ up_to sign text.now }
    ensures bound { result ≤ length text.now }
{
    text.iter().take_while(|each| **each != sign).count()
}

// How many spaces come first.
fn leading_spaces(text: &[u8]) -> usize
    ensures value { result ≡ spaces text.now }
    ensures bound { result ≤ length text.now }
{
    text.iter().take_while(|each| **each == b' ').count()
}

// The line without its comment.
pub(crate) fn without_comment(line: &[u8]) -> &[u8]
    ensures value { result.now ≡ uncommented line.now }
{
    &line[..up_to(b'#', line)]
}

// The first word, empty where there is none, and what follows it.
pub(crate) fn next_word(text: &[u8]) -> (&[u8], &[u8])
    ensures word { result.0.now ≡ first text.now }
    ensures after { result.1.now ≡ rest text.now }
{
    let (_, unspaced) = text.split_at(leading_spaces(text));
    unspaced.split_at(up_to(b' ', unspaced))
}
