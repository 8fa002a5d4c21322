// The listing of a picture that is given by its first bytes.
#![tactic(auto)]

ghost use Rattle.std.specs.Prelude.{◌≡◌, ◌≤◌, IfOk};
ghost use Rattle.pictures.specs.Padded.{padded, put, put_into};

use air::fault::Fault;
use phone::listing::list;

// The picture that begins with these bytes: missing ones count as 00h, further ones are ignored.
fn padded_picture(bytes: &[u8]) -> [u8; 256]
    ensures value { result ≡ padded bytes.now }
{
    let mut picture = [0; 256];
    let n = bytes.len().min(256);
    picture[..n].copy_from_slice(&bytes[..n]);
    picture
}

// Puts the listing of the picture that begins with these bytes first into a buffer, whose later bytes are kept: the number of bytes put.
pub fn list_padded(bytes: &[u8], out: &mut [u8]) -> Result<usize, Fault>
    ensures value { result ≡ put bytes.now out.old }
    ensures bound { IfOk result (λ n. n ≤ 3133) }
    ensures after { out.new ≡ put_into bytes.now out.old }
{
    list(&padded_picture(bytes), out)
}

#[cfg(test)]
mod tests;
