// The listing of a picture: a line for each TLV that a walk finishes, and a last line with its answer.
ghost use Rattle.std.specs.Prelude.{◌≡◌, ◌+◌, ◌*◌, ◌<◌, ◌≤◌, true, length, is_ok, IfOk};
ghost use Rattle.phone.specs.Buffers.{over};
ghost use Rattle.phone.specs.Layout.{walk_over, walked};
ghost use Rattle.phone.specs.Listing.{IsNear, column, line, tlv_line, last_line, text, listed, listed_into};
ghost use Rattle.phone.specs.Tiling.{LaidOut};

use crate::app::Report;
use crate::cursor::{Cursor, Picture};
use crate::faults::SMALL_BUFFER;
use crate::layout::{Message, Tlv, open, picture_in};
use air::fault::Fault;
use itoa::write_digits;

const LINE: usize = 13;

// The bytes of the longest listing: 240 null TLVs and the last line.
pub const LONGEST: usize = 241 * LINE;

// A number in four columns, to the right. Not by `write!` with a width, since no contract says that it succeeds in fixed memory.
// What calls it asks for the bound too: a `u16` may have five digits, and no type here says that these numbers have four.
fn column(n: u16) -> [u8; 4]
    requires { n < 10000 }
    ensures value { result ≡ column n }
{
    let mut column = [b' '; 4];
    write_digits(u64::from(n), &mut column, 4);
    column
}

// A line of three numbers.
fn line(a: u16, b: u16, c: u16) -> [u8; LINE]
    requires { (a < 10000) × ((b < 10000) × (c < 10000)) }
    ensures value { result ≡ line a b c }
{
    let columns = [column(a), column(b), column(c)];
    let mut line = [b'\n'; LINE];
    line[..12].copy_from_slice(columns.as_flattened());
    line
}

// The line of a TLV.
fn tlv_line(tlv: Tlv) -> [u8; LINE]
    requires { tlv.at < 10000 }
    ensures value { result ≡ tlv_line tlv }
{
    line(tlv.at, u16::from(tlv.kind), u16::from(tlv.length))
}

// The line of a walk's answer.
fn last_line(answer: Result<Message, Fault>) -> [u8; LINE]
    requires { IsNear answer }
    ensures value { result ≡ last_line answer }
{
    let Report {
        number,
        place,
        length,
    } = Report::from(answer);
    line(number, place, length)
}

// Puts a line at a place of a buffer: the place after it, since the buffer is the caller's and does not say how far it is filled.
fn put_line(out: &mut [u8], at: usize, line: &[u8; LINE]) -> usize
    requires { at + 13 ≤ length out.old }
    ensures value { result ≡ at + length line.now }
    ensures bound { result ≡ at + 13 }
    ensures after { out.new ≡ over out.old at line.now }
{
    out[at..at + LINE].copy_from_slice(line);
    at + LINE
}

// Puts the lines of a walk from the cursor on: the number of bytes put.
fn put_walk(out: &mut [u8], mut cursor: Cursor) -> usize
    requires { 13 * (length cursor.left + 1) ≤ length out.old }
    ensures value { result ≡ length (text (walk_over cursor.entry.picture cursor.entry.end cursor.entry.left)) }
    ensures bound { result ≤ 13 * (length cursor.entry.left + 1) }
    ensures after { out.new ≡ over out.old 0 (text (walk_over cursor.entry.picture cursor.entry.end cursor.entry.left)) }
{
    let mut at = 0;
    loop {
        match cursor.next_tlv() {
            Ok(tlv) => {
                at = put_line(out, at, &tlv_line(tlv));
                if let Some(message) = tlv.message() {
                    return put_line(out, at, &last_line(Ok(message)));
                }
            }
            Err(fault) => return put_line(out, at, &last_line(Err(fault))),
        }
    }
}

// Puts the listing of a picture into a buffer that is large enough: the number of bytes put.
fn put_listing(out: &mut [u8], picture: &Picture) -> usize
    requires { 3133 ≤ length out.old }
    ensures value { result ≡ length (text (walked picture.now)) }
    ensures bound { result ≤ 3133 }
    ensures after { out.new ≡ over out.old 0 (text (walked picture.now)) }
    ensures laid { LaidOut picture.now (walked picture.now) }
{
    match open(picture) {
        Ok(cursor) => put_walk(out, cursor),
        Err(fault) => put_line(out, 0, &last_line(Err(fault))),
    }
}

// Puts the listing of a picture first into a buffer, whose later bytes are kept: the number of bytes put.
// The buffer is the caller's, since the phone end allocates nothing.
pub fn list(picture: &[u8], out: &mut [u8]) -> Result<usize, Fault>
    ensures value { result ≡ listed picture.now out.old }
    ensures bound { IfOk result (λ n. n ≤ 3133) }
    ensures after { out.new ≡ listed_into picture.now out.old }
    ensures laid { is_ok result ≡ true → LaidOut picture.now (walked picture.now) }
{
    let picture = picture_in(picture)?;
    if out.len() < LONGEST {
        return Err(SMALL_BUFFER);
    }
    Ok(put_listing(out, picture))
}
