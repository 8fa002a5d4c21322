// The calls that lines of input give, one a line.
ghost use Rattle.std.specs.Prelude.{◌≡◌, vec_items};
ghost use Rattle.std.specs.Char.{is_ascii_hexdigit};
ghost use Rattle.std.specs.List.{list_all};
ghost use Rattle.std.specs.Option.{ok_or};
ghost use Rattle.calls.specs.Call.{said, read_as, at_end, kind_in, size_in, make_in, frame_bytes, count_in, room_in, frame_with, frame_in, call_in, line_of, Reads};
ghost use Rattle.calls.specs.Hex.{written, written_as};
ghost use Rattle.calls.specs.Words.{first};
ghost use Rattle.calls.specs.declared.call.ReadError.TheVariants.{Malformed};
ghost use Rattle.calls.specs.declared.expected.Expected.TheVariants as expect;

use crate::decimal::number_in;
use crate::expected::Expected;
use crate::words::{next_word, without_comment};
use hex::{FromHex, FromHexError};
use std::alloc::Global;
use thiserror::Error;

// What a box's memory is.
#[derive(Clone, Copy, Debug, PartialEq, Eq)]
pub enum Kind {
    Picture,
    Log,
}

impl TryFrom<&[u8]> for Kind {
    type Error = Expected;

    ghost try_from_gives = { λ w r. r ≡ kind_in w.now };

    fn try_from(word: &[u8]) -> Result<Kind, Expected> {
        match word {
            b"picture" => Ok(Kind::Picture),
            b"log" => Ok(Kind::Log),
            _ => Err(Expected::Kind),
        }
    }
}

// What a box is made over, and with what: the size is a picture's writes or a log's places.
#[derive(Clone, Copy)]
pub struct Order {
    pub kind: Kind,
    pub size: u32,
    pub uid: [u8; 7],
    pub product: [u8; 4],
    pub password: [u8; 4],
}

// What a line calls for.
#[derive(Drop)]
pub enum Line {
    Blank,
    Make(Order),
    PowerOn,
    PowerOff,
    Frame {
        bytes: Vec<u8>,
        count: u8,
        room: Option<u32>,
    },
    Memory,
}

// Why a line is not read.
#[derive(Clone, Copy, Debug, PartialEq, Eq, Error)]
pub enum ReadError {
    #[error("expected {0}")]
    Malformed(Expected),
    #[error("memory allocation failed")]
    OutOfMemory,
}

// By hand: the `From` that thiserror derives has no contract, and contracts here name the error that a `?` makes.
impl From<Expected> for ReadError {
    ghost from_gives = { λ e r. r ≡ Malformed e };

    fn from(expected: Expected) -> ReadError {
        ReadError::Malformed(expected)
    }
}

// The line, if no word is left.
fn at_end(text: &[u8], line: Line) -> Result<Line, Expected>
    ensures value { read_as result ≡ at_end (first text.now) (said line) }
{
    let (word, _) = next_word(text);
    if word.is_empty() {
        Ok(line)
    } else {
        Err(Expected::End)
    }
}

// A number of writes for a picture, of places for a log.
fn size_in(kind: Kind, word: &[u8]) -> Result<u32, Expected>
    ensures value { result ≡ size_in kind word.now }
{
    number_in(word).ok_or(match kind {
        Kind::Picture => Expected::Writes,
        Kind::Log => Expected::Places,
    })
}

// So many bytes in hexadecimal digits.
fn array_in<const N: usize>(word: &[u8], expected: Expected) -> Result<[u8; N], Expected>
    ensures value { result ≡ ok_or (written_as N word.now) expected }
{
    FromHex::from_hex(word).ok().ok_or(expected)
}

// The rest of a line that makes a box.
fn make_in(text: &[u8]) -> Result<Line, Expected>
    ensures value { read_as result ≡ make_in text.now }
{
    let (kind, text) = next_word(text);
    let kind = Kind::try_from(kind)?;
    let (size, text) = next_word(text);
    let size = size_in(kind, size)?;
    let (uid, text) = next_word(text);
    let uid = array_in(uid, Expected::Uid)?;
    let (product, text) = next_word(text);
    let product = array_in(product, Expected::Product)?;
    let (password, text) = next_word(text);
    let password = array_in(password, Expected::Password)?;
    at_end(
        text,
        Line::Make(Order {
            kind,
            size,
            uid,
            product,
            password,
        }),
    )
}

// Whether all of a word's signs are hexadecimal digits. No sign ends the pass, so that the compiler can look at many at once.
fn are_digits(word: &[u8]) -> bool
    ensures value { result ≡ list_all is_ascii_hexdigit word.now }
{
    let mut all = true;
    for sign in word {
        all &= sign.is_ascii_hexdigit();
    }
    all
}

// Any number of bytes in hexadecimal digits, which are looked at before memory is asked for.
fn bytes_in(heap: Global, word: &[u8]) -> Result<Vec<u8>, ReadError>
    ensures reads { Reads vec_items (ok_or (written word.now) expect.Frame) result }
{
    if !are_digits(word) {
        return Err(ReadError::Malformed(Expected::Frame));
    }
    match hex::decode(heap, word) {
        Ok(bytes) => Ok(bytes),
        Err(FromHexError::OutOfMemory) => Err(ReadError::OutOfMemory),
        Err(_) => Err(ReadError::Malformed(Expected::Frame)),
    }
}

// The bytes of a frame, where `-` stands for none.
fn frame_bytes(heap: Global, word: &[u8]) -> Result<Vec<u8>, ReadError>
    ensures reads { Reads vec_items (ok_or (frame_bytes word.now) expect.Frame) result }
{
    match word {
        b"" => Err(ReadError::Malformed(Expected::Frame)),
        b"-" => Ok(Vec::new(heap)),
        _ => bytes_in(heap, word),
    }
}

// A bit count, 8 if absent.
fn count_in(word: &[u8]) -> Result<u8, Expected>
    ensures value { result ≡ count_in word.now }
{
    if word.is_empty() {
        return Ok(8);
    }
    let count = number_in(word).ok_or(Expected::Count)?;
    u8::try_from(count).map_err(|_| Expected::Count)
}

// A room in bytes, none if absent.
fn room_in(word: &[u8]) -> Result<Option<u32>, Expected>
    ensures value { result ≡ room_in word.now }
{
    if word.is_empty() {
        return Ok(None);
    }
    let room = number_in(word).ok_or(Expected::Room)?;
    Ok(Some(room))
}

// The rest of a line with a frame, after its bytes.
fn frame_with(bytes: Vec<u8>, text: &[u8]) -> Result<Line, Expected>
    ensures value { read_as result ≡ frame_with bytes.items text.now }
{
    let (count, text) = next_word(text);
    let count = count_in(count)?;
    let (room, text) = next_word(text);
    let room = room_in(room)?;
    at_end(text, Line::Frame { bytes, count, room })
}

// The rest of a line with a frame.
fn frame_in(heap: Global, text: &[u8]) -> Result<Line, ReadError>
    ensures reads { Reads said (frame_in text.now) result }
{
    let (word, text) = next_word(text);
    let bytes = frame_bytes(heap, word)?;
    Ok(frame_with(bytes, text)?)
}

// What a line calls for, by its first word and what follows that.
fn call_in(heap: Global, call: &[u8], text: &[u8]) -> Result<Line, ReadError>
    ensures reads { Reads said (call_in call.now text.now) result }
{
    match call {
        b"" => Ok(Line::Blank),
        b"box" => Ok(make_in(text)?),
        b"on" => Ok(at_end(text, Line::PowerOn)?),
        b"off" => Ok(at_end(text, Line::PowerOff)?),
        b"frame" => frame_in(heap, text),
        b"memory" => Ok(at_end(text, Line::Memory)?),
        _ => Err(ReadError::Malformed(Expected::Call)),
    }
}

// What a line of input calls for, or what was expected in it.
pub fn read(heap: Global, line: &[u8]) -> Result<Line, ReadError>
    ensures reads { Reads said (line_of line.now) result }
{
    let (call, text) = next_word(without_comment(line));
    call_in(heap, call, text)
}
