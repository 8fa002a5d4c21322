// Runs vectors that other programs computed, one a line on standard input: `crc HEX` and `layout SIZE HEX`.
#![tactic(auto)]

ghost use Rattle.std.specs.Prelude.{◌≡◌, ◌++◌, IfOk, vec_items};
ghost use Rattle.std.specs.List.{list_all};
ghost use Rattle.std.specs.Option.{option_map};
ghost use Rattle.vectors.specs.Hex.{is_capital_digit, written, sent_line};
ghost use Rattle.vectors.specs.Fronts.{front};

use air::crc::crc_a;
use anyhow::anyhow;
use phone::listing::LONGEST;
use pictures::list_padded;
use std::alloc::{AllocError, Global};
use std::io::{BufRead, BufReader, Write};

// Whether all of a text's signs are hexadecimal digits in capitals. No sign ends the pass, so that the compiler can look at many at once.
fn are_capital_digits(text: &str) -> bool
    ensures value { result ≡ list_all is_capital_digit text.now }
{
    let mut all = true;
    for sign in text.as_bytes() {
        all &= matches!(sign, b'0'..=b'9' | b'A'..=b'F');
    }
    all
}

// The bytes that a text writes in hexadecimal digits, if it does so in capitals, which is looked at before memory is asked for. An Option in a Result: an error enum of two cases would be no plainer, as the one caller has words for None alone.
fn bytes_written(heap: Global, text: &str) -> Result<Option<Vec<u8>>, AllocError>
    ensures made { IfOk result (λ o. option_map vec_items o ≡ written text.now) }
{
    if !are_capital_digits(text) {
        return Ok(None);
    }
    let mut bytes = Vec::from_elem(heap, 0, text.len() / 2)?;
    match hex::decode_to_slice(text, &mut bytes) {
        Ok(()) => Ok(Some(bytes)),
        Err(_) => Ok(None),
    }
}

// A CRC as it is sent, low byte first, in digits, and the line's end.
fn sent_line(heap: Global, crc: u16) -> Result<Vec<u8>, AllocError>
    ensures made { IfOk result (λ v. v.items ≡ sent_line crc) }
{
    let mut line = hex::encode_upper(heap, crc.to_le_bytes())?;
    line.push('\n')?;
    Ok(line.into_bytes())
}

// The first bytes of a picture: up to the area, whose size in eights is given, and the area's first bytes.
fn picture_with(heap: Global, size: u8, area: &[u8]) -> Result<Vec<u8>, AllocError>
    ensures made { IfOk result (λ v. v.items ≡ front size ++ area.now) }
{
    let mut picture = Vec::from_slice(
        heap,
        &[0, 0, 0, 0, 0, 0, 0, 0, 0, 0, 0, 0, 0xe1, 0x10, size, 0],
    )?;
    picture.extend_from_slice(area)?;
    Ok(picture)
}

// The bytes of a word: hexadecimal digits, or `-` for none.
fn bytes_of(heap: Global, word: &str) -> anyhow::Result<Vec<u8>> {
    if word == "-" {
        return Ok(Vec::new(heap));
    }
    bytes_written(heap, word)?.ok_or_else(|| anyhow!(
        "expected capital hexadecimal digits, two a byte"
    ))
}

// The listing of a picture, which the phone puts into a buffer of its caller's.
fn layout_lines(heap: Global, size: u8, area: &[u8]) -> anyhow::Result<Vec<u8>> {
    let mut lines = [0; LONGEST];
    let n = list_padded(&picture_with(heap, size, area)?, &mut lines).unwrap();
    Ok(Vec::from_slice(heap, &lines[..n])?)
}

// What a line of input is answered.
fn answer(heap: Global, line: &str) -> anyhow::Result<Vec<u8>> {
    match line.split_once(' ') {
        Some(("crc", word)) => {
            let bytes = bytes_of(heap, word)?;
            Ok(sent_line(heap, crc_a(&bytes))?)
        }
        Some(("layout", rest)) => {
            let Some((size, area)) = rest.split_once(' ') else {
                return Err(anyhow!("expected `layout SIZE HEX`"));
            };
            let size = bytes_of(heap, size)?;
            let [size] = size.as_slice() else {
                return Err(anyhow!("expected a size of one byte"));
            };
            let area = bytes_of(heap, area)?;
            layout_lines(heap, *size, &area)
        }
        _ => Err(anyhow!("expected `crc HEX` or `layout SIZE HEX`")),
    }
}

fn run(rt: &HostRuntime) -> anyhow::Result<()> {
    let heap = rt.alloc();
    let mut out = rt.stdout();
    for (i, line) in BufReader::new(heap, rt.stdin())?.lines(heap).enumerate() {
        match answer(heap, &line?) {
            Ok(text) => out.write_all(&text)?,
            Err(error) => {
                let number = i.saturating_add(1);
                return Err(anyhow!("line {number}: {error}"));
            }
        }
    }
    Ok(())
}

fn main(rt: HostRuntime) -> anyhow::Result<()> {
    run(&rt)
}
