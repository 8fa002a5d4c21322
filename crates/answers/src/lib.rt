// Answers as lines of text.
#![tactic(auto)]

ghost use Rattle.std.specs.Prelude.{◌≡◌, IfOk, string_bytes, codes};
ghost use Rattle.answers.specs.Hex.{hex};
ghost use Rattle.answers.specs.Answer.{line, layer, refused, made_line, drawn_line, power_line, bytes_of, answered, frame_line, left_line, row_line};

use air::fault::Fault;
use std::alloc::{AllocError, Global};

// A text and the line's end.
fn line(heap: Global, text: &str) -> Result<Vec<u8>, AllocError>
    ensures made { IfOk result (λ v. v.items ≡ line text.now) }
{
    Ok(format!(in heap; "{text}\n")?.into_bytes())
}

// Bytes in digits, or `-` for none.
fn digits(heap: Global, bytes: &[u8]) -> Result<String, AllocError>
    ensures made { IfOk result (λ s. string_bytes s ≡ hex bytes.now) }
{
    if bytes.is_empty() {
        return String::from_str(heap, "-");
    }
    hex::encode_upper(heap, bytes)
}

// The word for a fault's layer. No `Display` of a fault, since these are the words of lines alone.
fn layer(fault: Fault) -> &'static str
    ensures value { result.now ≡ layer fault }
{
    match fault {
        Fault::Memory { .. } => "memory",
        Fault::Call { .. } => "call",
        Fault::Air { .. } => "air",
        Fault::Layout { .. } => "layout",
    }
}

// A fault by its number, its layer and its address.
fn refused(heap: Global, fault: Fault) -> Result<String, AllocError>
    ensures made { IfOk result (λ s. string_bytes s ≡ refused fault) }
{
    let (number, layer, address) = (fault.number(), layer(fault), fault.address());
    format!(in heap; "refused {number} {layer} {address}")
}

// The answer where a box is made.
pub fn made_line(heap: Global, res: Result<(), Fault>) -> Result<Vec<u8>, AllocError>
    ensures made { IfOk result (λ v. v.items ≡ made_line res) }
{
    match res {
        Ok(()) => line(heap, "made"),
        Err(fault) => line(heap, &refused(heap, fault)?),
    }
}

// The number drawn and the code.
fn drawn_line(heap: Global, number: u16, code: [u8; 3]) -> Result<Vec<u8>, AllocError>
    ensures made { IfOk result (λ v. v.items ≡ drawn_line number code) }
{
    let mut text = format!(in heap; "drawn {number} ")?.into_bytes();
    text.extend_from_slice(&code)?;
    text.push(b'\n')?;
    Ok(text)
}

// The answer where power comes: whether there is a code, the number drawn, and the code.
// The pair is what power on answers, taken as it comes.
pub fn power_line(
    heap: Global,
    drawn: Result<(bool, u16), Fault>,
    code: [u8; 3],
) -> Result<Vec<u8>, AllocError>
    ensures made { IfOk result (λ v. v.items ≡ power_line drawn code) }
{
    match drawn {
        Ok((true, number)) => drawn_line(heap, number, code),
        Ok((false, _)) => line(heap, "no code"),
        Err(fault) => line(heap, &refused(heap, fault)?),
    }
}

// The answer where power goes.
pub fn off_line(heap: Global) -> Result<Vec<u8>, AllocError>
    ensures made { IfOk result (λ v. v.items ≡ line (codes "off")) }
{
    line(heap, "off")
}

// The bytes of a buffer that bits take, as far as it goes.
fn bytes_of(bits: usize, buffer: &[u8]) -> &[u8]
    ensures value { result.now ≡ bytes_of bits buffer.now }
{
    buffer.get(..bits.div_ceil(8)).unwrap_or(buffer)
}

// The answer to a frame, by the number of its bits and the buffer that it lies in.
fn answered(heap: Global, bits: Result<usize, Fault>, buffer: &[u8]) -> Result<String, AllocError>
    ensures made { IfOk result (λ s. string_bytes s ≡ answered bits buffer.now) }
{
    match bits {
        Ok(0) => String::from_str(heap, "silence"),
        Ok(bits) => {
            let bytes = digits(heap, bytes_of(bits, buffer))?;
            format!(in heap; "answer {bits} {bytes}")
        }
        Err(fault) => refused(heap, fault),
    }
}

// The answer to a frame, and after it the whole buffer if that is to be shown. Bits and buffer come side by side, as the tag's call gives them.
pub fn frame_line(
    heap: Global,
    bits: Result<usize, Fault>,
    buffer: &[u8],
    shown: bool,
) -> Result<Vec<u8>, AllocError>
    ensures made { IfOk result (λ v. v.items ≡ frame_line bits buffer.now shown) }
{
    let answer = answered(heap, bits, buffer)?;
    if shown {
        let whole = digits(heap, buffer)?;
        Ok(format!(in heap; "{answer} | {whole}\n")?.into_bytes())
    } else {
        line(heap, &answer)
    }
}

// How many writes the memory has left.
pub fn left_line(heap: Global, left: u32) -> Result<Vec<u8>, AllocError>
    ensures made { IfOk result (λ v. v.items ≡ left_line left) }
{
    Ok(format!(in heap; "left {left}\n")?.into_bytes())
}

// A row of the memory.
pub fn row_line(heap: Global, row: &[u8]) -> Result<Vec<u8>, AllocError>
    ensures made { IfOk result (λ v. v.items ≡ row_line row.now) }
{
    line(heap, &digits(heap, row)?)
}
