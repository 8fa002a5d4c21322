// Plays lines of input on boxes: each call is answered before the next line is read.
#![tactic(auto)]

ghost use Rattle.std.specs.Prelude.{IfOk};
ghost use Rattle.player.specs.Input.{IsShorter};

use air::answer::ROOM;
use answers::{frame_line, left_line, made_line, off_line, power_line, row_line};
use anyhow::anyhow;
use calls::call::{Kind, Line, Order, ReadError, read};
use memory::latest::Record;
use memory::log::{LogMemory, MOST_PLACES};
use memory::picture::PictureMemory;
use memory::{BLOCKS, Memory};
use std::alloc::{AllocError, Global};
use std::fmt::Display;
use std::io::{BufRead, BufReader, Split, Stdin, Stdout, Write};
use std::process::ExitCode;
use tag::Tag;
use tag::code::{HYPHENS, tap_code};
use tag::making::{Identity, make};

// What the answer buffer holds before a frame.
const UNTOUCHED: u8 = 0xee;

// The lines that come in, and the number of the line that was read last.
#[derive(Drop)]
struct Input {
    heap: Global,
    lines: Split<BufReader<Stdin>>,
    number: u64,
}

impl Input {
    ghost use Rattle.std.specs.Prelude.{◌≤◌};
    ghost use Rattle.player.specs.Input.{lines_left, IsShorter};

    // The message about the line that was read last.
    fn expected(&self, what: &impl Display) -> anyhow::Error {
        let number = self.number;
        anyhow!("line {number}: expected {what}")
    }

    // The call of the next line, or none at the input's end.
    fn next(&mut self) -> anyhow::Result<Option<Line>>
        ensures shorter { IfOk result (λ o. IsShorter self.old o self.new) }
        ensures counted { IfOk result (λ _. lines_left self.new ≤ lines_left self.old) }
    {
        let Some(text) = self.lines.next() else {
            return Ok(None);
        };
        // No input has so many lines that they can't be counted.
        let Some(number) = self.number.checked_add(1) else {
            return Ok(None);
        };
        self.number = number;
        match read(self.heap, &text?) {
            Ok(line) => Ok(Some(line)),
            Err(ReadError::Malformed(expected)) => Err(self.expected(&expected)),
            Err(error) => Err(error.into()),
        }
    }
}

// Plays a frame, and gives its answer as a line.
fn frame<M: Memory>(
    heap: Global,
    tag: &mut Tag<M>,
    bytes: &[u8],
    count: u8,
    room: Option<u32>,
) -> Result<Vec<u8>, AllocError> {
    let size = room.map_or(ROOM, |size| size as usize);
    let mut buffer = Vec::from_elem(heap, UNTOUCHED, size)?;
    let bits = tag.frame(bytes, count, buffer.as_mut_slice());
    frame_line(heap, bits, &buffer, room.is_some())
}

// The writes left, and the stored blocks four to a line.
fn stored<M: Memory>(heap: Global, tag: &Tag<M>) -> Result<Vec<u8>, AllocError> {
    let mut bytes = Vec::new(heap);
    for block in 0..BLOCKS {
        bytes.extend_from_slice(&tag.stored(block).unwrap())?;
    }
    let mut text = left_line(heap, tag.left())?;
    for row in bytes.chunks(16) {
        text.extend_from_slice(&row_line(heap, row)?)?;
    }
    Ok(text)
}

// Plays one call, and gives its answer as lines.
fn answer<M: Memory>(heap: Global, tag: &mut Tag<M>, line: Line) -> Result<Vec<u8>, AllocError> {
    match line {
        Line::Blank | Line::Make(_) => Ok(Vec::new(heap)),
        Line::PowerOn => {
            let drawn = tag.power_on();
            let code = match drawn {
                Ok((_, number)) => tap_code(number),
                Err(_) => HYPHENS,
            };
            power_line(heap, drawn, code)
        }
        Line::PowerOff => {
            tag.power_off();
            off_line(heap)
        }
        Line::Frame { bytes, count, room } => frame(heap, tag, &bytes, count, room),
        Line::Memory => stored(heap, tag),
    }
}

// Makes a box over a memory and plays the lines that follow, up to one that makes a further box, which is handed back.
// Where the box is refused, that is the next line.
fn play<M: Memory + Drop>(
    input: &mut Input,
    out: &mut Stdout,
    mut memory: M,
    order: &Order,
) -> anyhow::Result<Option<Line>>
    ensures shorter { IfOk result (λ o. IsShorter input.old o input.new) }
{
    let heap = input.heap;
    // Field by field, since `calls` knows no tag.
    let identity = Identity {
        uid: order.uid,
        product: order.product,
        password: order.password,
    };
    let made = make(&mut memory, &identity);
    out.write_all(&made_line(heap, made)?)?;
    if made.is_err() {
        return input.next();
    }
    let mut tag = Tag::open(memory);
    while let Some(line) = input.next()? {
        if let Line::Make(_) = line {
            return Ok(Some(line));
        }
        out.write_all(&answer(heap, &mut tag, line)?)?;
    }
    // Once more, since a terminal goes on after its first end of input; the box is gone then.
    input.next()
}

// Makes the box that is ordered, and plays it. A `match`, since each kind of memory is a type of its own that borrows another buffer.
fn serve(input: &mut Input, out: &mut Stdout, order: &Order) -> anyhow::Result<Option<Line>>
    ensures shorter { IfOk result (λ o. IsShorter input.old o input.new) }
{
    match order.kind {
        Kind::Picture => {
            let mut cells = [0; 256];
            let memory = PictureMemory::new(&mut cells, order.size);
            play(input, out, memory, order)
        }
        Kind::Log => {
            // In fixed memory, so that making a box asks for none that there may not be.
            let mut places = [Record::default(); MOST_PLACES];
            let size = MOST_PLACES.min(order.size as usize);
            play(input, out, LogMemory::new(&mut places[..size]), order)
        }
    }
}

// Plays standard input to its end.
fn play_input(rt: &HostRuntime) -> anyhow::Result<()> {
    let heap = rt.alloc();
    let mut input = Input {
        heap,
        lines: BufReader::new(heap, rt.stdin())?.split(heap, b'\n'),
        number: 0,
    };
    let mut out = rt.stdout();
    let mut line = input.next()?;
    while let Some(call) = line {
        line = match call {
            Line::Blank => input.next()?,
            Line::Make(order) => serve(&mut input, &mut out, &order)?,
            _ => return Err(input.expected(&"a box first")),
        };
    }
    Ok(())
}

// Plays standard input to its end, and tells on standard error what ended it before.
pub fn run(rt: &HostRuntime) -> anyhow::Result<ExitCode> {
    match play_input(rt) {
        Ok(()) => Ok(ExitCode::SUCCESS),
        Err(error) => {
            eprintln!(rt; "{error}")?;
            Ok(ExitCode::FAILURE)
        }
    }
}
