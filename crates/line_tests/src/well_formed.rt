// Lines that are well-formed, and answers.
use answers::{frame_line, power_line};
use calls::call::{Kind, Line, read};
use std::test::Fail;

#[test]
fn lines_without_a_word_are_blank(rt: HostRuntime) -> Result<(), Fail> {
    for line in ["", "   ", "# on", "  #", "#on#"] {
        let Ok(Line::Blank) = read(rt.alloc(), line.as_bytes()) else {
            return Err(Fail::new(line));
        };
    }
    Ok(())
}

#[test]
fn short_calls_are_read(rt: HostRuntime) -> Result<(), Fail> {
    let Ok(Line::PowerOn) = read(rt.alloc(), b"  on  ") else {
        return Err(Fail::new("spaces around"));
    };
    let Ok(Line::PowerOff) = read(rt.alloc(), b"off#now") else {
        return Err(Fail::new("a comment right after the word"));
    };
    let Ok(Line::Memory) = read(rt.alloc(), b"memory # all of it") else {
        return Err(Fail::new("a comment after a space"));
    };
    Ok(())
}

#[test]
fn boxes_are_read(rt: HostRuntime) -> Result<(), Fail> {
    let line = b"box  picture 4294967295 04aAbBcCdDeEfF 0a1B2c3D ffFFffFF";
    let Ok(Line::Make(order)) = read(rt.alloc(), line) else {
        return Err(Fail::new("a picture"));
    };
    assert_eq!(rt; order.kind, Kind::Picture);
    assert_eq!(rt; order.size, 4294967295);
    assert_eq!(rt; order.uid, [0x04, 0xaa, 0xbb, 0xcc, 0xdd, 0xee, 0xff]);
    assert_eq!(rt; order.product, [0x0a, 0x1b, 0x2c, 0x3d]);
    assert_eq!(rt; order.password, [0xff, 0xff, 0xff, 0xff]);
    let line = b"box log 007 00000000000000 00000000 00000000";
    let Ok(Line::Make(order)) = read(rt.alloc(), line) else {
        return Err(Fail::new("a log"));
    };
    assert_eq!(rt; order.kind, Kind::Log);
    assert_eq!(rt; order.size, 7);
    Ok(())
}

struct FrameCase {
    line: &'static str,
    bytes: &'static [u8],
    count: u8,
    room: Option<u32>,
}

const FRAMES: [FrameCase; 6] = [
    FrameCase {
        line: "frame 3000",
        bytes: &[0x30, 0x00],
        count: 8,
        room: None,
    },
    FrameCase {
        line: "frame aBcD",
        bytes: &[0xab, 0xcd],
        count: 8,
        room: None,
    },
    FrameCase {
        line: "frame - 0",
        bytes: &[],
        count: 0,
        room: None,
    },
    FrameCase {
        line: "frame 26 7",
        bytes: &[0x26],
        count: 7,
        room: None,
    },
    FrameCase {
        line: "frame   52  255   0 ",
        bytes: &[0x52],
        count: 255,
        room: Some(0),
    },
    FrameCase {
        line: "frame 52 7 18#19",
        bytes: &[0x52],
        count: 7,
        room: Some(18),
    },
];

#[test]
fn frames_are_read(rt: HostRuntime) -> Result<(), Fail> {
    for case in &FRAMES {
        let Ok(Line::Frame { bytes, count, room }) = read(rt.alloc(), case.line.as_bytes()) else {
            return Err(Fail::new(case.line));
        };
        assert_eq!(rt; bytes.as_slice(), case.bytes, "{}", case.line);
        assert_eq!(rt; (count, room), (case.count, case.room), "{}", case.line);
    }
    Ok(())
}

struct AnswerCase {
    bits: usize,
    buffer: &'static [u8],
    shown: bool,
    line: &'static str,
}

const ANSWERS: [AnswerCase; 6] = [
    AnswerCase {
        bits: 0,
        buffer: &[1],
        shown: false,
        line: "silence\n",
    },
    AnswerCase {
        bits: 12,
        buffer: &[0x0f, 0xa0, 0xee],
        shown: false,
        line: "answer 12 0FA0\n",
    },
    AnswerCase {
        bits: 8,
        buffer: &[0x0f, 0xa0],
        shown: true,
        line: "answer 8 0F | 0FA0\n",
    },
    AnswerCase {
        bits: 9,
        buffer: &[0x0f],
        shown: true,
        line: "answer 9 0F | 0F\n",
    },
    AnswerCase {
        bits: 0,
        buffer: &[],
        shown: true,
        line: "silence | -\n",
    },
    AnswerCase {
        bits: usize::MAX,
        buffer: &[],
        shown: false,
        line: "answer 18446744073709551615 -\n",
    },
];

#[test]
fn answers_are_written(rt: HostRuntime) -> Result<(), Fail> {
    for case in &ANSWERS {
        let line = frame_line(rt.alloc(), Ok(case.bits), case.buffer, case.shown)?;
        assert_eq!(rt; line.as_slice(), case.line.as_bytes(), "{}", case.line);
    }
    Ok(())
}

#[test]
fn codes_are_written(rt: HostRuntime) -> Result<(), Fail> {
    let line = power_line(rt.alloc(), Ok((true, 5)), *b"A5z")?;
    assert_eq!(rt; line.as_slice(), b"drawn 5 A5z\n".as_slice());
    Ok(())
}
