// Lines that are malformed, each with what was expected in it.
use calls::call::{ReadError, read};
use calls::expected::Expected;
use std::test::Fail;

struct Case {
    line: &'static str,
    expected: Expected,
}

const MALFORMED: [Case; 40] = [
    Case {
        line: "bax",
        expected: Expected::Call,
    },
    Case {
        line: "On",
        expected: Expected::Call,
    },
    Case {
        line: "one",
        expected: Expected::Call,
    },
    Case {
        line: "\ton",
        expected: Expected::Call,
    },
    Case {
        line: "on\t",
        expected: Expected::Call,
    },
    Case {
        line: "-",
        expected: Expected::Call,
    },
    Case {
        line: "box",
        expected: Expected::Kind,
    },
    Case {
        line: "box # picture",
        expected: Expected::Kind,
    },
    Case {
        line: "box pictures 5",
        expected: Expected::Kind,
    },
    Case {
        line: "box picture",
        expected: Expected::Writes,
    },
    Case {
        line: "box picture x",
        expected: Expected::Writes,
    },
    Case {
        line: "box picture 4294967296",
        expected: Expected::Writes,
    },
    Case {
        line: "box picture +5",
        expected: Expected::Writes,
    },
    Case {
        line: "box log",
        expected: Expected::Places,
    },
    Case {
        line: "box log 1A",
        expected: Expected::Places,
    },
    Case {
        line: "box log 99999999999",
        expected: Expected::Places,
    },
    Case {
        line: "box picture 5",
        expected: Expected::Uid,
    },
    Case {
        line: "box log 5 041122334455",
        expected: Expected::Uid,
    },
    Case {
        line: "box log 5 0411223344556677",
        expected: Expected::Uid,
    },
    Case {
        line: "box log 5 0411223344556G",
        expected: Expected::Uid,
    },
    Case {
        line: "box log 5 04112233445566",
        expected: Expected::Product,
    },
    Case {
        line: "box log 5 04112233445566 0102030",
        expected: Expected::Product,
    },
    Case {
        line: "box log 5 04112233445566 -",
        expected: Expected::Product,
    },
    Case {
        line: "box log 5 04112233445566 01020304",
        expected: Expected::Password,
    },
    Case {
        line: "box log 5 04112233445566 01020304 0x020304",
        expected: Expected::Password,
    },
    Case {
        line: "box log 5 04112233445566 01020304 01020304 5",
        expected: Expected::End,
    },
    Case {
        line: "on 1",
        expected: Expected::End,
    },
    Case {
        line: "off off",
        expected: Expected::End,
    },
    Case {
        line: "memory 0",
        expected: Expected::End,
    },
    Case {
        line: "frame",
        expected: Expected::Frame,
    },
    Case {
        line: "frame #30",
        expected: Expected::Frame,
    },
    Case {
        line: "frame 300",
        expected: Expected::Frame,
    },
    Case {
        line: "frame 3G",
        expected: Expected::Frame,
    },
    Case {
        line: "frame 30-",
        expected: Expected::Frame,
    },
    Case {
        line: "frame --",
        expected: Expected::Frame,
    },
    Case {
        line: "frame 26 256",
        expected: Expected::Count,
    },
    Case {
        line: "frame 26 -",
        expected: Expected::Count,
    },
    Case {
        line: "frame 26 7 x",
        expected: Expected::Room,
    },
    Case {
        line: "frame 26 7 4294967296",
        expected: Expected::Room,
    },
    Case {
        line: "frame 26 7 18 1",
        expected: Expected::End,
    },
];

#[test]
fn malformed_lines_say_what_was_expected(rt: HostRuntime) -> Result<(), Fail> {
    for case in &MALFORMED {
        let Err(error) = read(rt.alloc(), case.line.as_bytes()) else {
            return Err(Fail::new(case.line));
        };
        assert_eq!(rt; error, ReadError::Malformed(case.expected), "{}", case.line);
    }
    Ok(())
}
