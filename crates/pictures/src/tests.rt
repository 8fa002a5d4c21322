// Pictures of every kind, and their listings.
use super::list_padded;
use air::fault::Fault;
use phone::listing::{LONGEST, list};
use std::test::Fail;

struct Case {
    name: &'static str,
    container: [u8; 4],
    area: &'static [u8],
    lines: &'static str,
}

const CASES: [Case; 27] = [
    Case {
        name: "default layout, as a box is made",
        container: [0xe1, 0x10, 0x14, 0],
        area: &[3, 0, 0xfe],
        lines: "  16   3   0\n   0  18   0\n",
    },
    Case {
        name: "first extended layout",
        container: [0xe1, 0x10, 0x1c, 0],
        area: &[1, 3, 0xb0, 0x16, 0x34, 2, 3, 0xb4, 0x1c, 4, 3, 0],
        lines: "  16   1   3\n  21   2   3\n  26   3   0\n   0  28   0\n",
    },
    Case {
        name: "second extended layout",
        container: [0xe1, 0x10, 0x1e, 0],
        area: &[1, 3, 0xb0, 0x18, 0x34, 2, 3, 0xb4, 0x1c, 4, 3, 0xc4],
        lines: "  16   1   3\n  21   2   3\n  26   3 196\n   0  28 196\n",
    },
    Case {
        name: "second extended layout, one byte too long",
        container: [0xe1, 0x10, 0x1e, 0],
        area: &[1, 3, 0xb0, 0x18, 0x34, 2, 3, 0xb4, 0x1c, 4, 3, 0xc5],
        lines: "  16   1   3\n  21   2   3\n  11  26   0\n",
    },
    Case {
        name: "message across a skipped area",
        container: [0xe1, 0x10, 3, 0],
        area: &[2, 3, 0x20, 4, 4, 3, 13],
        lines: "  16   2   3\n  21   3  13\n   0  23  13\n",
    },
    Case {
        name: "message cut short by a skipped area",
        container: [0xe1, 0x10, 3, 0],
        area: &[2, 3, 0x20, 4, 4, 3, 14],
        lines: "  16   2   3\n  11  21   0\n",
    },
    Case {
        name: "skipped address right after the control byte",
        container: [0xe1, 0x10, 3, 0],
        area: &[2, 3, 0x15, 1, 4, 0xff, 3, 0],
        lines: "  16   2   3\n  22   3   0\n   0  24   0\n",
    },
    Case {
        name: "eight lock bits from B3h take 176 to 179",
        container: [0xe1, 0x10, 0x15, 0],
        area: &[1, 3, 0xb3, 8, 4, 3, 157],
        lines: "  16   1   3\n  21   3 157\n   0  23 157\n",
    },
    Case {
        name: "and none less",
        container: [0xe1, 0x10, 0x15, 0],
        area: &[1, 3, 0xb3, 8, 4, 3, 158],
        lines: "  16   1   3\n  11  21   0\n",
    },
    Case {
        name: "nine lock bits from B3h take 176 to 183",
        container: [0xe1, 0x10, 0x15, 0],
        area: &[1, 3, 0xb3, 9, 4, 3, 154],
        lines: "  16   1   3\n  11  21   0\n",
    },
    Case {
        name: "a size of 0 reserves 256 bytes",
        container: [0xe1, 0x10, 3, 0],
        area: &[2, 3, 0x20, 0, 4, 3, 10],
        lines: "  16   2   3\n  11  21   0\n",
    },
    Case {
        name: "a size of 0 has 256 lock bits",
        container: [0xe1, 0x10, 7, 0],
        area: &[1, 3, 0x20, 0, 4, 3, 17],
        lines: "  16   1   3\n  21   3  17\n   0  23  17\n",
    },
    Case {
        name: "and no fewer",
        container: [0xe1, 0x10, 7, 0],
        area: &[1, 3, 0x20, 0, 4, 3, 18],
        lines: "  16   1   3\n  11  21   0\n",
    },
    Case {
        name: "areas add up",
        container: [0xe1, 0x10, 3, 0],
        area: &[2, 3, 0x1b, 1, 4, 2, 3, 0x1d, 2, 4, 3, 0xff, 9],
        lines: "  16   2   3\n  21   2   3\n  26   3   9\n   0  29   9\n",
    },
    Case {
        name: "types without a meaning are passed",
        container: [0xe1, 0x10, 3, 0],
        area: &[0, 0xfd, 2, 3, 3, 0xff, 0, 3, 1],
        lines: "  16   0   0\n  17 253   2\n  21 255   0\n  23   3   1\n   0  25   1\n",
    },
    Case {
        name: "no magic number",
        container: [0xe0, 0x10, 0x14, 0],
        area: &[3, 0],
        lines: "   9  12   0\n",
    },
    Case {
        name: "another version",
        container: [0xe1, 0x20, 0x14, 0],
        area: &[3, 0],
        lines: "   9  12   0\n",
    },
    Case {
        name: "area past 255",
        container: [0xe1, 0x10, 0x1f, 0],
        area: &[3, 0],
        lines: "   9  12   0\n",
    },
    Case {
        name: "largest area, low digit of the version not looked at",
        container: [0xe1, 0x1f, 0x1e, 0xff],
        area: &[3, 0],
        lines: "  16   3   0\n   0  18   0\n",
    },
    Case {
        name: "lock control of another length",
        container: [0xe1, 0x10, 0x14, 0],
        area: &[0, 1, 2, 0xb0, 0x16],
        lines: "  16   0   0\n  10  17   0\n",
    },
    Case {
        name: "memory control of another length",
        container: [0xe1, 0x10, 0x14, 0],
        area: &[2, 4, 0xb4, 0x1c, 4, 0],
        lines: "  10  16   0\n",
    },
    Case {
        name: "no length byte",
        container: [0xe1, 0x10, 1, 0],
        area: &[5, 5, 0, 0, 0, 0, 0, 3],
        lines: "  16   5   5\n  11  23   0\n",
    },
    Case {
        name: "length FFh",
        container: [0xe1, 0x10, 0x14, 0],
        area: &[3, 0xff, 0, 1],
        lines: "  12  16   0\n",
    },
    Case {
        name: "length FFh of a lock control",
        container: [0xe1, 0x10, 0x14, 0],
        area: &[1, 0xff, 0, 3],
        lines: "  12  16   0\n",
    },
    Case {
        name: "terminator before a message",
        container: [0xe1, 0x10, 0x14, 0],
        area: &[0, 0xfe, 3, 0],
        lines: "  16   0   0\n  13  17   0\n",
    },
    Case {
        name: "area's end before a message",
        container: [0xe1, 0x10, 1, 0],
        area: &[4, 6, 0, 0, 0, 0, 0, 0],
        lines: "  16   4   6\n  13  24   0\n",
    },
    Case {
        name: "area of size 0",
        container: [0xe1, 0x10, 0, 0],
        area: &[3, 0],
        lines: "  13  16   0\n",
    },
];

// Whether these bytes are listed so.
fn lists(bytes: &[u8], text: &str) -> bool {
    let mut lines = [0; LONGEST];
    let Ok(n) = list_padded(bytes, &mut lines) else {
        return false;
    };
    &lines[0..n] == text.as_bytes()
}

#[test]
fn pictures_are_listed(rt: HostRuntime) -> Result<(), Fail> {
    for case in &CASES {
        let mut bytes = Vec::from_slice(rt.alloc(), &[0; 12])?;
        bytes.extend_from_slice(&case.container)?;
        bytes.extend_from_slice(case.area)?;
        assert!(rt; lists(&bytes, case.lines), "{}", case.name);
    }
    Ok(())
}

#[test]
fn the_longest_listing(rt: HostRuntime) -> Result<(), Fail> {
    let mut picture = [0; 256];
    picture[12..15].copy_from_slice(&[0xe1, 0x10, 0x1e]);
    let mut lines = [0xee; LONGEST];
    let Ok(n) = list(&picture, &mut lines) else {
        return Err(Fail::new("the sizes are right"));
    };
    assert_eq!(rt; n, LONGEST);
    assert!(rt; lines.starts_with(b"  16   0   0\n  17   0   0\n"));
    assert!(rt; lines.ends_with(b" 255   0   0\n  13 256   0\n"));
    Ok(())
}

#[test]
fn only_256_bytes_count(rt: HostRuntime) {
    let mut bytes = [0xff; 300];
    bytes[12..15].copy_from_slice(&[0xe1, 0x10, 0x1e]);
    bytes[16..18].copy_from_slice(&[0xfd, 235]);
    bytes[253..255].copy_from_slice(&[0x03, 0x01]);
    assert!(rt;
        lists(&bytes, "  16 253 235\n 253   3   1\n   0 255   1\n"),
        "up to the last byte"
    );
    assert!(rt;
        lists(&bytes[0..256], "  16 253 235\n 253   3   1\n   0 255   1\n"),
        "and no further"
    );
    assert!(rt;
        lists(&bytes[0..254], "  16 253 235\n 253   3   0\n   0 255   0\n"),
        "missing bytes are 00h"
    );
    assert!(rt; lists(&[], "   9  12   0\n"), "no byte at all");
}

// The number of a refusal of layer call at address 0 that kept the buffer, which held EEh.
fn refused(picture: &[u8], out: &mut [u8]) -> Option<u8> {
    let Err(Fault::Call { number, address: 0 }) = list(picture, out) else {
        return None;
    };
    out.iter().all(|byte| *byte == 0xee).then_some(number)
}

#[test]
fn wrong_sizes_are_refused(rt: HostRuntime) {
    assert_eq!(rt; refused(&[0; 255], &mut [0xee; 3133]), Some(6));
    assert_eq!(rt; refused(&[0; 257], &mut [0xee; 3133]), Some(6));
    assert_eq!(rt;
        refused(&[0; 255], &mut [0xee; 3132]),
        Some(6),
        "6 comes before 7"
    );
    assert_eq!(rt; refused(&[0; 256], &mut [0xee; 3132]), Some(7));
}

#[test]
fn later_bytes_are_kept(rt: HostRuntime) -> Result<(), Fail> {
    let mut out = [0xee; 3200];
    let Ok(n) = list(&[0; 256], &mut out) else {
        return Err(Fail::new("the sizes are right"));
    };
    assert_eq!(rt; n, 13);
    assert_eq!(rt; &out[0..13], b"   9  12   0\n".as_slice());
    for byte in &out[13..3200] {
        assert_eq!(rt; *byte, 0xee);
    }
    Ok(())
}
