//! The bytes of single characters.

use super::{assert_part, finish, gf_file, picture, picture_of_runs, ship};
use crate::tests::assertions::assert_same;
use std::alloc::Global;
use std::process::Abort;

/// A character, given by the stretches of its black pixels (row, first column, length), and its bytes from boc to eoc.
struct Case {
    about: &'static str,
    code: u8,
    black: &'static [(i32, i32, u32)],
    bytes: &'static [u8],
}

const CASES: &[Case] = &[
    Case {
        about: "two pixels with a gap",
        code: 1,
        black: &[(0, 0, 1), (0, 3, 1)],
        bytes: b"\x44\x01\x04\x04\x00\x00\x00\x01\x02\x01\x45",
    },
    Case {
        about: "no black pixel",
        code: 7,
        black: &[],
        bytes: b"\x44\x07\x00\x00\x00\x00\x45",
    },
    Case {
        about: "new row at offset 164",
        code: 1,
        black: &[(1, 0, 1), (0, 164, 1)],
        bytes: b"\x44\x01\xa5\xa5\x01\x01\x00\x01\xee\x01\x45",
    },
    Case {
        about: "offset 165 is painted white",
        code: 1,
        black: &[(1, 0, 1), (0, 165, 1)],
        bytes: b"\x44\x01\xa6\xa6\x01\x01\x00\x01\x46\x40\xa5\x01\x45",
    },
    Case {
        about: "a paint of 256 pixels, and a box that is too wide for bytes",
        code: 1,
        black: &[(0, 0, 256)],
        bytes: b"\x43\x00\x00\x00\x01\xff\xff\xff\xff\x00\x00\x00\x00\x00\x00\x01\x00\x00\x00\x00\x00\x00\x00\x00\x00\x00\x41\x01\x00\x45",
    },
    Case {
        about: "a box whose left end is negative",
        code: 1,
        black: &[(0, -1, 1)],
        bytes: b"\x44\x01\x01\x00\x00\x00\x00\x01\x45",
    },
    Case {
        about: "a paint of 63 pixels",
        code: 1,
        black: &[(0, 0, 63)],
        bytes: b"\x44\x01\x3f\x3f\x00\x00\x00\x3f\x45",
    },
    Case {
        about: "a paint of 64 pixels",
        code: 1,
        black: &[(0, 0, 64)],
        bytes: b"\x44\x01\x40\x40\x00\x00\x00\x40\x40\x45",
    },
    Case {
        about: "a paint of 255 pixels",
        code: 1,
        black: &[(0, 0, 255)],
        bytes: b"\x44\x01\xff\xff\x00\x00\x00\x40\xff\x45",
    },
    Case {
        about: "63 white pixels",
        code: 1,
        black: &[(0, 0, 1), (0, 64, 1)],
        bytes: b"\x44\x01\x41\x41\x00\x00\x00\x01\x3f\x01\x45",
    },
    Case {
        about: "64 white pixels",
        code: 1,
        black: &[(0, 0, 1), (0, 65, 1)],
        bytes: b"\x44\x01\x42\x42\x00\x00\x00\x01\x40\x40\x01\x45",
    },
    Case {
        about: "255 white pixels",
        code: 1,
        black: &[(0, 0, 1), (0, 256, 1)],
        bytes: b"\x43\x00\x00\x00\x01\xff\xff\xff\xff\x00\x00\x00\x00\x00\x00\x01\x01\x00\x00\x00\x00\x00\x00\x00\x00\x00\x01\x40\xff\x01\x45",
    },
    Case {
        about: "256 white pixels",
        code: 1,
        black: &[(0, 0, 1), (0, 257, 1)],
        bytes: b"\x43\x00\x00\x00\x01\xff\xff\xff\xff\x00\x00\x00\x00\x00\x00\x01\x02\x00\x00\x00\x00\x00\x00\x00\x00\x00\x01\x41\x01\x00\x01\x45",
    },
    Case {
        about: "one blank row",
        code: 1,
        black: &[(2, 0, 1), (0, 0, 1)],
        bytes: b"\x44\x01\x01\x01\x02\x02\x00\x01\x47\x01\x00\x01\x45",
    },
    Case {
        about: "255 blank rows",
        code: 1,
        black: &[(256, 0, 1), (0, 0, 1)],
        bytes: b"\x43\x00\x00\x00\x01\xff\xff\xff\xff\x00\x00\x00\x00\x00\x00\x00\x01\x00\x00\x00\x00\x00\x00\x01\x00\x00\x01\x47\xff\x00\x01\x45",
    },
    Case {
        about: "256 blank rows",
        code: 1,
        black: &[(257, 0, 1), (0, 0, 1)],
        bytes: b"\x43\x00\x00\x00\x01\xff\xff\xff\xff\x00\x00\x00\x00\x00\x00\x00\x01\x00\x00\x00\x00\x00\x00\x01\x01\x00\x01\x48\x01\x00\x00\x01\x45",
    },
    Case {
        about: "four equal rows",
        code: 1,
        black: &[
            (3, 0, 1),
            (3, 3, 2),
            (2, 0, 1),
            (2, 3, 2),
            (1, 0, 1),
            (1, 3, 2),
            (0, 0, 1),
            (0, 3, 2),
        ],
        bytes: b"\x44\x01\x05\x05\x03\x03\x00\x01\x02\x02\x4a\x01\x02\x02\x4a\x01\x02\x02\x4a\x01\x02\x02\x45",
    },
    Case {
        about: "equal rows at offset 165",
        code: 1,
        black: &[(3, 0, 1), (2, 165, 1), (1, 165, 1), (0, 165, 1)],
        bytes: b"\x44\x01\xa6\xa6\x03\x03\x00\x01\x46\x40\xa5\x01\x46\x40\xa5\x01\x46\x40\xa5\x01\x45",
    },
    Case {
        about: "equal rows below blank ones",
        code: 1,
        black: &[(4, 0, 1), (1, 0, 1), (1, 2, 1), (0, 0, 1), (0, 2, 1)],
        bytes: b"\x44\x01\x03\x03\x04\x04\x00\x01\x47\x02\x00\x01\x01\x01\x4a\x01\x01\x01\x45",
    },
    Case {
        about: "right end 255",
        code: 1,
        black: &[(0, 254, 1)],
        bytes: b"\x44\x01\x01\xff\x00\x00\x00\x01\x45",
    },
    Case {
        about: "right end 256",
        code: 1,
        black: &[(0, 255, 1)],
        bytes: b"\x43\x00\x00\x00\x01\xff\xff\xff\xff\x00\x00\x00\xff\x00\x00\x01\x00\x00\x00\x00\x00\x00\x00\x00\x00\x00\x01\x45",
    },
    Case {
        about: "top row 255",
        code: 1,
        black: &[(255, 0, 1)],
        bytes: b"\x44\x01\x01\x01\x00\xff\x00\x01\x45",
    },
    Case {
        about: "top row 256",
        code: 1,
        black: &[(256, 0, 1)],
        bytes: b"\x43\x00\x00\x00\x01\xff\xff\xff\xff\x00\x00\x00\x00\x00\x00\x00\x01\x00\x00\x01\x00\x00\x00\x01\x00\x00\x01\x45",
    },
    Case {
        about: "256 columns, right end 255",
        code: 1,
        black: &[(0, -1, 1), (0, 254, 1)],
        bytes: b"\x43\x00\x00\x00\x01\xff\xff\xff\xff\xff\xff\xff\xff\x00\x00\x00\xff\x00\x00\x00\x00\x00\x00\x00\x00\x00\x01\x40\xfe\x01\x45",
    },
    Case {
        about: "257 rows, top row 255",
        code: 1,
        black: &[(255, 0, 1), (-1, 0, 1)],
        bytes: b"\x43\x00\x00\x00\x01\xff\xff\xff\xff\x00\x00\x00\x00\x00\x00\x00\x01\xff\xff\xff\xff\x00\x00\x00\xff\x00\x01\x47\xff\x00\x01\x45",
    },
    Case {
        about: "256 rows, top row 255",
        code: 1,
        black: &[(255, 0, 1), (0, 0, 1)],
        bytes: b"\x44\x01\x01\x01\xff\xff\x00\x01\x47\xfe\x00\x01\x45",
    },
    Case {
        about: "code 255",
        code: 255,
        black: &[(0, 0, 1)],
        bytes: b"\x44\xff\x01\x01\x00\x00\x00\x01\x45",
    },
    Case {
        about: "a negative row",
        code: 1,
        black: &[(-1, 0, 1)],
        bytes: b"\x43\x00\x00\x00\x01\xff\xff\xff\xff\x00\x00\x00\x00\x00\x00\x00\x01\xff\xff\xff\xff\xff\xff\xff\xff\x00\x01\x45",
    },
    Case {
        about: "a negative right end",
        code: 1,
        black: &[(0, -2, 1)],
        bytes: b"\x43\x00\x00\x00\x01\xff\xff\xff\xff\xff\xff\xff\xfe\xff\xff\xff\xff\x00\x00\x00\x00\x00\x00\x00\x00\x00\x01\x45",
    },
    Case {
        about: "two corners of the field",
        code: 1,
        black: &[(4094, -4095, 1), (-4095, 4094, 1)],
        bytes: b"\x43\x00\x00\x00\x01\xff\xff\xff\xff\xff\xff\xf0\x01\x00\x00\x0f\xff\xff\xff\xf0\x01\x00\x00\x0f\xfe\x00\x01\x48\x1f\xfc\x41\x1f\xfd\x01\x45",
    },
    Case {
        about: "rows of which each begins at another offset",
        code: 200,
        black: &[(3, 2, 2), (2, 0, 1), (2, 3, 1), (0, 1, 3)],
        bytes: b"\x44\xc8\x04\x04\x03\x03\x02\x02\x4a\x01\x02\x01\x47\x01\x01\x03\x45",
    },
];

/// The number of bytes in the preamble, which has no comment.
const PREAMBLE: usize = 3;

/// Asserts that a character has these bytes, and that the postamble comes after them.
fn assert_character(rt: &impl Abort, alloc: Global, case: &Case) {
    let mut file = gf_file(rt, alloc);
    let black = picture(rt, alloc, case.black, 1);
    let shipped = file.ship(case.code, 0, 0, &black);
    assert_same(rt, shipped, Ok(()), case.about);
    let file = finish(rt, file);
    assert_part(rt, &file, PREAMBLE, case.bytes, case.about);
    let end = PREAMBLE.saturating_add(case.bytes.len());
    assert_part(rt, &file, end, b"\xf8", case.about);
}

fn assert_characters(rt: &impl Abort, alloc: Global, cases: &[Case]) {
    for case in cases {
        assert_character(rt, alloc, case);
    }
}

/// A function returns the cases, so that the prover checks their test without them.
fn cases() -> &'static [Case] {
    CASES
}

#[test]
fn characters(rt: HostRuntime) {
    assert_characters(&rt, rt.alloc(), cases());
}

/// Runs of pixels: row, first column, length and weight.
const RUNS: &[(i32, i32, u32, i32)] = &[
    (2, 0, 2, 1),
    (2, 2, 1, 7),
    (2, 3, 1, -1),
    (2, 4, 2, 32767),
    (1, 0, 1, -2),
    (0, 5, 1, -3),
    (0, 6, 1, 2),
];

/// Runs of positive weight that touch are one stretch. A negative weight is white.
#[test]
fn weights(rt: HostRuntime) {
    let alloc = rt.alloc();
    let mut file = gf_file(&rt, alloc);
    ship(
        &rt,
        &mut file,
        9,
        (0, 0),
        &picture_of_runs(&rt, alloc, RUNS),
    );
    // Columns 0 to 2 and 4 to 5 of row 2, then a blank row, then column 6 of row 0.
    let bytes = b"\x44\x09\x07\x07\x02\x02\x00\x03\x01\x02\x47\x01\x06\x01\x45";
    assert_part(&rt, &finish(&rt, file), PREAMBLE, bytes, "weights");
}
