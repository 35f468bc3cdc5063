//! Lines that are not in the grammar, and the columns of their refusals.

use super::{assert_refused, keeping};
use crate::tests::assertions::{assert_holds, assert_same};
use mf_geom::CycleFault;
use mf_ops::{Check, Sign};
use mf_text::{Command, Name, Source, TextFault, read_command};
use std::alloc::Global;
use std::process::Abort;

/// Lines that are not in the grammar, each with the column at which it goes wrong.
const LINES: &[(&str, u32)] = &[
    ("addto currentpicture contur", 22),
    ("show", 5),
    ("a := b shifted (1,0)", 6),
    ("ship a code 65 dx 0 width 0", 1),
    ("show totalweight a!", 19),
    ("addto a contour (0,0)--(1234567890,0)--cycle", 25),
    ("addto a contour (0,0)--(1,0)--", 31),
    ("addto a contour (0,0", 21),
    ("a := a shifted (1;0)", 18),
    ("cull a keeping (1,2) withweight", 32),
    ("show a ; show b", 10),
    (";;", 2),
    ("addto a also --b", 14),
    ("a : = nullpicture", 3),
    ("AddTo a also a", 1),
    ("show  % x", 5),
    ("a := b", 6),
    ("a := a", 7),
    ("a := a ;", 8),
    ("nullpicture := a", 1),
    ("a := a scaled 0000000001", 15),
    ("addto a contour (0,0)--(1,0)--cyclewithweight 2", 31),
    ("addto a contour (0,0)---(1,0)--cycle", 24),
    ("addto a contour (0,0)- -cycle", 22),
    ("addto a contour (--1,0)--cycle", 18),
    ("a ::= nullpicture", 3),
    ("currentpicture := a scaled 2", 19),
    ("a := currentpicture", 6),
    ("ab := nullpicture", 1),
    ("show nullpicture totalweight", 18),
    ("proof", 6),
    ("publish publish", 9),
    ("addto a contour cycle", 17),
    ("cull a shifted (1,0)", 8),
    ("addto a also - - b", 16),
    ("\tshow\tx y", 9),
    ("show $", 6),
    ("5", 1),
    ("shipout", 8),
    ("shipout -a", 9),
    ("shipout a dx 0", 11),
    ("shipout a codedx 0", 11),
    ("shipout a code", 15),
    ("shipout a code 256 dx 0 width 0", 16),
    ("shipout a code -5 dx 0 width 0", 16),
    ("shipout a code - 5", 16),
    ("shipout a code 256 foo", 16),
    ("shipout a code 1234567890", 16),
    ("shipout a code -", 17),
    ("shipout a code -x", 17),
    ("shipout a code -1234567890", 17),
    ("shipout a code - 1234567890", 18),
    ("shipout a code -0", 18),
    ("shipout a code -0 -0", 19),
    ("shipout a code 1 dx 0", 22),
    ("shipout a code 1 dx 1234567890", 21),
    ("shipout a code 1 dx 0 width", 28),
    ("shipout a code 65 dx 0 width 0 0", 32),
    ("turningcheck", 13),
    ("turningcheck :=", 16),
    ("turningcheck 0", 14),
    ("turningcheck=0", 13),
    ("turningcheck : = 0", 14),
    ("turningcheck;", 13),
    ("turningcheck := ;", 17),
    ("turningcheck := x", 17),
    ("turningcheck := nullpicture", 17),
    ("turningcheck := (1,2)", 17),
    ("turningcheck := 1234567890", 17),
    ("turningcheck := --1", 17),
    ("turningcheck := -", 18),
    ("turningcheck := -x", 18),
    ("turningcheck := -1234567890", 18),
    ("turningcheck := 2 withweight 1", 19),
    ("turningcheck := 1 2", 19),
    ("turningcheck := 1 ; 2", 21),
    ("TurningCheck := 1", 1),
    ("turningchecks := 1", 1),
    ("a turningcheck := 1", 3),
    ("a := turningcheck", 6),
    ("show turningcheck", 6),
];

/// Asserts that each of these lines goes wrong at its column.
fn assert_columns(rt: &impl Abort, alloc: Global, lines: &[(&str, u32)]) {
    for (line, column) in lines {
        assert_refused(rt, alloc, line, TextFault::Syntax(*column));
    }
}

#[test]
fn columns(rt: HostRuntime) {
    assert_columns(&rt, rt.alloc(), LINES);
}

/// Says that a cut is itself a line of the grammar, and has the answer that `is_answer_of` expects. Columns count from 1, so this
/// is not a column.
const WHOLE: u32 = 0;

/// Lines of the grammar, each with the columns at which its first 0, 1, 2, .. bytes go wrong.
const CUTS: &[(&str, &[u32])] = &[
    (
        "a := a shifted (1,-2)",
        &[
            WHOLE, 2, 2, 3, 5, 5, 7, 7, 8, 8, 8, 8, 8, 8, 15, 15, 17, 18, 19, 20, 21,
        ],
    ),
    (
        "show totalweight b ;",
        &[
            WHOLE, 2, 1, 1, 5, 5, WHOLE, 6, 6, 6, 6, 6, 6, 6, 6, 6, 17, 17, WHOLE, WHOLE,
        ],
    ),
    (
        "cull a keeping (1,3) withweight -2;",
        &[
            WHOLE, 2, 1, 1, 5, 5, 7, 7, 8, 8, 8, 8, 8, 8, 15, 15, 17, 18, 19, 20, WHOLE, WHOLE, 22,
            22, 22, 22, 22, 22, 22, 22, 22, 32, 32, 34, WHOLE,
        ],
    ),
    (
        "addto b also -currentpicture",
        &[
            WHOLE, 2, 1, 1, 1, 6, 6, 8, 8, 9, 9, 9, 13, 13, 15, WHOLE, 15, 15, 15, 15, 15, 15, 15,
            15, 15, 15, 15, 15,
        ],
    ),
    (
        "addto a contour (0,-1)--cycle;",
        &[
            WHOLE, 2, 1, 1, 1, 6, 6, 8, 8, 9, 9, 9, 9, 9, 9, 16, 16, 18, 19, 20, 21, 22, 23, 23,
            25, 25, 25, 25, 25, WHOLE,
        ],
    ),
    (
        "shipout a code 65 dx 327680 width -12;",
        &[
            WHOLE, 2, 1, 1, 1, 1, 1, 8, 8, 10, 10, 11, 11, 11, 15, 15, 17, 18, 18, 19, 21, 21, 23,
            24, 25, 26, 27, 28, 28, 29, 29, 29, 29, 34, 34, 36, WHOLE, WHOLE,
        ],
    ),
    (
        "turningcheck := -7;",
        &[
            WHOLE, 2, 1, 1, 1, 1, 1, 1, 1, 1, 1, 1, 13, 13, 14, 16, 16, 18, WHOLE,
        ],
    ),
    (
        "z:=z rotated 90",
        &[WHOLE, 2, 2, 4, 5, 5, 6, 6, 6, 6, 6, 6, 13, 13, WHOLE],
    ),
];

fn register(number: u8) -> Source {
    Source::Named(Name::Register(number))
}

/// Whether this is the answer that is expected of a cut in the grammar.
fn is_answer_of(rt: &impl Abort, cut: &[u8], answer: &Result<Command, TextFault>) -> bool {
    let a = Name::Register(0);
    match answer {
        Ok(Command::Nothing) => cut.is_empty(),
        Ok(Command::Show(source)) => cut == b"show t".as_slice() && *source == register(19),
        Ok(Command::Total(source)) => {
            cut.starts_with(b"show totalweight b") && *source == register(1)
        }
        Ok(Command::Cull(name, rule)) => {
            let weight = if cut.ends_with(b"withweight -2") {
                -2
            } else {
                1
            };
            cut.starts_with(b"cull a keeping (1,3)")
                && (*name, *rule) == (a, keeping(rt, 1, 3, weight))
        }
        Ok(Command::Also(name, source, sign)) => {
            cut == b"addto b also -c".as_slice()
                && (*name, *source, *sign) == (Name::Register(1), register(2), Sign::Minus)
        }
        Ok(Command::Ship(source, code, dx, width)) => {
            let expected = if cut.ends_with(b"-12") { -12 } else { -1 };
            cut.starts_with(b"shipout a code 65 dx 327680 width -1")
                && (*source, *code, *dx, *width) == (register(0), 65, 327_680, expected)
        }
        Ok(Command::Turning(check)) => {
            cut == b"turningcheck := -7".as_slice() && *check == Check::Off
        }
        Err(TextFault::Cycle(fault)) => {
            cut == b"addto a contour (0,-1)--cycle".as_slice() && *fault == CycleFault::TooFewPoints
        }
        Err(fault) => cut == b"z:=z rotated 9".as_slice() && *fault == TextFault::BadTurn,
        _ => false,
    }
}

/// Asserts that the first 0, 1, 2, .. bytes of the line go wrong at these columns.
fn assert_cuts(rt: &impl Abort, alloc: Global, line: &str, columns: &[u32]) {
    assert_same(rt, columns.len(), line.len(), line);
    for (end, column) in columns.iter().enumerate() {
        let cut = line
            .as_bytes()
            .get(..end)
            .expect(rt, "the line has as many bytes as columns");
        let answer = read_command(alloc, cut);
        let found = match &answer {
            Err(TextFault::Syntax(found)) => *found,
            _ => WHOLE,
        };
        assert_same(rt, found, *column, (line, end));
        if found == WHOLE {
            assert_holds(rt, is_answer_of(rt, cut, &answer), (line, end, &answer));
        }
    }
}

/// Asserts that the cuts of each of these lines go wrong at their columns.
fn assert_all_cuts(rt: &impl Abort, alloc: Global, lines: &[(&str, &[u32])]) {
    for (line, columns) in lines {
        assert_cuts(rt, alloc, line, columns);
    }
}

#[test]
fn cut_lines(rt: HostRuntime) {
    assert_all_cuts(&rt, rt.alloc(), CUTS);
}
