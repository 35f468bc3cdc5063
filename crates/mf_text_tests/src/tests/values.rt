//! Commands and their values.

use super::{dropping, keeping, read};
use crate::tests::assertions::{assert_holds, assert_same};
use mf_ops::{Check, Cull, Quarter, Scale, Sign};
use mf_text::{Command, Name, Source};
use std::alloc::Global;
use std::process::Abort;

const A: Name = Name::Register(0);

const B: Name = Name::Register(1);

const Z: Name = Name::Register(25);

fn assert_shifts(rt: &impl Abort, alloc: Global, line: &str, expected: (Name, i32, i32)) {
    match read(rt, alloc, line) {
        Command::Shift(name, dx, dy) => assert_same(rt, (name, dx, dy), expected, line),
        _ => panic!(rt; "{line} is no shift"),
    }
}

fn assert_scales(rt: &impl Abort, alloc: Global, line: &str, name: Name, factors: (i32, i32)) {
    let (x, y) = factors;
    let expected = Scale::new(x, y).expect(rt, "the factors are lawful");
    match read(rt, alloc, line) {
        Command::Scale(found, factors) => assert_same(rt, (found, factors), (name, expected), line),
        _ => panic!(rt; "{line} is no scale"),
    }
}

fn assert_turns(rt: &impl Abort, alloc: Global, line: &str, expected: (Name, Quarter)) {
    match read(rt, alloc, line) {
        Command::Quarter(name, quarter) => assert_same(rt, (name, quarter), expected, line),
        _ => panic!(rt; "{line} is no turn"),
    }
}

#[test]
fn moves(rt: HostRuntime) {
    let alloc = rt.alloc();
    assert_shifts(&rt, alloc, "a:=a shifted(1,0)%x", (A, 1, 0));
    assert_shifts(
        &rt,
        alloc,
        "currentpicture := currentpicture shifted (-000000007, 999999999)",
        (Name::Current, -7, 999_999_999),
    );
    assert_scales(&rt, alloc, "z := z scaled 2", Z, (2, 2));
    assert_scales(&rt, alloc, "z:=z xscaled-1", Z, (-1, 1));
    assert_scales(&rt, alloc, "z := z yscaled - 3 ;", Z, (1, -3));
    let quarter = Quarter::new(90).expect(&rt, "the angle is lawful");
    assert_turns(&rt, alloc, "a := a rotated90", (A, quarter));
}

/// Lines that set the turning check, each with its new value.
const CHECKS: &[(&str, Check)] = &[
    ("turningcheck := 1", Check::On),
    ("turningcheck := 2", Check::On),
    ("turningcheck := 999999999", Check::On),
    ("turningcheck:=000000001;", Check::On),
    ("\tturningcheck\t:=1 ; % on", Check::On),
    ("turningcheck := 0", Check::Off),
    ("turningcheck := 000", Check::Off),
    ("turningcheck := -0", Check::Off),
    ("turningcheck := - 0", Check::Off),
    ("turningcheck := -000", Check::Off),
    ("turningcheck := -1", Check::Off),
    ("turningcheck := -999999999", Check::Off),
    ("turningcheck:=-2;", Check::Off),
];

fn assert_check(rt: &impl Abort, alloc: Global, line: &str, expected: Check) {
    match read(rt, alloc, line) {
        Command::Turning(check) => assert_same(rt, check, expected, line),
        _ => panic!(rt; "{line} sets no check"),
    }
}

fn assert_all_checks(rt: &impl Abort, alloc: Global, lines: &[(&str, Check)]) {
    for (line, expected) in lines {
        assert_check(rt, alloc, line, *expected);
    }
}

#[test]
fn turning_checks(rt: HostRuntime) {
    assert_all_checks(&rt, rt.alloc(), CHECKS);
}

fn assert_culls(rt: &impl Abort, alloc: Global, line: &str, expected: (Name, Cull)) {
    match read(rt, alloc, line) {
        Command::Cull(name, rule) => assert_same(rt, (name, rule), expected, line),
        _ => panic!(rt; "{line} is no cull"),
    }
}

#[test]
fn culls(rt: HostRuntime) {
    let alloc = rt.alloc();
    assert_culls(
        &rt,
        alloc,
        "cull a keeping (1,32767)",
        (A, keeping(&rt, 1, 32767, 1)),
    );
    assert_culls(
        &rt,
        alloc,
        "cull b keeping (-3,-2) withweight -2",
        (B, keeping(&rt, -3, -2, -2)),
    );
    assert_culls(
        &rt,
        alloc,
        "cull b dropping (-1,2) withweight 3",
        (B, dropping(&rt, -1, 2, 3)),
    );
    assert_culls(
        &rt,
        alloc,
        "cull z dropping (0,0);",
        (Z, dropping(&rt, 0, 0, 1)),
    );
}

/// Lines that ship a picture, each with its source, code, dx and width.
const SHIPMENTS: &[(&str, (Source, u8, i32, i32))] = &[
    (
        "shipout currentpicture code 65 dx 327680 width 0",
        (Source::Named(Name::Current), 65, 327_680, 0),
    ),
    (
        "shipout a code 0 dx -5 width -7",
        (Source::Named(A), 0, -5, -7),
    ),
    (
        "shipout a code 1 dx -5 width -7;",
        (Source::Named(A), 1, -5, -7),
    ),
    (
        "shipout nullpicture code 255 dx 0 width 0",
        (Source::Null, 255, 0, 0),
    ),
    (
        "shipout a code -0 dx 1 width 2",
        (Source::Named(A), 0, 1, 2),
    ),
    (
        "shipout a code - 0 dx - 1 width 2",
        (Source::Named(A), 0, -1, 2),
    ),
    ("shipout a code065dx0width0", (Source::Named(A), 65, 0, 0)),
    (
        "shipout a code 000000255 dx 999999999 width -999999999 ; % far",
        (Source::Named(A), 255, 999_999_999, -999_999_999),
    ),
];

fn assert_ships(rt: &impl Abort, alloc: Global, line: &str, expected: (Source, u8, i32, i32)) {
    match read(rt, alloc, line) {
        Command::Ship(source, code, dx, width) => {
            assert_same(rt, (source, code, dx, width), expected, line)
        }
        _ => panic!(rt; "{line} ships nothing"),
    }
}

fn assert_all_ship(rt: &impl Abort, alloc: Global, lines: &[(&str, (Source, u8, i32, i32))]) {
    for (line, expected) in lines {
        assert_ships(rt, alloc, line, *expected);
    }
}

#[test]
fn shipments(rt: HostRuntime) {
    assert_all_ship(&rt, rt.alloc(), SHIPMENTS);
}

fn assert_adds(rt: &impl Abort, alloc: Global, line: &str, expected: (Name, Source, Sign)) {
    match read(rt, alloc, line) {
        Command::Also(name, source, sign) => assert_same(rt, (name, source, sign), expected, line),
        _ => panic!(rt; "{line} adds no picture"),
    }
}

#[test]
fn sums(rt: HostRuntime) {
    let alloc = rt.alloc();
    assert_adds(
        &rt,
        alloc,
        "addto a also b",
        (A, Source::Named(B), Sign::Plus),
    );
    assert_adds(
        &rt,
        alloc,
        "addto a also -currentpicture",
        (A, Source::Named(Name::Current), Sign::Minus),
    );
    assert_adds(
        &rt,
        alloc,
        "addto b also - nullpicture;",
        (B, Source::Null, Sign::Minus),
    );
}

/// The name of what a command with a single picture does, and the picture.
fn action(command: &Command) -> Option<(&'static str, Source)> {
    match command {
        Command::Clear(name) => Some(("clear", Source::Named(*name))),
        Command::Total(source) => Some(("total", *source)),
        Command::Show(source) => Some(("show", *source)),
        Command::Proof(source) => Some(("proof", *source)),
        _ => None,
    }
}

fn assert_does(rt: &impl Abort, alloc: Global, line: &str, expected: (&'static str, Source)) {
    let command = read(rt, alloc, line);
    assert_same(rt, action(&command), Some(expected), line);
}

fn assert_publishes(rt: &impl Abort, alloc: Global, line: &str) {
    let command = read(rt, alloc, line);
    assert_holds(rt, matches!(&command, Command::Publish), line);
}

#[test]
fn other_commands(rt: HostRuntime) {
    let alloc = rt.alloc();
    let (a, b) = (Source::Named(A), Source::Named(B));
    assert_does(&rt, alloc, "a := nullpicture", ("clear", a));
    assert_does(&rt, alloc, "show totalweight a", ("total", a));
    assert_does(&rt, alloc, "show nullpicture", ("show", Source::Null));
    assert_does(&rt, alloc, "proof b", ("proof", b));
    assert_publishes(&rt, alloc, " publish ; % all");
}
