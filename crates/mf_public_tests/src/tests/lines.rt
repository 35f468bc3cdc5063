//! The calls of `mf_text`, and a contract in words that it passes on.
ghost use Rattle.std.specs.Prelude.{◌≡◌, ◌↔◌, Err, IfOk};
ghost use Rattle.mf_text.specs.Grid.{IsTooLargeForGrid, grid_text};
ghost use Rattle.mf_text.specs.RunText.{run_text};

use super::pictures;
use crate::tests::assertions::assert_same;
use mf_geom::CycleFault;
use mf_ops::Op;
use mf_rows::Picture;
use mf_text::{
    Check, Command, GridFault, Name, OutOfMemory, Source, TextFault, proof_grid, read_command,
    show_runs,
};
use std::alloc::Global;
use std::process::Abort;

/// The name of a command.
fn name_of(command: &Command) -> &'static str {
    match command {
        Command::Nothing => "Nothing",
        Command::Contour(_, _, _) => "Contour",
        Command::Also(_, _, _) => "Also",
        Command::Cull(_, _) => "Cull",
        Command::Clear(_) => "Clear",
        Command::Shift(_, _, _) => "Shift",
        Command::Scale(_, _) => "Scale",
        Command::Quarter(_, _) => "Quarter",
        Command::Total(_) => "Total",
        Command::Show(_) => "Show",
        Command::Proof(_) => "Proof",
        Command::Ship(_, _, _, _) => "Ship",
        Command::Turning(Check::Off) => "Turning off",
        Command::Turning(Check::On) => "Turning on",
        Command::Publish => "Publish",
    }
}

/// The picture that a command changes.
fn target_of(command: &Command) -> Option<Name> {
    match command {
        Command::Contour(name, _, _) => Some(*name),
        Command::Also(name, _, _) => Some(*name),
        Command::Cull(name, _) => Some(*name),
        Command::Clear(name) => Some(*name),
        Command::Shift(name, _, _) => Some(*name),
        Command::Scale(name, _) => Some(*name),
        Command::Quarter(name, _) => Some(*name),
        _ => None,
    }
}

/// The picture that a command reads.
fn source_of(command: &Command) -> Option<Source> {
    match command {
        Command::Also(_, source, _) => Some(*source),
        Command::Total(source) => Some(*source),
        Command::Show(source) => Some(*source),
        Command::Proof(source) => Some(*source),
        Command::Ship(source, _, _, _) => Some(*source),
        _ => None,
    }
}

/// The operation that a command asks for, if it asks for one. A picture that it adds is taken to be blank.
fn operation_of(alloc: Global, command: Command) -> Option<Op> {
    match command {
        Command::Contour(_, cycle, weight) => Some(Op::Contour(cycle, weight, Check::On)),
        Command::Also(_, _, sign) => Some(Op::Also(Picture::blank(alloc), sign)),
        Command::Cull(_, cull) => Some(Op::Cull(cull)),
        Command::Clear(_) => Some(Op::Clear),
        Command::Shift(_, dx, dy) => Some(Op::Shift(dx, dy)),
        Command::Scale(_, scale) => Some(Op::Scale(scale)),
        Command::Quarter(_, quarter) => Some(Op::Quarter(quarter)),
        _ => None,
    }
}

/// The name of a fault, and the column that it reports.
fn parts_of(fault: TextFault) -> (&'static str, Option<u32>) {
    match fault {
        TextFault::Cycle(cycle) => {
            let _: CycleFault = cycle;
            ("Cycle", None)
        }
        TextFault::BadWeight => ("BadWeight", None),
        TextFault::BadCull => ("BadCull", None),
        TextFault::BadScale => ("BadScale", None),
        TextFault::BadTurn => ("BadTurn", None),
        TextFault::OutOfMemory => ("OutOfMemory", None),
        TextFault::LineTooLong => ("LineTooLong", None),
        TextFault::NotAscii => ("NotAscii", None),
        TextFault::Syntax(column) => ("Syntax", Some(column)),
    }
}

/// What a line gives.
fn read(alloc: Global, line: &str) -> Result<Command, TextFault> {
    let line: &[u8] = line.as_bytes();
    let read: Result<Command, TextFault> = read_command(alloc, line);
    read
}

/// A line, the name of its command, and the pictures that it changes and reads.
type Case = (&'static str, &'static str, Option<Name>, Option<Source>);

const A: Option<Name> = Some(Name::Register(0));

const OF_A: Option<Source> = Some(Source::Named(Name::Register(0)));

/// Lines whose commands ask for an operation.
const OPERATIONS: &[Case] = &[
    (
        "addto a contour (0,0)--(1,0)--(1,1)--(0,1)--cycle withweight 2",
        "Contour",
        A,
        None,
    ),
    (
        "addto a also -currentpicture",
        "Also",
        A,
        Some(Source::Named(Name::Current)),
    ),
    ("cull a keeping (1,3)", "Cull", A, None),
    ("a := nullpicture", "Clear", A, None),
    ("a := a shifted (2,-1)", "Shift", A, None),
    ("a := a xscaled -1", "Scale", A, None),
    ("a := a rotated 90", "Quarter", A, None),
];

/// Lines whose commands ask for no operation.
const OTHERS: &[Case] = &[
    ("", "Nothing", None, None),
    ("show totalweight a", "Total", None, OF_A),
    ("show nullpicture", "Show", None, Some(Source::Null)),
    ("proof a", "Proof", None, OF_A),
    ("shipout a code 65 dx 327680 width 0", "Ship", None, OF_A),
    ("turningcheck := 0", "Turning off", None, None),
    ("turningcheck := 1", "Turning on", None, None),
    ("publish", "Publish", None, None),
];

/// Asserts that a line gives its command, which asks for an operation or does not.
fn assert_gives(rt: &impl Abort, alloc: Global, case: &Case, is_operation: bool) {
    let (line, name, target, source) = *case;
    match read(alloc, line) {
        Ok(command) => {
            let found = (name_of(&command), target_of(&command), source_of(&command));
            assert_same(rt, found, (name, target, source), line);
            let operation = operation_of(alloc, command);
            assert_same(rt, operation.is_some(), is_operation, line);
        }
        Err(fault) => panic!(rt; "{line} is refused: {fault:?}"),
    }
}

#[test]
fn reads_each_command(rt: HostRuntime) {
    for case in OPERATIONS {
        assert_gives(&rt, rt.alloc(), case, true);
    }
    for case in OTHERS {
        assert_gives(&rt, rt.alloc(), case, false);
    }
}

/// A code, an escapement and a width.
type Numbers = (u8, i32, i32);

#[test]
fn reads_the_numbers_of_a_character(rt: HostRuntime) {
    let line = "shipout a code 65 dx 327680 width -1";
    let Ok(Command::Ship(_, code, dx, width)) = read(rt.alloc(), line) else {
        panic!(rt; "{line} ships no character")
    };
    let numbers: Numbers = (code, dx, width);
    assert_same(&rt, numbers, (65, 327680, -1), line);
}

#[test]
fn refuses_a_line(rt: HostRuntime) {
    let fault: Option<TextFault> = read(rt.alloc(), "addto currentpicture contur").err();
    assert_same(
        &rt,
        fault.map(parts_of),
        Some(("Syntax", Some(22))),
        "contur",
    );
}

/// The run text of a picture.
fn run_text(rt: &impl Abort, alloc: Global, picture: &Picture) -> Vec<u8>
    ensures { result.items ≡ run_text picture.now }
{
    let shown: Result<Vec<u8>, OutOfMemory> = show_runs(alloc, picture);
    shown.expect(rt, "there is room for the text")
}

/// The grid text of a picture.
fn grid_text(alloc: Global, picture: &Picture) -> Result<Vec<u8>, GridFault>
    ensures text { IfOk result (λ text. text.items ≡ grid_text picture.now) }
    ensures too_large { IsTooLargeForGrid picture.now ↔ (result ≡ Err GridFault.ProofTooLarge) }
{
    let drawn: Result<Vec<u8>, GridFault> = proof_grid(alloc, picture);
    drawn
}

/// The name of a fault.
fn name_of_grid_fault(fault: GridFault) -> &'static str {
    match fault {
        GridFault::ProofTooLarge => "ProofTooLarge",
        GridFault::OutOfMemory => "OutOfMemory",
    }
}

/// Asserts that a picture has these texts.
fn assert_texts(rt: &impl Abort, alloc: Global, picture: &Picture, runs: &str, grid: &str) {
    assert_same(
        rt,
        run_text(rt, alloc, picture).as_slice(),
        runs.as_bytes(),
        "runs",
    );
    match grid_text(alloc, picture) {
        Ok(text) => assert_same(rt, text.as_slice(), grid.as_bytes(), "a grid"),
        Err(fault) => panic!(rt; "no grid: {}", name_of_grid_fault(fault)),
    }
}

#[test]
fn shows_pictures(rt: HostRuntime) {
    let alloc = rt.alloc();
    let rectangle = pictures::rectangle(&rt, alloc);
    assert_texts(&rt, alloc, &rectangle, "1 0 2 1\n0 0 2 1\n", "111\n111\n");
    assert_texts(&rt, alloc, &Picture::blank(alloc), "blank\n", "blank\n");
}
