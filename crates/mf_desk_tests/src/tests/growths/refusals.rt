//! Lines that are refused. Printing the refusal allocates.

use super::{STATE, State, TRIAL, Trial, assert_performs_while_refused};
use mf_gf::GfFault;

const FORM: &Trial = &Trial {
    line: "show",
    text: "refused Syntax 5\n",
    ..TRIAL
};

#[test]
fn form_is_refused(rt: HostRuntime) {
    assert_performs_while_refused(&rt, FORM);
}

/// The line has a byte that is not in ASCII.
const BYTES: &Trial = &Trial {
    line: "% \u{e9}",
    text: "refused NotAscii\n",
    ..TRIAL
};

#[test]
fn bytes_are_refused(rt: HostRuntime) {
    assert_performs_while_refused(&rt, BYTES);
}

const PATH: &Trial = &Trial {
    line: "addto a contour (0,0)--(1,1)--(0,1)--cycle",
    text: "refused NotRectilinear 0\n",
    ..TRIAL
};

#[test]
fn path_is_refused(rt: HostRuntime) {
    assert_performs_while_refused(&rt, PATH);
}

const WEIGHT: &Trial = &Trial {
    line: "addto a contour (0,0)--(1,0)--(1,1)--(0,1)--cycle withweight 4",
    text: "refused BadWeight\n",
    ..TRIAL
};

#[test]
fn weight_is_refused(rt: HostRuntime) {
    assert_performs_while_refused(&rt, WEIGHT);
}

const RANGE: &Trial = &Trial {
    line: "cull a keeping (0,3)",
    text: "refused BadCull\n",
    ..TRIAL
};

#[test]
fn range_is_refused(rt: HostRuntime) {
    assert_performs_while_refused(&rt, RANGE);
}

const FACTOR: &Trial = &Trial {
    line: "a := a scaled 0",
    text: "refused BadScale\n",
    ..TRIAL
};

#[test]
fn factor_is_refused(rt: HostRuntime) {
    assert_performs_while_refused(&rt, FACTOR);
}

const ANGLE: &Trial = &Trial {
    line: "currentpicture := currentpicture rotated 45",
    text: "refused BadTurn\n",
    ..TRIAL
};

#[test]
fn angle_is_refused(rt: HostRuntime) {
    assert_performs_while_refused(&rt, ANGLE);
}

const REVERSAL: &Trial = &Trial {
    line: "addto currentpicture contour (0,0)--(1,0)--cycle",
    text: "refused Backtracks 0\n",
    ..TRIAL
};

#[test]
fn reversal_is_refused(rt: HostRuntime) {
    assert_performs_while_refused(&rt, REVERSAL);
}

const TURNING: &Trial = &Trial {
    line: "addto a contour (0,0)--(1,0)--(1,2)--(2,2)--(2,1)--(0,1)--cycle",
    text: "refused TurningZero\n",
    ..TRIAL
};

#[test]
fn turning_is_refused(rt: HostRuntime) {
    assert_performs_while_refused(&rt, TURNING);
}

const LEAVING: &Trial = &Trial {
    line: "currentpicture := currentpicture shifted (4095,0)",
    text: "refused OutOfField\n",
    ..TRIAL
};

#[test]
fn live_picture_may_not_leave_the_field(rt: HostRuntime) {
    assert_performs_while_refused(&rt, LEAVING);
}

const LEAVING_IN_REGISTER: &Trial = &Trial {
    line: "a := a xscaled 4095",
    text: "refused OutOfField\n",
    ..TRIAL
};

#[test]
fn register_may_not_leave_the_field(rt: HostRuntime) {
    assert_performs_while_refused(&rt, LEAVING_IN_REGISTER);
}

const HEAVY: &Trial = &Trial {
    before: "addto currentpicture also currentpicture\n\
             addto currentpicture also currentpicture\n\
             addto currentpicture also currentpicture\n\
             addto currentpicture also currentpicture\n\
             addto currentpicture also currentpicture\n\
             addto currentpicture also currentpicture\n\
             addto currentpicture also currentpicture\n\
             addto currentpicture also currentpicture\n\
             addto currentpicture also currentpicture\n\
             addto currentpicture also currentpicture\n\
             addto currentpicture also currentpicture\n\
             addto currentpicture also currentpicture\n\
             addto currentpicture also currentpicture",
    line: "addto currentpicture also currentpicture",
    text: "refused WeightTooLarge\n",
    old: DOUBLED,
    new: DOUBLED,
    ..TRIAL
};

const DOUBLED: State = State {
    current: "1 0 2 8192\n0 0 0 8192\n0 1 2 24576\n",
    accepted: (15, 81_920),
    ..STATE
};

#[test]
fn weight_of_the_live_picture_may_not_be_too_large(rt: HostRuntime) {
    assert_performs_while_refused(&rt, HEAVY);
}

const HEAVY_IN_REGISTER: &Trial = &Trial {
    before: "addto a also a\n\
             addto a also a\n\
             addto a also a\n\
             addto a also a\n\
             addto a also a\n\
             addto a also a\n\
             addto a also a\n\
             addto a also a\n\
             addto a also a\n\
             addto a also a\n\
             addto a also a\n\
             addto a also a\n\
             addto a also a",
    line: "addto a also a",
    text: "refused WeightTooLarge\n",
    old: DOUBLED_REGISTER,
    new: DOUBLED_REGISTER,
    ..TRIAL
};

const DOUBLED_REGISTER: State = State {
    a: "0 1 2 16384\n",
    ..STATE
};

#[test]
fn weight_of_a_register_may_not_be_too_large(rt: HostRuntime) {
    assert_performs_while_refused(&rt, HEAVY_IN_REGISTER);
}

/// The box of the row is 130 pixels wide.
const WIDE: &Trial = &Trial {
    before: "a := a xscaled 65",
    line: "proof a",
    text: "refused ProofTooLarge\n",
    old: STRETCHED,
    new: STRETCHED,
    ..TRIAL
};

const STRETCHED: State = State {
    a: "0 65 194 2\n",
    ..STATE
};

#[test]
fn grid_may_not_be_too_large(rt: HostRuntime) {
    assert_performs_while_refused(&rt, WIDE);
}

/// The session has accepted as many operations as its limit allows.
const LIMITED: &Trial = &Trial {
    max_ops: 2,
    line: "currentpicture := nullpicture",
    text: "refused TooManyOperations\n",
    ..TRIAL
};

#[test]
fn clear_is_refused_for_the_limit(rt: HostRuntime) {
    assert_performs_while_refused(&rt, LIMITED);
}

/// The preamble and the first character take 12 bytes, and this character would take 11 more. Even without it, the finished file
/// is longer than 22 bytes.
const LONG_FILE: &Trial = &Trial {
    max_bytes: 22,
    line: "shipout currentpicture code 65 dx 0 width 0",
    text: "refused FileTooLong\n",
    old: UNFINISHED,
    new: UNFINISHED,
    ..TRIAL
};

const UNFINISHED: State = State {
    file: Err(GfFault::FileTooLong),
    ..STATE
};

#[test]
fn file_may_not_be_too_long(rt: HostRuntime) {
    assert_performs_while_refused(&rt, LONG_FILE);
}
