//! Lines that print pictures, publish and ship.

use super::{STATE, State, TRIAL, Trial, assert_performs_while_refused};

const RUNS: &Trial = &Trial {
    line: "show currentpicture",
    text: "1 0 2 1\n0 0 0 1\n0 1 2 3\n",
    ..TRIAL
};

#[test]
fn live_picture_is_shown(rt: HostRuntime) {
    assert_performs_while_refused(&rt, RUNS);
}

const BLANK_RUNS: &Trial = &Trial {
    line: "show b",
    text: "blank\n",
    ..TRIAL
};

#[test]
fn blank_register_is_shown(rt: HostRuntime) {
    assert_performs_while_refused(&rt, BLANK_RUNS);
}

const TOTAL: &Trial = &Trial {
    line: "show totalweight currentpicture",
    text: "totalweight 10\n",
    ..TRIAL
};

#[test]
fn total_is_shown(rt: HostRuntime) {
    assert_performs_while_refused(&rt, TOTAL);
}

const GRID: &Trial = &Trial {
    line: "proof currentpicture",
    text: "111\n133\n",
    ..TRIAL
};

#[test]
fn grid_is_shown(rt: HostRuntime) {
    assert_performs_while_refused(&rt, GRID);
}

const BLANK_GRID: &Trial = &Trial {
    line: "proof nullpicture",
    text: "blank\n",
    ..TRIAL
};

#[test]
fn blank_grid_is_shown(rt: HostRuntime) {
    assert_performs_while_refused(&rt, BLANK_GRID);
}

const PUBLISHED: State = State {
    shown: (2, 10),
    ..STATE
};

const PUBLISH: &Trial = &Trial {
    line: "publish",
    text: "published 2\n",
    new: PUBLISHED,
    ..TRIAL
};

#[test]
fn publish_shows_what_was_accepted(rt: HostRuntime) {
    assert_performs_while_refused(&rt, PUBLISH);
}

/// Nothing is pending.
const AGAIN: &Trial = &Trial {
    before: "publish",
    line: "publish",
    text: "published 2\n",
    old: PUBLISHED,
    new: PUBLISHED,
    ..TRIAL
};

#[test]
fn publish_of_nothing_prints_again(rt: HostRuntime) {
    assert_performs_while_refused(&rt, AGAIN);
}

const SHIPPED: &Trial = &Trial {
    line: "shipout currentpicture code 65 dx 327680 width 0",
    text: "[65]\n",
    new: State {
        file: Ok(
            b"\xf7\x83\x00\
              \x44\x07\x02\x03\x00\x00\x00\x02\x45\
              \x44\x41\x03\x03\x01\x01\
              \x00\x03\x4a\x03\x45\
              \xf8\x00\x00\x00\x17\
              \x00\x00\x00\x00\x00\x00\x00\x00\x00\x00\x00\x00\x00\x00\x00\x00\
              \x00\x00\x00\x00\x00\x00\x00\x03\x00\x00\x00\x00\x00\x00\x00\x01\
              \xf6\x07\x00\x00\x00\x00\x00\x00\x00\x00\x03\
              \xf6\x41\x05\x00\x00\x00\x00\x00\x00\x00\x0c\
              \xf9\x00\x00\x00\x17\x83\xdf\xdf\xdf\xdf",
        ),
        ..STATE
    },
    ..TRIAL
};

#[test]
fn live_picture_is_shipped(rt: HostRuntime) {
    assert_performs_while_refused(&rt, SHIPPED);
}

const SHIPPED_AGAIN: &Trial = &Trial {
    line: "shipout currentpicture code 7 dx -1 width 5",
    text: "[7]\n",
    new: State {
        file: Ok(
            b"\xf7\x83\x00\
              \x44\x07\x02\x03\x00\x00\x00\x02\x45\
              \x43\x00\x00\x00\x07\
              \x00\x00\x00\x03\
              \x00\x00\x00\x00\x00\x00\x00\x03\x00\x00\x00\x00\x00\x00\x00\x01\
              \x00\x03\x4a\x03\x45\
              \xf8\x00\x00\x00\x2a\
              \x00\x00\x00\x00\x00\x00\x00\x00\x00\x00\x00\x00\x00\x00\x00\x00\
              \x00\x00\x00\x00\x00\x00\x00\x03\x00\x00\x00\x00\x00\x00\x00\x01\
              \xf5\x07\xff\xff\xff\xff\x00\x00\x00\x00\x00\x00\x00\x05\x00\x00\x00\x0c\
              \xf9\x00\x00\x00\x2a\x83\xdf\xdf\xdf\xdf\xdf",
        ),
        ..STATE
    },
    ..TRIAL
};

#[test]
fn code_is_shipped_again(rt: HostRuntime) {
    assert_performs_while_refused(&rt, SHIPPED_AGAIN);
}

const SHIPPED_BLANK: &Trial = &Trial {
    line: "shipout nullpicture code 0 dx 0 width 0",
    text: "[0]\n",
    new: State {
        file: Ok(
            b"\xf7\x83\x00\
              \x44\x07\x02\x03\x00\x00\x00\x02\x45\
              \x44\x00\x00\x00\x00\x00\
              \x45\
              \xf8\x00\x00\x00\x13\
              \x00\x00\x00\x00\x00\x00\x00\x00\x00\x00\x00\x00\x00\x00\x00\x00\
              \x00\x00\x00\x00\x00\x00\x00\x03\x00\x00\x00\x00\x00\x00\x00\x00\
              \xf6\x00\x00\x00\x00\x00\x00\x00\x00\x00\x0c\
              \xf6\x07\x00\x00\x00\x00\x00\x00\x00\x00\x03\
              \xf9\x00\x00\x00\x13\x83\xdf\xdf\xdf\xdf",
        ),
        ..STATE
    },
    ..TRIAL
};

#[test]
fn blank_picture_is_shipped(rt: HostRuntime) {
    assert_performs_while_refused(&rt, SHIPPED_BLANK);
}
