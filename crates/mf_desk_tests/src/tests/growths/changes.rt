//! Lines that change a picture.

use super::{STATE, State, TRIAL, Trial, assert_performs_while_refused};

const CLOCKWISE: &Trial = &Trial {
    line: "addto currentpicture contour (0,0)--(0,2)--(4,2)--(4,0)--cycle withweight -2",
    new: State {
        current: "1 0 2 -1\n1 3 3 -2\n0 0 0 -1\n0 1 2 1\n0 3 3 -2\n",
        accepted: (3, -6),
        ..STATE
    },
    ..TRIAL
};

#[test]
fn contour_is_added_to_the_live_picture(rt: HostRuntime) {
    assert_performs_while_refused(&rt, CLOCKWISE);
}

const FIRST_CONTOUR: &Trial = &Trial {
    line: "addto b contour (0,-1)--(2,-1)--(2,1)--(0,1)--cycle",
    new: State {
        b: "0 0 1 1\n-1 0 1 1\n",
        ..STATE
    },
    ..TRIAL
};

#[test]
fn contour_is_added_to_a_blank_register(rt: HostRuntime) {
    assert_performs_while_refused(&rt, FIRST_CONTOUR);
}

const CONTOUR: &Trial = &Trial {
    line: "addto a contour (0,0)--(2,0)--(2,2)--(0,2)--cycle withweight -2",
    new: State {
        a: "1 0 1 -2\n0 0 0 -2\n0 2 2 2\n",
        ..STATE
    },
    ..TRIAL
};

#[test]
fn contour_is_added_to_a_register(rt: HostRuntime) {
    assert_performs_while_refused(&rt, CONTOUR);
}

const SUM: &Trial = &Trial {
    line: "addto currentpicture also a",
    new: State {
        current: "1 0 2 1\n0 0 0 1\n0 1 2 5\n",
        accepted: (3, 14),
        ..STATE
    },
    ..TRIAL
};

#[test]
fn register_is_added_to_the_live_picture(rt: HostRuntime) {
    assert_performs_while_refused(&rt, SUM);
}

const SUM_IN_REGISTER: &Trial = &Trial {
    line: "addto a also currentpicture",
    new: State {
        a: "1 0 2 1\n0 0 0 1\n0 1 2 5\n",
        ..STATE
    },
    ..TRIAL
};

#[test]
fn live_picture_is_added_to_a_register(rt: HostRuntime) {
    assert_performs_while_refused(&rt, SUM_IN_REGISTER);
}

const DOUBLE: &Trial = &Trial {
    line: "addto a also a",
    new: State {
        a: "0 1 2 4\n",
        ..STATE
    },
    ..TRIAL
};

#[test]
fn register_is_added_to_itself(rt: HostRuntime) {
    assert_performs_while_refused(&rt, DOUBLE);
}

const DIFFERENCE: &Trial = &Trial {
    line: "addto currentpicture also -currentpicture",
    new: State {
        current: "blank\n",
        accepted: (3, 0),
        ..STATE
    },
    ..TRIAL
};

#[test]
fn live_picture_is_subtracted_from_itself(rt: HostRuntime) {
    assert_performs_while_refused(&rt, DIFFERENCE);
}

const CULL: &Trial = &Trial {
    line: "cull currentpicture keeping (1,2) withweight -3",
    new: State {
        current: "1 0 2 -3\n0 0 0 -3\n",
        accepted: (3, -12),
        ..STATE
    },
    ..TRIAL
};

#[test]
fn live_picture_is_culled(rt: HostRuntime) {
    assert_performs_while_refused(&rt, CULL);
}

const CULL_IN_REGISTER: &Trial = &Trial {
    line: "cull a dropping (0,1)",
    new: State {
        a: "0 1 2 1\n",
        ..STATE
    },
    ..TRIAL
};

#[test]
fn register_is_culled(rt: HostRuntime) {
    assert_performs_while_refused(&rt, CULL_IN_REGISTER);
}

const SHIFT: &Trial = &Trial {
    line: "currentpicture := currentpicture shifted (2,-1)",
    new: State {
        current: "0 2 4 1\n-1 2 2 1\n-1 3 4 3\n",
        accepted: (3, 10),
        ..STATE
    },
    ..TRIAL
};

#[test]
fn live_picture_is_shifted(rt: HostRuntime) {
    assert_performs_while_refused(&rt, SHIFT);
}

const SHIFT_IN_REGISTER: &Trial = &Trial {
    line: "a := a shifted (-1,7)",
    new: State {
        a: "7 0 1 2\n",
        ..STATE
    },
    ..TRIAL
};

#[test]
fn register_is_shifted(rt: HostRuntime) {
    assert_performs_while_refused(&rt, SHIFT_IN_REGISTER);
}

const SCALE: &Trial = &Trial {
    line: "currentpicture := currentpicture scaled 2",
    new: State {
        current: "3 0 5 1\n2 0 5 1\n1 0 1 1\n1 2 5 3\n0 0 1 1\n0 2 5 3\n",
        accepted: (3, 40),
        ..STATE
    },
    ..TRIAL
};

#[test]
fn live_picture_is_scaled(rt: HostRuntime) {
    assert_performs_while_refused(&rt, SCALE);
}

const SCALE_IN_REGISTER: &Trial = &Trial {
    line: "a := a scaled -2",
    new: State {
        a: "-1 -6 -3 2\n-2 -6 -3 2\n",
        ..STATE
    },
    ..TRIAL
};

#[test]
fn register_is_scaled(rt: HostRuntime) {
    assert_performs_while_refused(&rt, SCALE_IN_REGISTER);
}

const ACROSS: &Trial = &Trial {
    line: "currentpicture := currentpicture xscaled 3",
    new: State {
        current: "1 0 8 1\n0 0 2 1\n0 3 8 3\n",
        accepted: (3, 30),
        ..STATE
    },
    ..TRIAL
};

#[test]
fn live_picture_is_scaled_horizontally(rt: HostRuntime) {
    assert_performs_while_refused(&rt, ACROSS);
}

const ACROSS_IN_REGISTER: &Trial = &Trial {
    line: "a := a xscaled -1",
    new: State {
        a: "0 -3 -2 2\n",
        ..STATE
    },
    ..TRIAL
};

#[test]
fn register_is_reflected_horizontally(rt: HostRuntime) {
    assert_performs_while_refused(&rt, ACROSS_IN_REGISTER);
}

const UPWARDS: &Trial = &Trial {
    line: "currentpicture := currentpicture yscaled -1",
    new: State {
        current: "-1 0 0 1\n-1 1 2 3\n-2 0 2 1\n",
        accepted: (3, 10),
        ..STATE
    },
    ..TRIAL
};

#[test]
fn live_picture_is_reflected_vertically(rt: HostRuntime) {
    assert_performs_while_refused(&rt, UPWARDS);
}

const UPWARDS_IN_REGISTER: &Trial = &Trial {
    line: "a := a yscaled 2",
    new: State {
        a: "1 1 2 2\n0 1 2 2\n",
        ..STATE
    },
    ..TRIAL
};

#[test]
fn register_is_scaled_vertically(rt: HostRuntime) {
    assert_performs_while_refused(&rt, UPWARDS_IN_REGISTER);
}

const QUARTER: &Trial = &Trial {
    line: "currentpicture := currentpicture rotated 90",
    new: State {
        current: "2 -2 -2 1\n2 -1 -1 3\n1 -2 -2 1\n1 -1 -1 3\n0 -2 -1 1\n",
        accepted: (3, 10),
        ..STATE
    },
    ..TRIAL
};

#[test]
fn live_picture_is_turned_by_90_degrees(rt: HostRuntime) {
    assert_performs_while_refused(&rt, QUARTER);
}

const HALF: &Trial = &Trial {
    line: "currentpicture := currentpicture rotated 180",
    new: State {
        current: "-1 -3 -2 3\n-1 -1 -1 1\n-2 -3 -1 1\n",
        accepted: (3, 10),
        ..STATE
    },
    ..TRIAL
};

#[test]
fn live_picture_is_turned_by_180_degrees(rt: HostRuntime) {
    assert_performs_while_refused(&rt, HALF);
}

const THREE_QUARTERS: &Trial = &Trial {
    line: "a := a rotated 270",
    new: State {
        a: "-2 0 0 2\n-3 0 0 2\n",
        ..STATE
    },
    ..TRIAL
};

#[test]
fn register_is_turned_by_270_degrees(rt: HostRuntime) {
    assert_performs_while_refused(&rt, THREE_QUARTERS);
}
