//! Texts whose allocations are refused, one after another. Each test asserts that the picture stays as it was, and that with
//! ample memory it then has its text.

use super::picture_of;
use crate::tests::assertions::assert_same;
use mf_base::OutOfMemory;
use mf_rows::{Picture, Run};
use mf_testing::{grow_again, refuse_all_growths, refuse_growths};
use mf_text_show::{GridFault, proof_grid, show_runs};
use std::alloc::Global;
use std::process::Abort;

/// Runs of a picture: row, first column, length and weight.
type Runs = &'static [(i32, i32, u32, i32)];

/// Rows with blank rows between them. One row has two weights side by side.
const ROWS: Runs = &[
    (3, -2, 4, 12),
    (1, 0, 2, 1),
    (1, 2, 1, 3),
    (0, -1, 3, -4),
    (-2, 4, 1, -32767),
];

/// Asserts that a picture has exactly these runs.
fn assert_picture(rt: &impl Abort, picture: &Picture, runs: Runs) {
    for (k, (y, x, len, weight)) in runs.iter().enumerate() {
        let run = Run {
            y: *y,
            x: *x,
            len: *len,
            weight: *weight,
        };
        assert_same(rt, picture.run(k), Some(run), ("run", k));
    }
    assert_same(rt, picture.run(runs.len()), None, "the last run");
}

/// Asserts that the picture of these runs has this run text.
fn assert_shown(rt: &impl Abort, alloc: Global, runs: Runs, want: &str) {
    let picture = picture_of(rt, alloc, runs);
    refuse_growths(alloc);
    let text = show_runs(alloc, &picture);
    grow_again(alloc);
    assert_picture(rt, &picture, runs);
    let text = match text {
        Ok(text) => text,
        Err(fault) => {
            assert_same(rt, fault, OutOfMemory, "the refusal");
            show_runs(alloc, &picture).expect(rt, "there is room for the text")
        }
    };
    assert_same(rt, text.as_slice(), want.as_bytes(), ("the runs", want));
}

#[test]
fn runs_are_shown(rt: HostRuntime) {
    let text = "3 -2 1 12\n1 0 1 1\n1 2 2 3\n0 -1 1 -4\n-2 4 4 -32767\n";
    assert_shown(&rt, rt.alloc(), ROWS, text);
}

#[test]
fn runs_of_a_rectangle_are_shown(rt: HostRuntime) {
    let rectangle: Runs = &[(1, 0, 3, 1), (0, 0, 3, 1)];
    assert_shown(&rt, rt.alloc(), rectangle, "1 0 2 1\n0 0 2 1\n");
}

#[test]
fn no_runs_are_shown(rt: HostRuntime) {
    assert_shown(&rt, rt.alloc(), &[], "blank\n");
}

/// Asserts that the picture of these runs has this grid text.
fn assert_drawn(rt: &impl Abort, alloc: Global, runs: Runs, want: &str) {
    let picture = picture_of(rt, alloc, runs);
    refuse_growths(alloc);
    let text = proof_grid(alloc, &picture);
    grow_again(alloc);
    assert_picture(rt, &picture, runs);
    let text = match text {
        Ok(text) => text,
        Err(fault) => {
            assert_same(rt, fault, GridFault::OutOfMemory, "the refusal");
            proof_grid(alloc, &picture).expect(rt, "there is room for the grid")
        }
    };
    assert_same(rt, text.as_slice(), want.as_bytes(), ("the grid", want));
}

#[test]
fn a_grid_is_drawn(rt: HostRuntime) {
    let grid = "++++...\n.......\n..113..\n.ddd...\n.......\n......-\n";
    assert_drawn(&rt, rt.alloc(), ROWS, grid);
}

#[test]
fn a_grid_of_one_row_is_drawn(rt: HostRuntime) {
    let stairs: Runs = &[(0, 0, 1, 1), (0, 1, 1, 2), (0, 2, 1, 3)];
    assert_drawn(&rt, rt.alloc(), stairs, "123\n");
}

#[test]
fn no_grid_is_drawn(rt: HostRuntime) {
    assert_drawn(&rt, rt.alloc(), &[], "blank\n");
}

/// A run that is too long for a grid is refused with `ProofTooLarge`, also where every allocation is refused.
#[test]
fn a_grid_that_is_too_large_comes_before_out_of_memory(rt: HostRuntime) {
    let (alloc, long): (Global, Runs) = (rt.alloc(), &[(0, 0, 129, 1)]);
    let picture = picture_of(&rt, alloc, long);
    refuse_all_growths(alloc);
    let text = proof_grid(alloc, &picture);
    grow_again(alloc);
    let too_large = Some(GridFault::ProofTooLarge);
    assert_same(&rt, text.err(), too_large, "without memory");
    assert_same(&rt, proof_grid(alloc, &picture).err(), too_large, "with it");
    assert_picture(&rt, &picture, long);
}
