//! The black pixels of a picture, read row by row.
ghost use Rattle.std.specs.Prelude.{OnOk, ◌≡◌, []};
ghost use Rattle.mf_rows.specs.BlackRows.{runs_in};

use super::rectangles::{at_once, field, make_rectangle};
use super::{make_run, picture_of};
use crate::tests::assertions::assert_same;
use mf_base::OutOfMemory;
use mf_rows::{BlackRows, Picture, Run};
use std::alloc::Global;
use std::process::Abort;

/// The number of rows of the field.
const HEIGHT: u32 = 8190;

/// Adds the runs of the row that a reader is in to a list.
fn push_row(rows: &mut BlackRows<'_>, runs: &mut Vec<Run>) -> Result<(), OutOfMemory>
    ensures { OnOk result (runs_in rows.new ≡ []) }
{
    while let Some(run) = rows.next_run() {
        runs.push(run)?;
    }
    Ok(())
}

/// The runs of all rows, and the number of rows; one too many where the reader goes below the field.
fn read_rows(alloc: Global, picture: &Picture) -> Result<(Vec<Run>, u32), OutOfMemory> {
    let mut rows = picture.black_rows();
    let (mut all, mut count) = (Vec::new(alloc), 0u32);
    for _ in 0..HEIGHT + 1 {
        let mut row = Vec::new(alloc);
        push_row(&mut rows, &mut row)?;
        let height = rows.pass_equal_rows().min(HEIGHT) + 1;
        for down in 0..height {
            for run in &row {
                let y = run.y.wrapping_sub(down as i32);
                all.push(Run { y, ..*run })?;
            }
        }
        count = count.wrapping_add(height);
        if !rows.next_row() {
            break;
        }
    }
    Ok((all, count))
}

/// Asserts that the rows of a picture have exactly these runs of black pixels, in this case of a test.
pub(crate) fn assert_stretches<R: Abort + AllocGlobal>(
    rt: &R,
    case: usize,
    picture: &Picture,
    runs: &[Run],
) {
    let (all, count) = read_rows(rt.alloc(), picture).expect(rt, "there is room for the runs");
    assert_same(rt, all.as_slice(), runs, ("black runs in case", case));
    assert_same(rt, count, HEIGHT, ("rows in case", case));
}

#[test]
fn black_pixels_of_any_weight_are_one_stretch(rt: HostRuntime) {
    let runs = [
        make_run(2, 0, 3, 1),
        make_run(2, 3, 2, 2),
        make_run(2, 5, 1, 32767),
        make_run(1, -5, 2, 1),
        make_run(1, -3, 1, -1),
        make_run(1, -2, 3, 7),
        make_run(-1, -4, 2, -1),
        make_run(-1, -2, 1, 1),
        make_run(-1, -1, 3, -2),
        make_run(-3, 0, 4, -1),
    ];
    let black = [
        make_run(2, 0, 6, 1),
        make_run(1, -5, 2, 1),
        make_run(1, -2, 3, 1),
        make_run(-1, -2, 1, 1),
    ];
    assert_stretches(&rt, 0, &picture_of(&rt, &runs), &black);
}

#[test]
fn black_rows_that_are_equal_are_all_told(rt: HostRuntime) {
    let black = [
        make_run(4, 0, 3, 1),
        make_run(3, 0, 3, 1),
        make_run(2, 0, 3, 1),
        make_run(1, 0, 3, 1),
        make_run(0, 0, 3, 1),
    ];
    let rectangle = make_rectangle(0, 0, 3, 5, 2);
    assert_stretches(&rt, 0, &at_once(&rt, &[rectangle]), &black);
    let below = make_rectangle(0, -5, 3, 0, -1);
    assert_stretches(&rt, 1, &at_once(&rt, &[rectangle, below]), &black);
    assert_stretches(&rt, 2, &at_once(&rt, &[below]), &[]);
}

#[test]
fn black_rows_reach_the_sides_of_the_field(rt: HostRuntime) {
    let corners = [
        make_run(4094, -4095, 1, 1),
        make_run(4094, 4094, 1, 1),
        make_run(0, -4095, 8190, 1),
        make_run(-4095, -4095, 2, 1),
        make_run(-4095, 4093, 2, 1),
    ];
    assert_stretches(&rt, 0, &picture_of(&rt, &corners), &corners);
    let mut rows = Vec::new(rt.alloc());
    for y in (-4095..4095).rev() {
        rows.push(make_run(y, -4095, 8190, 1))
            .expect(&rt, "there is room for the row");
    }
    assert_stretches(&rt, 1, &at_once(&rt, &[field(3)]), &rows);
}
