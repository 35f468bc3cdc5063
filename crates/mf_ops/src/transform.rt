//! Shifts, scales and turns.
ghost use Rattle.std.specs.Prelude.{◌≡◌, ◌↔◌, None, Some, Err, IfOk, IfErr, OnOk, IsTrue};
ghost use Rattle.mf_geom.specs.Coordinates.{IsCoordinate};
ghost use Rattle.mf_geom.specs.Field.{IsColumnOrRow};
ghost use Rattle.mf_rows.specs.Dots.{IsPicture, weight_at};
ghost use Rattle.mf_rows_edges.specs.Axes.{StaysInside, target_of};
ghost use Rattle.mf_rows.specs.Moves.{PixelsStayInside};
ghost use Rattle.mf_rows.specs.Sums.{HasWeights};
ghost use Rattle.mf_ops.specs.Moves.{reflection, turn_by};
ghost use Rattle.mf_ops.specs.Step.{IsRefusal, next_picture, op_fault};
ghost use Rattle.mf_ops.specs.declared.op.Op.TheVariants as ops;

use crate::op::OpFault;
use crate::quarter::{Quarter, TurnCount};
use crate::scale::Scale;
use mf_base::OutOfMemory;
use mf_geom::MAX_COORDINATE;
use mf_rows::Picture;
use mf_rows_edges::Stretch;
use std::alloc::Global;

/// The greatest absolute value of a coordinate, as an `i64`: moved points are computed in 64 bits, so that nothing overflows.
const FARTHEST: i64 = MAX_COORDINATE as i64;

/// Returns the picture shifted to the right by `right` columns and upwards by `up` rows.
pub fn shift(alloc: Global, picture: &Picture, right: i32, up: i32) -> Result<Picture, OpFault>
    ensures step { IfOk result (λ new. new ≡ next_picture picture.now (ops.Shift right up)) }
    ensures accepted { OnOk result (op_fault picture.now (ops.Shift right up) ≡ None) }
    ensures refused { IfErr result (IsRefusal picture.now (ops.Shift right up)) }
    ensures out_of_field { op_fault picture.now (ops.Shift right up) ≡ Some OpFault.OutOfField
        → result ≡ Err OpFault.OutOfField }
{
    let columns = stretch(1, right);
    let rows = stretch(1, up);
    if !pixels_stay_inside(picture, &columns, &rows) {
        return Err(OpFault::OutOfField);
    }
    Ok(picture.stretch(alloc, &columns, &rows)?)
}

/// Returns the picture scaled by two factors. Where a factor is negative, the picture is reflected first and then stretched.
pub fn scale(alloc: Global, picture: &Picture, scale: Scale) -> Result<Picture, OpFault>
    ensures step { IfOk result (λ new. new ≡ next_picture picture.now (ops.Scale scale)) }
    ensures accepted { OnOk result (op_fault picture.now (ops.Scale scale) ≡ None) }
    ensures refused { IfErr result (IsRefusal picture.now (ops.Scale scale)) }
    ensures out_of_field { op_fault picture.now (ops.Scale scale) ≡ Some OpFault.OutOfField
        → result ≡ Err OpFault.OutOfField }
{
    let (x, y) = (scale.x(), scale.y());
    if !pixels_stay_inside(picture, &stretch(x, 0), &stretch(y, 0)) {
        return Err(OpFault::OutOfField);
    }
    let reflected = reflect(alloc, picture, x < 0, y < 0)?;
    Ok(reflected.stretch(alloc, &stretch(x.abs(), 0), &stretch(y.abs(), 0))?)
}

/// Returns the picture turned counterclockwise by 90, 180 or 270 degrees about the point (0, 0).
pub fn turn(alloc: Global, picture: &Picture, quarter: Quarter) -> Result<Picture, OpFault>
    ensures step { IfOk result (λ new. new ≡ next_picture picture.now (ops.Quarter quarter)) }
    ensures accepted { OnOk result (op_fault picture.now (ops.Quarter quarter) ≡ None) }
    ensures refused { IfErr result (λ fault. fault ≡ OpFault.OutOfMemory) }
{
    Ok(turned_picture(alloc, picture, quarter)?)
}

/// Returns the picture turned by 90, 180 or 270 degrees. To turn by 180 degrees is to reflect the columns and the rows, and to turn
/// by 270 degrees is to turn by 90 and then by 180.
fn turned_picture(
    alloc: Global,
    picture: &Picture,
    quarter: Quarter,
) -> Result<Picture, OutOfMemory>
    ensures weights { IfOk result (HasWeights (turn_by quarter (weight_at picture.now))) }
    ensures lawful { IfOk result IsPicture }
{
    match quarter.turns() {
        TurnCount::Once => picture.turn(alloc),
        TurnCount::Twice => reflect(alloc, picture, true, true),
        TurnCount::Thrice => reflect(alloc, &picture.turn(alloc)?, true, true),
    }
}

/// Returns the picture reflected in the line between columns -1 and 0, in the line between rows -1 and 0, or in both.
fn reflect(
    alloc: Global,
    picture: &Picture,
    columns: bool,
    rows: bool,
) -> Result<Picture, OutOfMemory>
    ensures weights { IfOk result (HasWeights (reflection columns rows (weight_at picture.now))) }
    ensures lawful { IfOk result IsPicture }
{
    match (columns, rows) {
        (false, false) => picture.copy(alloc),
        (true, false) => picture.mirror_columns(alloc),
        (false, true) => picture.mirror_rows(alloc),
        (true, true) => picture.mirror_columns(alloc)?.mirror_rows(alloc),
    }
}

/// Whether all pixels of nonzero weight lie in the field after the columns and the rows are stretched. The least box decides:
/// where the pixels at its sides stay in the field, all pixels do. Finding it allocates nothing.
fn pixels_stay_inside(picture: &Picture, columns: &Stretch, rows: &Stretch) -> bool
    ensures { IsTrue result ↔ PixelsStayInside columns.now rows.now picture.now }
{
    match picture.bounds() {
        Some(bounds) => {
            lies_inside(columns, bounds.min_x)
                && lies_inside(columns, bounds.max_x)
                && lies_inside(rows, bounds.min_y)
                && lies_inside(rows, bounds.max_y)
        }
        None => true,
    }
}

/// Whether both ends of a column, or row, lie in -4095..=4095 after a stretch.
fn lies_inside(stretch: &Stretch, start: i32) -> bool
    requires { IsColumnOrRow start }
    ensures { IsTrue result ↔ StaysInside stretch.now start }
{
    stays_in_range(stretch, start) && stays_in_range(stretch, start + 1)
}

/// Whether a point stays in -4095..=4095 under a stretch.
fn stays_in_range(stretch: &Stretch, point: i32) -> bool
    requires { IsCoordinate point }
    ensures { IsTrue result ↔ IsCoordinate (target_of stretch.now point) }
{
    let new = i64::from(point) * i64::from(stretch.factor) + i64::from(stretch.offset);
    -FARTHEST <= new && new <= FARTHEST
}

/// The stretch that multiplies by `factor` and then adds `offset`.
fn stretch(factor: i32, offset: i32) -> Stretch
    ensures { result ≡ record { factor = factor; offset = offset } }
{
    Stretch { factor, offset }
}
