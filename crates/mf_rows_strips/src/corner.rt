//! Corners, and the part that they make.
ghost use Rattle.std.specs.Prelude.{IfOk, IfNone, IfSome, OnOk, ◌≤ℤ◌, ◌<ℤ◌};
ghost use Rattle.mf_geom.specs.Coordinates.{least_coordinate, greatest_coordinate, IsCoordinate};
ghost use Rattle.mf_rows_edges.specs.Merging.{AreEdgesBefore};
ghost use Rattle.mf_rows_strips.specs.Parts.{strips_in};
ghost use Rattle.mf_rows_strips.specs.Corners.{added_by_all, AreSortedFrom, AreSweptCorners, BeginAtHeight, BeginBelowField};
ghost use Rattle.mf_rows_strips.specs.Corners.{ContinueWith, HaveFieldStripWeights, IsJoined, IsSplitHeight};

use crate::part::Part;
use crate::writer::PartWriter;
use mf_base::OutOfMemory;
use mf_rows_edges::{Edge, FIELD_START, push_sum_of_edges, push_unless_zero, reach_of};
use std::alloc::Global;
use std::cmp::Reverse;

/// A corner adds its weight to every pixel at or to the right of column `x` and below height `y`. A vertical side of a
/// path changes the weights of its rows from its column on: it is a corner at its upper end and one of the negated
/// weight at its lower end. So the rows between two heights of corners have the same edges, which are worked out once
/// (mf.web inserts the edges of a side row by row). `x` and `y` are a point of the plane, in pixels; corners that are
/// added to a picture have coordinates in -4095..=4095 and weights in -3..=3.
#[derive(Clone, Copy, Debug, PartialEq, Eq)]
pub struct Corner {
    pub x: i32,
    pub y: i32,
    pub weight: i32,
}

/// The part in which each pixel of the field has the weight that these corners add to it. Requires corners in -4095..=4095 that add a
/// weight in -32767..=32767 to each pixel, and 0 to those to the right of the field.
pub fn part_of_corners(alloc: Global, corners: Vec<Corner>) -> Result<Part, OutOfMemory>
    requires { AreSweptCorners corners.items }
    ensures weights { IfOk result (λ part.
        HaveFieldStripWeights (added_by_all corners.items) (strips_in part)) }
{
    let mut corners = corners;
    // The corners of a path have long runs of falling heights, which a stable sort finds and merges.
    corners.sort_by_key(|corner| (Reverse(corner.y), corner.x))?;
    // Each height at which something changes has at least two corners.
    let room = corners.len() / 2;
    let mut part = PartWriter::with_room(alloc, room, room)?;
    let (mut changes, mut row) = (Vec::new(alloc), Vec::new(alloc));
    let mut reach = 0i32;
    let mut left = corners.as_slice();
    while let Some(top) = next_height(left) {
        left = split_height(&mut changes, top, left)?;
        row.clear();
        push_sum_of_edges(&mut row, part.last_row(), &changes)?;
        push_unless_same(&mut part, top, &row)?;
        reach = reach.max(reach_of(&row));
    }
    // The part ends with the field.
    push_unless_same(&mut part, FIELD_START, &[])?;
    Ok(part.finish(reach))
}

/// The height of the first of these corners; `None` where it has no row of the field below it, or there is none.
fn next_height(corners: &[Corner]) -> Option<i32>
    ensures first { IfSome result (λ top. BeginAtHeight top corners.now) }
    ensures above { IfSome result (λ top. least_coordinate <ℤ top) }
    ensures none { IfNone result (BeginBelowField corners.now) }
{
    match corners.first() {
        Some(first) if FIELD_START < first.y => Some(first.y),
        _ => None,
    }
}

/// Splits off the corners at the height `top`, which the first of them has: `changes` becomes the edges by which they change the rows
/// below it. Refused where an allocation fails, or where a sum of weights in one column does not fit into 32 bits, as that of 2^17 corners
/// may not.
fn split_height<'a>(
    changes: &mut Vec<Edge>,
    top: i32,
    corners: &'a [Corner],
) -> Result<&'a [Corner], OutOfMemory>
    requires first { BeginAtHeight top corners.now }
    requires sorted { AreSortedFrom least_coordinate top corners.now }
    ensures { IfOk result (λ others. IsSplitHeight top corners.now changes.new.items others.now) }
{
    changes.clear();
    let mut last = Edge {
        x: FIELD_START,
        weight: 0,
    };
    let mut left = corners;
    while let Some((first, rest)) = left.split_first() {
        if first.y != top {
            break;
        }
        last = push_joined(changes, &last, first)?;
        left = rest;
    }
    push_unless_zero(changes, last)?;
    Ok(left)
}

/// The edge of a corner after others, the last of which is not yet on the list. It joins with the last one where that is at its column, and
/// else the last one is appended.
fn push_joined(edges: &mut Vec<Edge>, last: &Edge, corner: &Corner) -> Result<Edge, OutOfMemory>
    requires edges { AreEdgesBefore last.now.x edges.old.items }
    requires order { last.now.x ≤ℤ corner.now.x }
    requires column { IsCoordinate corner.now.x }
    ensures { IfOk result (IsJoined edges.old.items last.now corner.now edges.new.items) }
{
    let Edge { x, weight } = *last;
    if x == corner.x {
        let Some(weight) = weight.checked_add(corner.weight) else {
            return Err(OutOfMemory);
        };
        return Ok(Edge { x, weight });
    }
    push_unless_zero(edges, *last)?;
    Ok(Edge {
        x: corner.x,
        weight: corner.weight,
    })
}

/// Appends a strip with these edges, whose rows begin below the height `top`, unless the last strip has the same edges.
fn push_unless_same(part: &mut PartWriter, top: i32, row: &[Edge]) -> Result<(), OutOfMemory>
    requires bottom { least_coordinate ≤ℤ top }
    requires top { top ≤ℤ greatest_coordinate }
    ensures { OnOk result (ContinueWith top row.now part.old part.new) }
{
    if row == part.last_row() {
        return Ok(());
    }
    part.push(top, row)
}
