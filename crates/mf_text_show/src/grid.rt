//! Grid texts.
ghost use Rattle.std.specs.Prelude.{◌≡◌, ◌≤ℤ◌, ◌+ℤ◌, ◌++◌, ◌↔◌, Err, IfOk, codes, pos};
ghost use Rattle.mf_geom.specs.Coordinates.{least_coordinate, last_in_field};
ghost use Rattle.mf_rows.specs.Bounds.{IsLeastBox};
ghost use Rattle.mf_rows.specs.Boxes.{IsBoxOfField, extent};
ghost use Rattle.mf_rows.specs.Dots.{place};
ghost use Rattle.mf_rows.specs.Order.{AreRuns};
ghost use Rattle.mf_text_show.specs.Grid.{IsTooLargeForGrid, grid_character, grid_text, row_text};
ghost use Rattle.mf_text_show.specs.RunsAhead.{runs_ahead, dots_ahead, AreSameFrom};

mod weights;

use crate::fault::GridFault;
use crate::grid::weights::Weights;
use mf_base::OutOfMemory;
use mf_rows::{Box4, Picture, extent};
use std::alloc::Global;

/// The greatest number of columns, and of rows, of a grid.
const MAX_GRID_SIDE: u32 = 128;

/// The grid text of a picture: a line for each row of its least box, from the top, with a character for the weight of each pixel.
/// `.` is 0, `1` to `9` are themselves, `+` is any greater weight, `a` to `i` are -1 to -9, and `-` is any lesser weight. The
/// text of the blank picture is the line `blank`. Each line ends with a line feed. Refused with `ProofTooLarge` exactly where the
/// least box is wider or higher than 128 pixels, and with `OutOfMemory` where an allocation fails.
#[tactic(auto, using(crate::proofs::GridTexts::blank_fits, crate::proofs::GridTexts::grid_of_blank, crate::proofs::GridTexts::small_box_fits))]
pub fn proof_grid(alloc: Global, picture: &Picture) -> Result<Vec<u8>, GridFault>
    ensures text { IfOk result (λ text. text.items ≡ grid_text picture.now) }
    ensures too_large { IsTooLargeForGrid picture.now ↔ (result ≡ Err GridFault.ProofTooLarge) }
{
    let Some(bounds) = picture.bounds() else {
        return Ok(blank(alloc)?);
    };
    if bounds.is_larger_than(MAX_GRID_SIDE) {
        return Err(GridFault::ProofTooLarge);
    }
    Ok(box_text(alloc, picture, &bounds)?)
}

/// The text of the blank picture.
fn blank(alloc: Global) -> Result<Vec<u8>, OutOfMemory>
    ensures { IfOk result (λ text. text.items ≡ codes "blank\n") }
{
    Ok(Vec::from_slice(alloc, b"blank\n")?)
}

/// The number of bytes in the grid text of a box.
fn byte_count(bounds: &Box4) -> usize
    requires { IsBoxOfField bounds.now }
{
    let columns = extent(bounds.min_x, bounds.max_x);
    let rows = extent(bounds.min_y, bounds.max_y);
    (rows as usize).saturating_mul(columns as usize + 1)
}

/// The grid text of a picture whose least box is this one. Room for all its bytes is asked for at once.
fn box_text(alloc: Global, picture: &Picture, bounds: &Box4) -> Result<Vec<u8>, OutOfMemory>
    requires { IsLeastBox picture.now bounds.now }
    ensures { IfOk result (λ text. text.items ≡ grid_text picture.now) }
{
    let mut weights = Weights::over(picture);
    let mut text = Vec::with_capacity(alloc, byte_count(bounds))?;
    for y in (bounds.min_y..bounds.max_y + 1).rev() {
        push_row(&mut text, &mut weights, y, bounds.min_x, bounds.max_x)?;
    }
    Ok(text)
}

/// Appends the line of a row, from the first to the last column.
#[tactic(auto, using(crate::proofs::PassedPixels::none_passed, crate::proofs::ShownRows::row_none))]
fn push_row(
    text: &mut Vec<u8>,
    weights: &mut Weights<'_>,
    y: i32,
    first: i32,
    last: i32,
) -> Result<(), OutOfMemory>
    requires order { AreRuns (runs_ahead weights.old) }
    requires least { least_coordinate ≤ℤ first }
    requires greatest { last ≤ℤ last_in_field }
    requires columns { first ≤ℤ last }
    ensures text { IfOk result (λ _.
        text.new.items
        ≡ text.old.items ++ row_text (dots_ahead weights.old) y first (extent first last)
        ++ codes "\n") }
    ensures order { IfOk result (λ _. AreRuns (runs_ahead weights.new)) }
    ensures later { IfOk result (λ _.
        AreSameFrom (place (last +ℤ pos 1) y) (dots_ahead weights.old) (dots_ahead weights.new)) }
{
    for x in first..last + 1 {
        text.push(grid_character(weights.weight(x, y)))?;
    }
    text.push(b'\n')?;
    Ok(())
}

/// The character that represents a weight.
fn grid_character(weight: i32) -> u8
    ensures { result ≡ grid_character weight }
{
    match weight {
        0 => b'.',
        1..=9 => b'0' + weight as u8,
        -9..=-1 => b'a' - 1 + weight.unsigned_abs() as u8,
        _ if weight > 0 => b'+',
        _ => b'-',
    }
}
