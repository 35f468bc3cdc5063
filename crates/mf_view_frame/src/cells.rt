//! The shades of the cells of a window.
ghost use Rattle.std.specs.Prelude.{◌≡◌, ◌<◌, ◌≤◌, ◌*◌, length, IfOk};
ghost use Rattle.mf_view_frame.specs.Cells.{AreCells, AreDarkened, AreInWindow, ArePainted, IsCellOf, IsRunInWindow, place_in};
ghost use Rattle.mf_view_frame.specs.Windows.{IsWindow};

use crate::shade::Shade;
use crate::window::{Window, cell_of};
use mf_base::OutOfMemory;
use mf_rows::{Picture, Run};
use std::alloc::Global;

/// The shades of the cells of a window: row by row from the lowest, each row from its first column. Requires that the picture
/// lies in the window.
#[tactic(auto, using(crate::proofs::Painting::painted_none, crate::proofs::Painting::painted_all))]
pub(crate) fn cells_of(
    alloc: Global,
    picture: &Picture,
    window: &Window,
) -> Result<Vec<Shade>, OutOfMemory>
    requires window { IsWindow window.now }
    requires dots { AreInWindow window.now picture.now }
    ensures { IfOk result (λ shades. AreCells window.now picture.now shades.items) }
{
    let count = 2 * window.lines as usize * window.columns as usize;
    let mut shades = vec![in alloc; Shade::Blank; count]?;
    for run in picture.runs() {
        paint(&mut shades, window, &run);
    }
    Ok(shades)
}

/// Darkens the cells that a run reaches.
fn paint(shades: &mut Vec<Shade>, window: &Window, run: &Run)
    requires window { IsWindow window.now }
    requires run { IsRunInWindow window.now run.now }
    requires count { length shades.old.items ≡ 2 * window.now.lines * window.now.columns }
    ensures { ArePainted window.now run.now shades.old.items shades.new.items }
{
    let row = cell_of(window.scale, run.y);
    let first = cell_of(window.scale, run.x);
    let last = cell_of(window.scale, run.x + (run.len - 1) as i32);
    let start = place_in(window, first, row);
    let end = place_in(window, last, row) + 1;
    darken(shades, start, end, Shade::of(run.weight));
}

/// Where a cell of a window is in the list of its cells.
fn place_in(window: &Window, column: i32, row: i32) -> usize
    requires window { IsWindow window.now }
    requires cell { IsCellOf window.now column row }
    ensures value { result ≡ place_in window.now column row }
    ensures inside { result < 2 * window.now.lines * window.now.columns }
{
    let above = (row - 2 * window.line) as usize;
    let right = (column - window.column) as usize;
    above * window.columns as usize + right
}

/// Makes the shades of these places at least as dark as a shade.
fn darken(shades: &mut Vec<Shade>, start: usize, end: usize, shade: Shade)
    requires order { start ≤ end }
    requires end { end ≤ length shades.old.items }
    ensures { AreDarkened (record { start = start; end = end; shade = shade }) shades.old.items
        shades.new.items }
{
    for place in start..end {
        shades[place] = shades[place].max(shade);
    }
}
