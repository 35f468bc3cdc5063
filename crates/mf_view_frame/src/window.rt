//! The window of cells that a frame shows.
ghost use Rattle.std.specs.Prelude.{◌≡◌, ◌&&◌, ◌≤◌, nat_le};
ghost use Rattle.mf_rows.specs.Boxes.{IsBoxOfField};
ghost use Rattle.mf_view_frame.specs.Canvases.{picture_lines};
ghost use Rattle.mf_view_frame.specs.Cells.{cell_of};
ghost use Rattle.mf_view_frame.specs.Windows.{IsScale, IsWindow, line_of, window_at, window_of};

use crate::canvas::Canvas;
use mf_geom::MAX_COORDINATE;
use mf_rows::{Box4, extent};

/// The scale at which each picture fits: the field is then two cells wide and two lines high.
const MAX_SCALE: i32 = MAX_COORDINATE;

/// The cells that a frame shows: columns of cells from the left, and lines of two rows of cells each from the bottom. Borders of cells
/// lie on the axes, so that they stay between the same pixels when the picture grows; in return a window may need one more column or
/// line than its box divided by the scale.
#[derive(Clone, Copy, Debug, PartialEq, Eq)]
pub(crate) struct Window {
    /// How many pixels wide and high a cell is, in 1..=4095.
    pub(crate) scale: i32,
    /// The first column.
    pub(crate) column: i32,
    /// How many columns there are.
    pub(crate) columns: u32,
    /// The lowest line.
    pub(crate) line: i32,
    /// How many lines there are.
    pub(crate) lines: u32,
}

impl Window {
    /// The window of a box at the least scale at which it fits on a canvas.
    pub(crate) fn fitting(bounds: &Box4, canvas: Canvas) -> Window
        requires { IsBoxOfField bounds.now }
        ensures value { result ≡ window_of canvas bounds.now }
        ensures lawful { IsWindow result }
        ensures lines { result.lines ≤ picture_lines canvas }
    {
        let columns = canvas.columns();
        let lines = canvas.picture_lines();
        for scale in 1..MAX_SCALE {
            let window = Window::at(bounds, scale);
            if window.fits(columns, lines) {
                return window;
            }
        }
        Window::at(bounds, MAX_SCALE)
    }

    /// The window of a box at a scale.
    fn at(bounds: &Box4, scale: i32) -> Window
        requires bounds { IsBoxOfField bounds.now }
        requires scale { IsScale scale }
        ensures { result ≡ window_at bounds.now scale }
    {
        let column = cell_of(scale, bounds.min_x);
        let last_column = cell_of(scale, bounds.max_x);
        let row = cell_of(scale, bounds.min_y);
        let last_row = cell_of(scale, bounds.max_y);
        let line = line_of(row);
        let last_line = line_of(last_row);
        let columns = extent(column, last_column);
        let lines = extent(line, last_line);
        Window {
            scale,
            column,
            columns,
            line,
            lines,
        }
    }

    /// Whether it has at most this number of columns and of lines.
    fn fits(&self, columns: u32, lines: u32) -> bool
        ensures { result ≡ (nat_le self.now.columns columns && nat_le self.now.lines lines) }
    {
        self.columns <= columns && self.lines <= lines
    }
}

/// Which column of cells the pixel column `p` lies in at this scale; in the same way, which row of cells the pixel row `p` lies in.
#[tactic(auto, using(std::proofs::lemmas::Int::ints), unfolding(crate::specs::Cells::cell_of))]
pub(crate) fn cell_of(scale: i32, p: i32) -> i32
    requires { IsScale scale }
    ensures { result ≡ cell_of scale p }
{
    p.div_euclid(scale)
}

/// The line that shows the cells of a row.
#[tactic(auto, using(std::proofs::lemmas::Int::ints), unfolding(crate::specs::Windows::line_of))]
fn line_of(row: i32) -> i32
    ensures { result ≡ line_of row }
{
    row.div_euclid(2)
}
