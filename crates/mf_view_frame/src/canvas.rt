//! The size of a frame.
ghost use Rattle.std.specs.Prelude.{◌≡◌, ◌↔◌, IsOk, IfOk};
ghost use Rattle.mf_view_frame.specs.Canvases.{IsLargeEnough, IsSize, frame_lines, picture_lines, size_in};

use std::error::Error;
use std::fmt;
use std::marker::Model;

/// The least number of columns of a canvas. The longest line of numbers has this many characters, for instance
/// `columns -4095..-1000  rows -4095..-1000  scale 228`.
const MIN_COLUMNS: u32 = 50;

/// The least number of rows of a canvas: three lines of a picture, the two below them, and the cursor's.
const MIN_ROWS: u32 = 6;

/// The greatest number of columns, and of rows, that a canvas uses.
const MAX_CANVAS_SIDE: u32 = 1000;

/// A canvas that has fewer than 50 columns or fewer than 6 rows.
#[derive(Clone, Copy, Debug, PartialEq, Eq)]
pub struct TooSmall;

impl fmt::Display for TooSmall {
    ghost use Rattle.std.specs.Prelude.{Some};
    ghost use Rattle.mf_view_frame.specs.Names.{too_small_text};

    ghost output = { λ _. Some too_small_text };

    fn fmt<W: fmt::Write>(&self, f: &mut fmt::Formatter<W>) -> fmt::Result {
        f.write_str("TooSmall")
    }
}

impl Error for TooSmall {}

/// The characters that a frame may fill: 50 to 1,000 columns and 6 to 1,000 rows.
#[derive(Clone, Copy, Debug, PartialEq, Eq)]
pub struct Canvas {
    columns: u32,
    rows: u32,
}

impl Model for Canvas {
    ghost use Rattle.mf_view_frame.specs.Canvases.{Size, IsSize};

    ghost Value = { Size };

    ghost view = { λ c. record { columns = c.columns; rows = c.rows } };

    ghost invariant = { λ c. IsSize (record { columns = c.columns; rows = c.rows }) };

    ghost inverse = { λ s. record { columns = s.columns; rows = s.rows } };
}

impl Canvas {
    /// The canvas of a terminal with this number of columns and rows, of which more than 1,000 count as 1,000. Refused with
    /// `TooSmall` exactly where there are fewer than 50 columns or fewer than 6 rows.
    pub fn new(columns: u32, rows: u32) -> Result<Canvas, TooSmall>
        ensures accepted { IsOk result ↔ IsLargeEnough columns rows }
        ensures value { IfOk result (λ canvas. canvas ≡ size_in columns rows) }
    {
        if columns < MIN_COLUMNS || rows < MIN_ROWS {
            return Err(TooSmall);
        }
        Ok(Canvas {
            columns: columns.min(MAX_CANVAS_SIDE),
            rows: rows.min(MAX_CANVAS_SIDE),
        })
    }

    /// The number of lines of a colored frame. The last row is left to the cursor.
    pub fn lines(&self) -> u32
        ensures { result ≡ frame_lines self.now }
    {
        self.rows - 1
    }

    /// The number of columns.
    pub(crate) fn columns(&self) -> u32
        ensures value { result ≡ self.now.columns }
        ensures lawful { IsSize self.now }
    {
        self.columns
    }

    /// The number of lines that a picture may fill.
    pub(crate) fn picture_lines(&self) -> u32
        ensures value { result ≡ picture_lines self.now }
        ensures lawful { IsSize self.now }
    {
        self.rows - 3
    }
}
