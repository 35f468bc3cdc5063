//! The rows of a character: the commands that paint its stretches of black pixels.
ghost use Rattle.std.specs.Prelude.{◌≡◌, ◌≤◌, ◌≤ℤ◌, ◌-ℤ◌, ◌++◌, [], IfSome, List, Some, ℕ, flat_map, pos};
ghost use Rattle.mf_geom.specs.Coordinates.{IsCoordinate, field_size, last_in_field, least_coordinate};
ghost use Rattle.mf_geom.specs.Field.{IsColumnOrRow};
ghost use Rattle.mf_gf.specs.Numbers.{greatest_halfword};
ghost use Rattle.mf_gf.specs.Rows.{blank_after_rows, repeated, rows_between};
ghost use Rattle.mf_gf.specs.Spelling.{lengths, paint, row_lengths, row_start, rows_text};
ghost use Rattle.mf_gf.specs.Spellings.{HasPart, Holds, IsPart, IsSpelling};
ghost use Rattle.mf_rows.specs.BlackRows.{black_in, black_weights, row_in, row_runs, runs_in};
ghost use Rattle.mf_rows.specs.Dots.{weight_at};
ghost use Rattle.mf_rows.specs.RowEdges.{AreSameRows};

use crate::spelling::Spelling;
use crate::strokes::MOST_PAINTED;
use mf_rows::{BlackRows, Picture};

/// The greatest offset of a new_row command (gftype.web).
const MOST_NEW_ROW: u32 = 164;

/// Spells the rows of a picture's black pixels, from the top down. `left` is the left end of their box.
pub(crate) fn spell_rows(out: &mut Spelling, picture: &Picture, left: i32)
    requires spelling { IsSpelling out.old }
    requires left { IsCoordinate left }
    ensures held { (text : List ℕ) → Holds out.old text
        → Holds out.new
        (text
        ++ rows_text (row_lengths left (black_weights (weight_at picture.now)))
        last_in_field field_size None) }
    ensures room { out.new.room ≡ out.old.room }
{
    let mut rows = picture.black_rows();
    let mut blank = None;
    loop {
        blank = spell_equal_rows(out, &mut rows, left, blank);
        if !rows.next_row() {
            return;
        }
    }
}

/// Spells the row that a reader has entered, and those below it that are known to be equal to it: their bytes are copied. `blank` is the
/// number of blank rows between it and the black row above, `None` where there is none. Returns that number for the row below them.
fn spell_equal_rows(
    out: &mut Spelling,
    rows: &mut BlackRows<'_>,
    left: i32,
    blank: Option<u32>,
) -> Option<u32>
    requires spelling { IsSpelling out.old }
    requires left { IsCoordinate left }
    requires row { IsColumnOrRow (row_in rows.old) }
    requires runs { runs_in rows.old
        ≡ row_runs (black_in rows.old) (row_in rows.old) least_coordinate }
    requires blank { IfSome blank (λ n. pos n ≤ℤ (last_in_field -ℤ row_in rows.old)) }
    ensures held { (text : List ℕ) → Holds out.old text
        → Holds out.new
        (text
        ++ rows_text (row_lengths left (black_in rows.old)) (row_in rows.old)
        (rows_between (row_in rows.old) (row_in rows.new)) blank) }
    ensures blank { result
        ≡ blank_after_rows (row_lengths left (black_in rows.old)) (row_in rows.old)
        (rows_between (row_in rows.old) (row_in rows.new)) blank }
    ensures room { out.new.room ≡ out.old.room }
    ensures black { black_in rows.new ≡ black_in rows.old }
    ensures rows { AreSameRows (black_in rows.old) (row_in rows.new) (row_in rows.old) }
{
    let Some(first) = rows.next_run() else {
        let count = rows.pass_equal_rows() + 1;
        return blank.map(|n| n + count);
    };
    let offset = first.x.abs_diff(left);
    start_row(out, blank, offset);
    let start = out.length();
    out.paint(first.len);
    put_runs(out, rows, first.x + first.len as i32);
    let end = out.length();
    repeat_row(out, offset, start, end, rows.pass_equal_rows());
    Some(0)
}

/// Spells the other stretches of a row, from this column on, where the one before them ends.
fn put_runs(out: &mut Spelling, rows: &mut BlackRows<'_>, column: i32)
    requires column { IsCoordinate column }
    ensures held { (text : List ℕ) → Holds out.old text
        → Holds out.new (text ++ flat_map paint (lengths column (runs_in rows.old))) }
    ensures over { runs_in rows.new ≡ [] }
    ensures row { row_in rows.new ≡ row_in rows.old }
    ensures black { black_in rows.new ≡ black_in rows.old }
    ensures room { out.new.room ≡ out.old.room }
{
    let mut column = column;
    while let Some(run) = rows.next_run() {
        put_stretch(out, run.x.abs_diff(column), run.len);
        column = run.x + run.len as i32;
    }
}

/// Paints a white and a black stretch. Most are short, so they take two bytes, which are appended at once.
#[inline(always)]
fn put_stretch(out: &mut Spelling, white: u32, black: u32)
    requires white { white ≤ greatest_halfword }
    requires black { black ≤ greatest_halfword }
    ensures held { (text : List ℕ) → Holds out.old text
        → Holds out.new (text ++ (paint white ++ paint black)) }
    ensures room { out.new.room ≡ out.old.room }
{
    if white <= MOST_PAINTED && black <= MOST_PAINTED {
        out.put_pair(white as u8, black as u8);
        return;
    }
    out.paint(white);
    out.paint(black);
}

/// Begins a row, so that the next paint is black at this offset from the left end of the box. `blank` is the number of blank rows between
/// it and the black row above, `None` where there is none.
fn start_row(out: &mut Spelling, blank: Option<u32>, offset: u32)
    requires blank { IfSome blank (λ n. n ≤ greatest_halfword) }
    requires offset { offset ≤ greatest_halfword }
    ensures held { (text : List ℕ) → Holds out.old text
        → Holds out.new (text ++ row_start blank offset) }
    ensures room { out.new.room ≡ out.old.room }
{
    if let Some(blank) = blank {
        if blank == 0 && offset <= MOST_NEW_ROW {
            out.new_row(offset);
            return;
        }
        out.skip(blank);
    }
    out.paint(offset);
}

/// Spells as many rows directly below a row as are equal to it. The bytes of that row from `start` up to `end` are those after its offset.
fn repeat_row(out: &mut Spelling, offset: u32, start: usize, end: usize, count: u32)
    requires offset { offset ≤ greatest_halfword }
    requires part { IsPart out.old start end }
    ensures rows { (before part after : List ℕ) → HasPart out.old start end before part after
        → HasPart out.new start end before part
        (after ++ repeated count (row_start (Some 0) offset ++ part)) }
    ensures room { out.new.room ≡ out.old.room }
{
    for _ in 0..count {
        start_row(out, Some(0), offset);
        out.repeat(start, end);
    }
}
