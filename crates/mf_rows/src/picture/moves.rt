//! What moves a picture: reflections, stretches and turns.
ghost use Rattle.std.specs.Prelude.{IfOk};
ghost use Rattle.mf_rows_edges.specs.Axes.{IsStretch, opposite, source_of};
ghost use Rattle.mf_rows.specs.Dots.{IsPicture, weight_at};
ghost use Rattle.mf_rows_strips.specs.Moves.{moved_columns, moved_rows};
ghost use Rattle.mf_rows_strips.specs.Turns.{turned_once};
ghost use Rattle.mf_rows.specs.Moves.{PixelsStayInside};
ghost use Rattle.mf_rows.specs.Sums.{HasWeights};

use super::Picture;
use mf_base::OutOfMemory;
use mf_rows_edges::Stretch;
use mf_rows_strips::{mirrored_columns, mirrored_rows, stretched, turned};
use std::alloc::Global;

#[tactic(auto, using(crate::proofs::PicturePiles::of_piles, crate::proofs::PicturePiles::strips_inside))]
impl Picture {
    /// The picture reflected in the line between columns -1 and 0: column x becomes column -x - 1 (mf.web:
    /// `x_reflect_edges`). This one is unchanged. Refused with `OutOfMemory` where an allocation fails.
    pub fn mirror_columns(&self, alloc: Global) -> Result<Picture, OutOfMemory>
        ensures weights { IfOk result (HasWeights (moved_columns opposite (weight_at self.now))) }
        ensures lawful { IfOk result IsPicture }
    {
        let part = self.joined(alloc)?;
        Picture::of_part(alloc, mirrored_columns(alloc, &part)?)
    }

    /// The picture reflected in the line between rows -1 and 0: row y becomes row -y - 1 (mf.web: `y_reflect_edges`).
    /// This one is unchanged. Refused with `OutOfMemory` where an allocation fails.
    pub fn mirror_rows(&self, alloc: Global) -> Result<Picture, OutOfMemory>
        ensures weights { IfOk result (HasWeights (moved_rows opposite (weight_at self.now))) }
        ensures lawful { IfOk result IsPicture }
    {
        let part = self.joined(alloc)?;
        Picture::of_part(alloc, mirrored_rows(alloc, &part)?)
    }

    /// The picture after its columns and rows are stretched, so that each pixel becomes a rectangle of its weight
    /// (mf.web: `x_scale_edges`, `y_scale_edges`). This one is unchanged. Requires factors in 1..=4095, and that the
    /// rectangles of all pixels of nonzero weight lie in the field. Refused with `OutOfMemory` where an allocation fails.
    pub fn stretch(
        &self,
        alloc: Global,
        columns: &Stretch,
        rows: &Stretch,
    ) -> Result<Picture, OutOfMemory>
        requires columns { IsStretch columns.now }
        requires rows { IsStretch rows.now }
        requires inside { PixelsStayInside columns.now rows.now self.now }
        ensures weights { IfOk result
            (HasWeights
            (moved_rows (source_of rows.now)
            (moved_columns (source_of columns.now) (weight_at self.now)))) }
        ensures lawful { IfOk result IsPicture }
    {
        let part = self.joined(alloc)?;
        Picture::of_part(alloc, stretched(alloc, &part, columns, rows)?)
    }

    /// The picture turned by 90 degrees counterclockwise round the point (0, 0): the pixel (x, y) becomes the pixel (-y
    /// - 1, x) (mf.web: `xy_swap_edges` and a reflection). This one is unchanged. Refused with `OutOfMemory` where an
    /// allocation fails.
    pub fn turn(&self, alloc: Global) -> Result<Picture, OutOfMemory>
        ensures weights { IfOk result (HasWeights (turned_once (weight_at self.now))) }
        ensures lawful { IfOk result IsPicture }
    {
        let part = self.joined(alloc)?;
        Picture::of_part(alloc, turned(alloc, &part)?)
    }
}
