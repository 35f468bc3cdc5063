//! Pictures.
ghost use Rattle.std.specs.Prelude.{◌≡◌, ◌≢◌, [], IsNone, IsOk, IfSome, IfOk, IfErr, OnOk, OnErr, IsTrue, ℤ, slice_get, ◌↔◌};

use crate::black_rows::BlackRows;
use crate::bounds::{Box4, Pixels};
use crate::run::Run;
use crate::runs::Runs;
use crate::walk::Walk;
use mf_base::OutOfMemory;
use mf_rows_edges::WeightMap;
use mf_rows_strips::{AddFault, Corner, Part, Pile, mapped, negated, part_of_corners};
use std::alloc::Global;
use std::marker::Model;
use std::sync::Arc;

mod moves;

/// A picture: a weight in -32767..=32767 for each pixel of the field, whose columns and rows are -4095..=4094; pixels
/// elsewhere have weight 0 (The METAFONTbook, chapter 13).
///
/// It keeps edges: in each row that is not blank, the columns at which the weight changes (mf.web, "edge structures").
/// They are in parts, whose weights are added up, and which are never written once they are made, so pictures share them (`mf_rows_strips`).
#[derive(Debug, Drop)]
pub struct Picture {
    pile: Pile,
}

impl Model for Picture {
    ghost use Rattle.std.specs.Prelude.{List};
    ghost use Rattle.mf_rows.specs.Dots.{Dot};

    ghost Value = { List Dot };

    ghost use Rattle.mf_rows.specs.Weights.{picture_of};
    ghost use Rattle.mf_rows_strips.specs.PileWeights.{weight_in_pile};

    ghost view = { λ p. picture_of (weight_in_pile p.pile) };
}

#[tactic(auto, using(crate::proofs::PicturePiles::of_piles))]
impl Picture {
    ghost use Rattle.mf_geom.specs.Coordinates.{last_in_field, least_coordinate};
    ghost use Rattle.mf_rows.specs.BlackRows.{black_in, black_weights, row_in, row_runs, runs_in};
    ghost use Rattle.mf_rows.specs.Bounds.{AreBounds, IsLeastBox, among, is_positive_at};
    ghost use Rattle.mf_rows_strips.specs.Corners.{AreCorners, HaveFieldStripWeights};
    ghost use Rattle.mf_rows.specs.Corners.{with_corners_at};
    ghost use Rattle.mf_rows.specs.Dots.{IsPicture, weight_at, total_of};
    ghost use Rattle.mf_rows.specs.Runs.{runs_of};
    ghost use Rattle.mf_rows.specs.Sums.{HasWeights, IsUnlawfulSomewhere, difference_at, sum_at};
    ghost use Rattle.mf_rows_edges.specs.WeightMaps.{IsWeightMap};
    ghost use Rattle.mf_rows.specs.WeightMaps.{mapped_weights};
    ghost use Rattle.mf_rows.specs.Weights.{HaveSameWeights, picture_of};
    ghost use Rattle.mf_rows_strips.specs.Parts.{strips_in, weight_in_part};
    ghost use Rattle.mf_rows_strips.specs.PileWeights.{weight_in_pile};
    ghost use Rattle.std.specs.Arc.{arc_value};

    /// The blank picture, METAFONT's `nullpicture`: every weight is 0.
    pub fn blank(alloc: Global) -> Picture
        ensures { result ≡ [] }
    {
        Picture {
            pile: Pile::blank(alloc),
        }
    }

    /// An equal picture, which shares the rows of this one. Refused with `OutOfMemory` where an allocation fails, never
    /// for a blank picture.
    pub fn copy(&self, alloc: Global) -> Result<Picture, OutOfMemory>
        ensures value { IfOk result (λ copy. copy ≡ self.now) }
        ensures blank { self.now ≡ [] → IsOk result }
        ensures lawful { IsPicture self.now }
    {
        match self.pile.copy(alloc) {
            Ok(pile) => Ok(Picture { pile }),
            // Whether it is blank is looked at only where it matters.
            Err(_) => self.blank_or_refused(alloc),
        }
    }

    /// Whether both pictures have the same weight at every pixel.
    pub fn equal(&self, other: &Picture) -> bool
        ensures answer { IsTrue result ↔ (self.now ≡ other.now) }
        ensures weights { IsTrue result ↔ HaveSameWeights self.now other.now }
        ensures lawful { IsPicture self.now }
    {
        self.runs().eq(other.runs())
    }

    /// The weight of the pixel (x, y), 0 outside the field.
    pub fn weight(&self, x: i32, y: i32) -> i32
        ensures weight { result ≡ weight_at self.now x y }
        ensures lawful { IsPicture self.now }
    {
        self.pile.weight(x, y)
    }

    /// The sum of all weights, at most 2,197,882,568,700 in absolute value. METAFONT's `totalweight` is this number, scaled (mf.web:
    /// `total_weight`). It goes through equal rows that lie together only once.
    pub fn total(&self) -> i64
        ensures value { result ≡ total_of self.now }
        ensures lawful { IsPicture self.now }
    {
        if self.pile.is_empty() {
            return 0;
        }
        let mut walk = Walk::of(&self.pile);
        walk.total()
    }

    /// The least box of the pixels of nonzero weight, `None` where the picture is blank. It goes through equal rows that lie
    /// together only once.
    #[tactic(auto, using(crate::proofs::LeastBoxes::least_boxes))]
    pub fn bounds(&self) -> Option<Box4>
        ensures blank { IsNone result ↔ (self.now ≡ []) }
        ensures least { IfSome result (IsLeastBox self.now) }
        ensures lawful { IsPicture self.now }
    {
        self.bounds_of(Pixels::Nonzero)
    }

    /// The least box of the pixels of positive weight, which are black in a character, `None` where there are none. It passes
    /// equal rows once.
    #[tactic(auto, using(crate::proofs::LeastBoxes::black_in_dots))]
    pub fn black_bounds(&self) -> Option<Box4>
        ensures bounds { AreBounds (is_positive_at self.now) result }
        ensures lawful { IsPicture self.now }
    {
        self.bounds_of(Pixels::Black)
    }

    /// The maximal runs of one nonzero weight: rows from the top down, columns from left to right.
    pub fn runs(&self) -> Runs<'_>
        ensures runs { result ≡ runs_of self.now }
        ensures lawful { IsPicture self.now }
    {
        Runs::of(&self.pile)
    }

    /// A reader of the runs of black pixels, those of positive weight, which is in the top row of the field.
    pub fn black_rows(&self) -> BlackRows<'_>
        ensures black { black_in result ≡ black_weights (weight_at self.now) }
        ensures row { row_in result ≡ last_in_field }
        ensures runs { runs_in result ≡ row_runs (black_in result) last_in_field least_coordinate }
        ensures lawful { IsPicture self.now }
    {
        BlackRows::of(&self.pile)
    }

    /// The k-th of the maximal runs that `runs` gives, counted from 0; `None` after the last. It walks the runs before it.
    pub fn run(&self, k: usize) -> Option<Run>
        ensures value { result ≡ slice_get (runs_of self.now) k }
        ensures lawful { IsPicture self.now }
    {
        self.runs().nth(k)
    }

    /// Adds another picture to this one, as `addto .. also` does (The METAFONTbook, chapter 13; mf.web: `merge_edges`):
    /// the weight of each pixel is then the sum of both, and the other picture is unchanged. A picture of one part shares that; a blank
    /// picture shares all parts of the other one. Refused with `WeightTooLarge` where a weight would exceed 32767 in absolute value,
    /// and with `OutOfMemory` where an allocation fails; a refusal leaves this picture as it was. Adding a blank picture is never
    /// refused.
    #[tactic(auto, using(crate::proofs::PicturePiles::of_piles, crate::proofs::PicturePiles::sum_is, crate::proofs::PicturePiles::has_weights))]
    pub fn add(&mut self, alloc: Global, other: &Picture) -> Result<(), AddFault>
        ensures weights { OnOk result (HasWeights (sum_at self.old other.now) self.new) }
        ensures blank { other.now ≡ [] → IsOk result }
        ensures unchanged { OnErr result (self.new ≡ self.old) }
        ensures lawful { OnOk result (IsPicture self.new) }
        ensures too_large { IfErr result (λ fault.
            fault ≢ AddFault.OutOfMemory → IsUnlawfulSomewhere (sum_at self.old other.now)) }
    {
        // Naming the field gives the proof what its type says.
        let _ = &self.pile;
        if other.is_blank() {
            return Ok(());
        }
        if self.is_blank() {
            *self = other.copy(alloc)?;
            return Ok(());
        }
        let part = other.joined(alloc)?;
        self.pile.add(alloc, part)
    }

    /// Subtracts another picture from this one, as `addto .. also -` does: the weight of each pixel is then the one that it had, minus
    /// the one in the other picture, which is unchanged. Refused with `WeightTooLarge` where a weight would exceed 32767 in absolute
    /// value, and with `OutOfMemory` where an allocation fails; a refusal leaves this picture as it was. Subtracting a blank picture is
    /// never refused.
    pub fn subtract(&mut self, alloc: Global, other: &Picture) -> Result<(), AddFault>
        ensures weights { OnOk result (HasWeights (difference_at self.old other.now) self.new) }
        ensures blank { other.now ≡ [] → IsOk result }
        ensures unchanged { OnErr result (self.new ≡ self.old) }
        ensures lawful { OnOk result (IsPicture self.new) }
        ensures too_large { IfErr result (λ fault.
            fault ≢ AddFault.OutOfMemory → IsUnlawfulSomewhere (difference_at self.old other.now)) }
    {
        // Naming the field gives the proof what its type says.
        let _ = &self.pile;
        if other.is_blank() {
            return Ok(());
        }
        let part = other.joined(alloc)?;
        let negated = negated(alloc, &part)?;
        self.pile.add(alloc, Arc::new(alloc, negated)?)
    }

    /// Joins the parts of the picture, as far as there is memory for that; the picture stays as it is. What goes through all pixels joins
    /// them aside otherwise, and has them in memory twice.
    pub fn settle(&mut self, alloc: Global)
        ensures same { self.new ≡ self.old }
        ensures lawful { IsPicture self.new }
    {
        self.pile.settle(alloc);
    }

    /// The picture after each weight is mapped by itself, as `cull` does (The METAFONTbook, chapter 13; mf.web:
    /// `cull_edges`); this one is unchanged. Requires a map under which 0 stays 0 and weights in -32767..=32767 become
    /// such weights. Refused with `OutOfMemory` where an allocation fails, never for a blank picture.
    pub fn map_weights(&self, alloc: Global, map: &WeightMap) -> Result<Picture, OutOfMemory>
        requires { IsWeightMap map.now }
        ensures weights { IfOk result (HasWeights (mapped_weights map.now (weight_at self.now))) }
        ensures blank { self.now ≡ [] → IsOk result }
        ensures lawful { IfOk result IsPicture }
    {
        if self.is_blank() {
            return Ok(Picture::blank(alloc));
        }
        let part = self.joined(alloc)?;
        Picture::of_part(alloc, mapped(alloc, &part, map)?)
    }

    /// Adds corners to the picture. Requires at most 8192 corners, with coordinates in -4095..=4095 and weights in -3..=3, which together
    /// add nothing to the right of the field; what they add below the field is left out. Refused with `WeightTooLarge` where a weight
    /// would exceed 32767 in absolute value, and with `OutOfMemory` where an allocation fails; a refusal leaves the picture as it was.
    pub fn add_corners(&mut self, alloc: Global, corners: Vec<Corner>) -> Result<(), AddFault>
        requires { AreCorners corners.items }
        ensures weights { OnOk result
            (HasWeights (with_corners_at self.old corners.items) self.new) }
        ensures unchanged { OnErr result (self.new ≡ self.old) }
        ensures lawful { OnOk result (IsPicture self.new) }
        ensures too_large { IfErr result (λ fault.
            fault ≢ AddFault.OutOfMemory
            → IsUnlawfulSomewhere (with_corners_at self.old corners.items)) }
    {
        let part = part_of_corners(alloc, corners)?;
        self.pile.add(alloc, Arc::new(alloc, part)?)
    }

    /// Whether the picture is blank.
    fn is_blank(&self) -> bool
        ensures answer { IsTrue result ↔ (self.now ≡ []) }
        ensures lawful { IsPicture self.now }
    {
        if self.pile.is_empty() {
            return true;
        }
        self.runs().next().is_none()
    }

    /// The blank picture where this one is blank, and `OutOfMemory` otherwise.
    fn blank_or_refused(&self, alloc: Global) -> Result<Picture, OutOfMemory>
        ensures value { IfOk result (λ copy. copy ≡ self.now) }
        ensures blank { self.now ≡ [] → IsOk result }
        ensures lawful { IsPicture self.now }
    {
        if self.is_blank() {
            return Ok(Picture::blank(alloc));
        }
        Err(OutOfMemory)
    }

    /// The least box of these pixels, `None` where there are none.
    fn bounds_of(&self, pixels: Pixels) -> Option<Box4>
        ensures bounds { AreBounds (among pixels (weight_at self.now)) result }
        ensures lawful { IsPicture self.now }
    {
        let mut walk = Walk::of(&self.pile);
        walk.bounds(pixels)
    }

    /// All its parts as one.
    fn joined(&self, alloc: Global) -> Result<Arc<Part>, OutOfMemory>
        ensures { IfOk result (λ part. weight_in_part (arc_value part) ≡ weight_at self.now) }
    {
        self.pile.joined(alloc)
    }

    /// The picture of a part.
    pub(crate) fn of_part(alloc: Global, part: Part) -> Result<Picture, OutOfMemory>
        ensures value { IfOk result (λ picture. picture ≡ picture_of (weight_in_part part)) }
        ensures weights { (f : ℤ → ℤ → ℤ) → HaveFieldStripWeights f (strips_in part)
            → IfOk result (HasWeights f) }
        ensures lawful { IfOk result IsPicture }
    {
        let pile = Pile::of(alloc, Arc::new(alloc, part)?)?;
        Ok(Picture { pile })
    }
}
