//! Laws of the definitions. Each is the contract of a function that does nothing: the toolchain proves a statement only
//! where a function's contract names it.
ghost use Rattle.std.specs.Prelude.{◌≡◌, ◌↔◌, ℤ, pos, ◌+ℤ◌, ◌≤ℤ◌, All, List, [], flat_map};
ghost use Rattle.std.specs.Arc.{arc_value};
ghost use Rattle.mf_geom.specs.Field.{IsInField, sum_over_field};
ghost use Rattle.mf_rows_edges.specs.Axes.{IsStretch, source_of, target_of};
ghost use Rattle.mf_rows_edges.specs.declared.stretch.Stretch.{Stretch};
ghost use Rattle.mf_rows_edges.specs.LawfulWeights.{IsLawfulWeight};
ghost use Rattle.mf_rows.specs.Bounds.{IsLeastBox};
ghost use Rattle.mf_rows.specs.declared.bounds.Box4.{Box4};
ghost use Rattle.mf_rows.specs.Dots.{Dot, IsPicture, total_of, weight_at};
ghost use Rattle.mf_rows_edges.specs.Edges.{AreEdges, weight_in};
ghost use Rattle.mf_rows_strips.specs.declared.part.Part.{Part};
ghost use Rattle.mf_rows_strips.specs.declared.pile.Pile.{Pile};
ghost use Rattle.mf_rows_strips.specs.Parts.{strips_in, weight_in_part, weight_in_parts};
ghost use Rattle.mf_rows_strips.specs.PileWeights.{weight_in_pile};
ghost use Rattle.mf_rows_strips.specs.Strips.{row_in};
ghost use Rattle.mf_rows.specs.Order.{IsRun};
ghost use Rattle.mf_rows.specs.Runs.{dots_of, runs_of, AreMaximal, IsMaximalRun};
ghost use Rattle.mf_rows.specs.Weights.{picture_of, HaveSameWeights};

/// The dots of the runs of a picture, or of any list of dots, are these dots in their order. No run is followed by one that would
/// continue it: in the same row, from the column after its last, with the same weight.
#[tactic(auto, using(crate::proofs::RunsLemmas::maximal_runs))]
pub fn runs_are_maximal()
    ensures covered { (ds : List Dot) → flat_map dots_of (runs_of ds) ≡ ds }
    ensures maximal { (ds : List Dot) → AreMaximal (runs_of ds) }
{}

/// Each run of a picture has at least one pixel, all its pixels have its weight, which is not 0, and neither neighbour in
/// its row has that weight.
#[tactic(auto, using(crate::proofs::MaximalRuns::longest_runs))]
pub fn runs_are_as_long_as_can_be()
    ensures { (ds : List Dot) → IsPicture ds → All (IsMaximalRun ds) (runs_of ds) }
{}

/// The picture of given weights has them at each pixel of the field, and is a picture where they are lawful.
#[tactic(auto, using(crate::proofs::WeightsLemmas::given_weights))]
pub fn picture_has_its_weights()
    ensures weights { (f : ℤ → ℤ → ℤ) (x y : ℤ) → IsInField x y
        → weight_at (picture_of f) x y ≡ f x y }
    ensures lawful { (f : ℤ → ℤ → ℤ) → ((x y : ℤ) → IsInField x y → IsLawfulWeight (f x y))
        → IsPicture (picture_of f) }
{}

/// The weights of a picture are lawful, and 0 outside the field; its runs and its least box lie in the field.
pub fn pictures_lie_in_the_field()
    ensures outside { (ds : List Dot) (x y : ℤ) → IsPicture ds → (IsInField x y → ⊥)
        → weight_at ds x y ≡ pos 0 }
    ensures lawful { (ds : List Dot) (x y : ℤ) → IsPicture ds → IsLawfulWeight (weight_at ds x y) }
    ensures runs { (ds : List Dot) → IsPicture ds → All IsRun (runs_of ds) }
    ensures bounds { (ds : List Dot) (b : Box4) → IsPicture ds → IsLeastBox ds b →
        IsInField b.min_x b.min_y × IsInField b.max_x b.max_y }
{}

/// Under a stretch each column, or row, q comes from exactly one: the one that the stretch takes to a part of the axis
/// that has q.
pub fn one_source_under_a_stretch()
    ensures { (s : Stretch) (p q : ℤ) → IsStretch s →
        (source_of s q ≡ p) ↔ ((target_of s p ≤ℤ q) × ((q +ℤ pos 1) ≤ℤ target_of s (p +ℤ pos 1))) }
{}

/// Two pictures with the same weight at each pixel of the field are equal.
#[tactic(auto, using(crate::proofs::WeightsLemmas::same_pictures))]
pub fn same_weights_make_same_pictures()
    ensures { (ds es : List Dot) → IsPicture ds → IsPicture es → HaveSameWeights ds es → ds ≡ es }
{}

/// Rows of edges (mf.web, "edge structures") represent a picture. It has parts, and the weight of a pixel is the sum of its weights in
/// all of them. In a part it is the sum of the edges of the pixel's row at or to the left of its column. These are the edges of a row:
/// sorted by column, at most one a column, none of weight 0, and with a sum of 0. So pixels of rows without edges have weight 0.
#[tactic(auto, using(crate::proofs::PicturePiles::weights_of_edges))]
pub fn weight_is_the_sum_of_edges()
    ensures lawful { (p : Pile) → IsPicture (picture_of (weight_in_pile p)) }
    ensures parts { (p : Pile) (x y : ℤ)
        → weight_at (picture_of (weight_in_pile p)) x y ≡ weight_in_parts p.parts.items x y }
    ensures edges { (p : Part) (x y : ℤ)
        → weight_in_part p x y ≡ weight_in (row_in [] (strips_in p) y) x }
    ensures rows { (p : Part) (y : ℤ) → AreEdges (row_in [] (strips_in p) y) }
    ensures other_rows { (p : Pile) (x y : ℤ)
        → All (λ q. row_in [] (strips_in (arc_value q)) y ≡ []) p.parts.items
        → weight_at (picture_of (weight_in_pile p)) x y ≡ pos 0 }
{}

/// The total weight of a picture is the sum of its weights over all pixels of the field, since a pixel of weight 0 adds
/// nothing.
#[tactic(auto, using(crate::proofs::FieldTotals::field_totals))]
pub fn total_is_the_sum_over_the_field()
    ensures weights { (f : ℤ → ℤ → ℤ) → total_of (picture_of f) ≡ sum_over_field f }
    ensures picture { (ds : List Dot) → IsPicture ds → total_of ds ≡ sum_over_field (weight_at ds) }
{}
