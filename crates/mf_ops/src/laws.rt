//! Laws of the definitions. Each is the contract of a function that does nothing, or only calls another law, because the toolchain
//! proves a statement only where the contract of a function names it.
ghost use Rattle.std.specs.Prelude.{◌≡◌, ◌≢◌, ◌↔◌, ℤ, pos, negsuc, neg_ℤ, ◌*ℤ◌, ◌-ℤ◌, ◌≤ℤ◌, ◌+◌, List, [], ◌∷◌, ◌++◌, Some, None};
ghost use Rattle.std.specs.Int.{int_signum};
ghost use Rattle.std.specs.Int.RustNames.{unsigned_abs};
ghost use Rattle.mf_geom.specs.declared.check.Check.{Check};
ghost use Rattle.mf_geom.specs.declared.check.Check.TheVariants.{Off, On};
ghost use Rattle.mf_geom.specs.declared.cycle.CycleFault.{CycleFault};
ghost use Rattle.mf_geom.specs.declared.point.Point.{Point};
ghost use Rattle.mf_geom.specs.Area.{area};
ghost use Rattle.mf_geom.specs.Field.{IsInField};
ghost use Rattle.mf_geom.specs.Faults.{turning_fault};
ghost use Rattle.mf_geom.specs.Lawful.{IsRectilinearCycle};
ghost use Rattle.mf_geom.specs.Turning.{turning};
ghost use Rattle.mf_rows_edges.specs.LawfulWeights.{IsLawfulWeight};
ghost use Rattle.mf_rows.specs.declared.sign.Sign.{Sign};
ghost use Rattle.mf_rows.specs.declared.sign.Sign.TheVariants.{Minus};
ghost use Rattle.mf_rows.specs.Dots.{Dot, IsPicture, total_of, weight_at};
ghost use Rattle.mf_rows.specs.Moves.{turned_once};
ghost use Rattle.mf_rows.specs.Sums.{IsUnlawfulSomewhere};
ghost use Rattle.mf_ops.specs.Cull.{IsLawfulCull, culled_weight};
ghost use Rattle.mf_ops.specs.Moves.{Factors, AreFactors, scale_source};
ghost use Rattle.mf_ops.specs.Operations.{AreAccepted, picture_after, revision_after};
ghost use Rattle.mf_ops.specs.Squares.{Covers, MovesPixels};
ghost use Rattle.mf_ops.specs.Step.{step_at, next_picture, op_fault, StaysInField, TurnsLawfully, HasLawfulValues, LiesOutside};
ghost use Rattle.mf_ops.specs.declared.op.Op.{Op};
ghost use Rattle.mf_ops.specs.declared.cull.CullRule.TheVariants.{Keeping, Dropping};
ghost use Rattle.mf_ops.specs.declared.op.Op.TheVariants as ops;
ghost use Rattle.mf_ops.specs.declared.op.Op.TheVariants.{Contour, Also, Cull, Shift, Scale, Clear};
ghost use Rattle.mf_ops.specs.declared.op.OpFault.TheVariants as OpFault;
ghost use Rattle.mf_ops.specs.declared.op.OpFault.TheVariants.{OutOfField, WeightTooLarge};
ghost use Rattle.mf_ops.specs.declared.quarter.TurnCount.{TurnCount};

use mf_geom::laws::nothing_outside_the_field;

/// Take an operation that is not refused for its cycle and takes no pixel of the picture out of the field. It is refused exactly
/// where the weight of some pixel of the field would exceed 32767 in absolute value, with `WeightTooLarge`.
pub fn refused_where_too_large()
    ensures refused { (ds : List Dot) (op : Op) → TurnsLawfully op → StaysInField ds op
        → IsUnlawfulSomewhere (step_at ds op) → op_fault ds op ≡ Some WeightTooLarge }
    ensures accepted { (ds : List Dot) (op : Op) → op_fault ds op ≡ None →
        (x y : ℤ) → IsInField x y → IsLawfulWeight (step_at ds op x y) }
    ensures only { (ds : List Dot) (op : Op) → op_fault ds op ≡ Some WeightTooLarge →
        TurnsLawfully op × StaysInField ds op × IsUnlawfulSomewhere (step_at ds op) }
{}

/// A contour under the turning check is refused for its cycle exactly where the cycle turns straight back (with the first vertex
/// at which it does) or, failing that, where its turning number is 0, whatever its pixels are. No other operation is refused for
/// a cycle.
pub fn refused_where_it_turns_back()
    ensures checked { (ds : List Dot) (ps : List Point) (w : ℤ) (fault : CycleFault)
        → (op_fault ds (Contour ps w On) ≡ Some (OpFault.Cycle fault))
        ↔ turning_fault ps ≡ Some fault }
    ensures unchecked { (op : Op) → ((ps : List Point) (w : ℤ) → op ≢ Contour ps w On)
        → TurnsLawfully op }
    ensures lawful { (ds : List Dot) (op : Op) (fault : CycleFault) → TurnsLawfully op
        → op_fault ds op ≢ Some (OpFault.Cycle fault) }
{}

/// Any operation on a picture is refused with `OutOfField` exactly where it would give a nonzero weight to some pixel outside the
/// field. (Only a shift or a scale would: see `never_refused`.)
pub fn refused_where_a_pixel_leaves()
    ensures { (ds : List Dot) (op : Op) → IsPicture ds → HasLawfulValues op →
        (op_fault ds op ≡ Some OutOfField) ↔ LiesOutside (step_at ds op) }
{
    nothing_outside_the_field();
}

/// A clear, a turn of a picture, and a cull with a lawful weight are never refused. A shift or a scale of a picture is never
/// refused for its weights. A contour, or adding or subtracting a picture, is never refused because a pixel leaves the field.
pub fn never_refused()
    ensures clear { (ds : List Dot) → op_fault ds Clear ≡ None }
    ensures turn { (ds : List Dot) (q : TurnCount) → IsPicture ds
        → op_fault ds (ops.Quarter q) ≡ None }
    ensures keeping { (ds : List Dot) (a b w : ℤ) → IsLawfulWeight w
        → op_fault ds (Cull (Keeping a b w)) ≡ None }
    ensures dropping { (ds : List Dot) (a b w : ℤ) → IsLawfulWeight w
        → op_fault ds (Cull (Dropping a b w)) ≡ None }
    ensures shift { (ds : List Dot) (dx dy : ℤ) → IsPicture ds
        → op_fault ds (Shift dx dy) ≢ Some WeightTooLarge }
    ensures scale { (ds : List Dot) (s : Factors) → IsPicture ds
        → op_fault ds (Scale s) ≢ Some WeightTooLarge }
    ensures contour { (ds : List Dot) (ps : List Point) (w : ℤ) (check : Check)
        → op_fault ds (Contour ps w check) ≢ Some OutOfField }
    ensures also { (ds es : List Dot) (s : Sign) → op_fault ds (Also es s) ≢ Some OutOfField }
{}

/// A shift, a scale and a turn move the unit squares of the pixels with the plane. The square of each pixel is covered by the moved
/// square of exactly one, and it gets the weight of that one.
pub fn squares_move_with_the_plane()
    ensures covered { (op : Op) (q : Point) → MovesPixels op → (p : Point) × Covers op p q }
    ensures only { (op : Op) (p r q : Point) → MovesPixels op → Covers op p q → Covers op r q
        → p ≡ r }
    ensures weight { (ds : List Dot) (op : Op) (p q : Point) → MovesPixels op → Covers op p q
        → step_at ds op q.x q.y ≡ weight_at ds p.x p.y }
{}

/// Four turns by 90 degrees leave each weight in its place, and so do two reflections in the same line. A reflection is the scale by
/// the factor -1: column, or row, q comes from column, or row, -q - 1.
pub fn turns_and_reflections_return()
    ensures turns { (f : ℤ → ℤ → ℤ) (x y : ℤ)
        → turned_once (turned_once (turned_once (turned_once f))) x y ≡ f x y }
    ensures reflections { (q : ℤ) → scale_source (negsuc 0) (scale_source (negsuc 0) q) ≡ q }
    ensures reflection { (q : ℤ) → scale_source (negsuc 0) q ≡ neg_ℤ q -ℤ pos 1 }
{}

/// A shift, a turn and a reflection keep the total weight. A scale multiplies it by the absolute value of the product of its
/// factors. For shifts and scales this holds where they are not refused.
pub fn totals_after_moves()
    ensures shift { (ds : List Dot) (dx dy : ℤ) → IsPicture ds → op_fault ds (Shift dx dy) ≡ None →
        total_of (next_picture ds (Shift dx dy)) ≡ total_of ds }
    ensures turn { (ds : List Dot) (q : TurnCount) → IsPicture ds →
        total_of (next_picture ds (ops.Quarter q)) ≡ total_of ds }
    ensures scale { (ds : List Dot) (s : Factors) → IsPicture ds → AreFactors s
        → op_fault ds (Scale s) ≡ None
        → total_of (next_picture ds (Scale s)) ≡ pos (unsigned_abs (s.x *ℤ s.y)) *ℤ total_of ds }
{}

/// The total weight of a blank picture after a contour is filled in is the contour's weight times its signed area. Under the
/// turning check it is also multiplied by the sign of the turning number.
pub fn total_of_a_contour()
    ensures checked { (ps : List Point) (w : ℤ) → IsRectilinearCycle ps →
        total_of (next_picture [] (Contour ps w On)) ≡ (w *ℤ int_signum (turning ps)) *ℤ area ps }
    ensures unchecked { (ps : List Point) (w : ℤ) → IsRectilinearCycle ps →
        total_of (next_picture [] (Contour ps w Off)) ≡ w *ℤ area ps }
{}

/// The picture after an operation has exactly the weights of its step at each pixel of the field. It is a lawful picture where
/// the operation is not refused.
pub fn step_has_its_weights()
    ensures weights { (ds : List Dot) (op : Op) (x y : ℤ) → IsInField x y
        → weight_at (next_picture ds op) x y ≡ step_at ds op x y }
    ensures lawful { (ds : List Dot) (op : Op) → op_fault ds op ≡ None
        → IsPicture (next_picture ds op) }
{}

/// The lawful culls are exactly those of a range of weights, from a least to a greatest, that leave pixels of weight 0 at 0 (The
/// METAFONTbook, chapter 13), whatever nonzero weight they give to the others.
pub fn lawful_culls_keep_zero()
    ensures keeping { (a b w : ℤ) → w ≢ pos 0
        → IsLawfulCull (Keeping a b w)
        ↔ ((a ≤ℤ b) × (culled_weight (Keeping a b w) (pos 0) ≡ pos 0)) }
    ensures dropping { (a b w : ℤ) → w ≢ pos 0
        → IsLawfulCull (Dropping a b w)
        ↔ ((a ≤ℤ b) × (culled_weight (Dropping a b w) (pos 0) ≡ pos 0)) }
{}

/// A picture subtracted from itself leaves the blank picture.
pub fn subtracted_from_itself()
    ensures { (ds : List Dot) → next_picture ds (Also ds Minus) ≡ [] }
{}

/// The picture of no operations is blank, and the picture of one more operation is the step from the picture before it. It is a
/// lawful picture where none of the operations is refused. The revision number counts the operations.
pub fn picture_of_operations()
    ensures none { picture_after [] ≡ [] }
    ensures more { (ops : List Op) (op : Op)
        → picture_after (ops ++ op ∷ []) ≡ next_picture (picture_after ops) op }
    ensures lawful { (ops : List Op) → AreAccepted ops → IsPicture (picture_after ops) }
    ensures first_revision { revision_after [] ≡ 0 }
    ensures next_revision { (ops : List Op) (op : Op)
        → revision_after (ops ++ op ∷ []) ≡ revision_after ops + 1 }
{}

/// The list of no operations is accepted. Any other is accepted exactly where all but the last are accepted, and the last one is not
/// refused on the picture that they make.
pub fn accepted_one_by_one()
    ensures none { AreAccepted [] }
    ensures more { (ops : List Op) (op : Op)
        → AreAccepted (ops ++ op ∷ [])
        ↔ (AreAccepted ops × (op_fault (picture_after ops) op ≡ None)) }
{}
