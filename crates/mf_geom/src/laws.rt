//! Laws of the definitions. Each is the contract of a function that does nothing: the toolchain proves a statement only
//! where a function's contract names it.
ghost use Rattle.std.specs.Prelude.{◌≡◌, ◌↔◌, ℤ, pos, ◌*ℤ◌, List, length, Some, None};
ghost use Rattle.std.specs.Option.{option_or};
ghost use Rattle.std.specs.Int.{int_signum};
ghost use Rattle.mf_geom.specs.declared.point.Point.{Point};
ghost use Rattle.mf_geom.specs.Area.{shoelace_at, area};
ghost use Rattle.mf_geom.specs.declared.check.Check.TheVariants.{Off, On};
ghost use Rattle.mf_geom.specs.declared.cycle.CycleFault.{CycleFault};
ghost use Rattle.mf_geom.specs.Crossing.{crossing_at};
ghost use Rattle.mf_geom.specs.Faults.{form_fault, turning_fault};
ghost use Rattle.mf_geom.specs.Field.{IsInField, sum_over_field};
ghost use Rattle.mf_geom.specs.Lawful.{IsFault, IsRectilinearCycle, NeverReverses, PassesCheck};
ghost use Rattle.mf_geom.specs.Sum.{sum_below};
ghost use Rattle.mf_geom.specs.Turning.{turn_at, turning};
ghost use Rattle.mf_geom.specs.Winding.{quarter_at, winding, contour};

/// The winding numbers of a cycle, summed over all pixels of the field, are its signed area. What filling the cycle
/// adds, summed so, is the weight times the signed area, and under the turning check also times the sign of the turning
/// number.
pub fn total_is_area()
    ensures windings { (ps : List Point) → IsRectilinearCycle ps
        → sum_over_field (winding ps) ≡ area ps }
    ensures filled { (ps : List Point) (w : ℤ) → IsRectilinearCycle ps →
        sum_over_field (contour ps w On) ≡ (w *ℤ int_signum (turning ps)) *ℤ area ps }
    ensures unchecked { (ps : List Point) (w : ℤ) → IsRectilinearCycle ps →
        sum_over_field (contour ps w Off) ≡ w *ℤ area ps }
{}

/// A rectilinear cycle winds round no pixel outside the field, so filling it changes nothing there.
pub fn nothing_outside_the_field()
    ensures { (ps : List Point) (x y : ℤ) → IsRectilinearCycle ps → ¬ IsInField x y →
        winding ps x y ≡ pos 0 }
{}

/// Round every pixel a rectilinear cycle makes whole turns: its quarter turns add up to four times the winding number,
/// so the division loses nothing.
pub fn whole_turns()
    ensures { (ps : List Point) (x y : ℤ) → IsRectilinearCycle ps →
        sum_below (length ps) (quarter_at ps x y) ≡ pos 4 *ℤ winding ps x y }
{}

/// The turns of a rectilinear path that never turns straight back add up to four times its turning number, so the
/// division loses nothing.
#[tactic(auto, using(crate::proofs::Headings::turns_are_turning))]
pub fn whole_turn_of_a_path()
    ensures { (ps : List Point) → NeverReverses ps →
        sum_below (length ps) (turn_at ps) ≡ pos 4 *ℤ turning ps }
{}

/// The shoelace sum of a rectilinear cycle is twice its area, so the division loses nothing.
#[tactic(auto, using(crate::proofs::Areas::shoelace_is_area))]
pub fn area_is_whole()
    ensures { (ps : List Point) → IsRectilinearCycle ps →
        sum_below (length ps) (shoelace_at ps) ≡ pos 2 *ℤ area ps }
{}

/// A list of points either is a cycle that passes the turning check or has exactly one fault: the first that applies, at the
/// first place where it does. It is a cycle exactly where its form has no fault, and a cycle passes the turning check exactly
/// where that finds no fault.
pub fn one_fault()
    ensures refused { (ps : List Point) (fault : CycleFault)
        → IsFault ps fault ↔ option_or (form_fault ps) (turning_fault ps) ≡ Some fault }
    ensures formed { (ps : List Point) → IsRectilinearCycle ps ↔ form_fault ps ≡ None }
    ensures passes { (ps : List Point) → IsRectilinearCycle ps
        → PassesCheck ps ↔ turning_fault ps ≡ None }
{}

/// The winding number of a rectilinear cycle counts its crossings of the ray that leads left from the pixel's centre,
/// downwards less upwards (mf.web fills by the sides of the cycle in the same way).
pub fn winding_counts_crossings()
    ensures { (ps : List Point) (x y : ℤ) → IsRectilinearCycle ps →
        winding ps x y ≡ sum_below (length ps) (crossing_at ps x y) }
{}
