//! The turning check.

/// METAFONT's `turningcheck` (The METAFONTbook, chapter 25; mf.web, "turning number"): whether a cycle must turn
/// lawfully to be filled. METAFONT's is a number: a value above 0 is `On` here, and any other is `Off`.
#[derive(Clone, Copy, Debug, PartialEq, Eq)]
pub enum Check {
    /// Every cycle is filled as it winds, with the weight that it is given.
    Off,
    /// A cycle that turns straight back, or whose turning number is 0, is refused. A cycle that turns clockwise is
    /// filled with its weight negated.
    On,
}
