//! Culls: each pixel gets a new weight that depends on whether its old one lies in a given range.
ghost use Rattle.std.specs.Prelude.{◌≡◌, ◌↔◌, ℤ, IsOk, IfOk};
ghost use Rattle.mf_rows_edges.specs.WeightMaps.{IsWeightMap, mapped_weight};
ghost use Rattle.mf_ops.specs.Cull.{IsLawfulCull, culled_weight};
ghost use Rattle.mf_ops.specs.declared.cull.CullRule.TheVariants.{Keeping, Dropping};

use crate::weight::Weight;
use mf_rows_edges::WeightMap;
use std::error::Error;
use std::fmt;
use std::marker::Model;

/// The range of a cull is refused: its least weight is above its greatest, or it is to be kept and contains 0, or it is to be
/// dropped and does not contain 0. METAFONT refuses such ranges with "Bad culling amounts".
#[derive(Clone, Copy, Debug, PartialEq, Eq)]
pub struct BadCull;

impl fmt::Display for BadCull {
    ghost use Rattle.std.specs.Prelude.{Some};
    ghost use Rattle.mf_ops.specs.Names.{bad_cull_text};

    ghost output = { λ _. Some bad_cull_text };

    fn fmt<W: fmt::Write>(&self, f: &mut fmt::Formatter<W>) -> fmt::Result {
        f.write_str("BadCull")
    }
}

impl Error for BadCull {}

/// What a cull makes of a weight. The two numbers are the least and the greatest weight of its range, both inclusive.
#[derive(Clone, Copy, Debug, PartialEq, Eq)]
pub(crate) enum CullRule {
    /// Weights in the range become this weight, and all others become 0.
    Keeping(i32, i32, Weight),
    /// Weights in the range become 0, and all others become this weight.
    Dropping(i32, i32, Weight),
}

/// A cull: METAFONT's `cull p keeping (a, b) withweight w` or `cull p dropping (a, b) withweight w` (The METAFONTbook, chapter
/// 13). Pixels of weight 0 keep weight 0.
#[derive(Clone, Copy, Debug, PartialEq, Eq)]
pub struct Cull {
    rule: CullRule,
}

impl Model for Cull {
    ghost use Rattle.mf_ops.specs.Cull.{IsLawfulCull};
    ghost use Rattle.mf_ops.specs.declared.cull.CullRule.{CullRule};

    ghost Value = { CullRule };

    ghost view = { λ c. c.rule };

    ghost invariant = { λ c. IsLawfulCull c.rule };

    ghost inverse = { λ r. record { rule = r } };
}

impl Cull {
    /// The cull that keeps the weights in `low..=high`: these become `weight`, and all others become 0. Refused with `BadCull`
    /// where `low` is greater than `high`, and where the range contains 0.
    pub fn keeping(low: i32, high: i32, weight: Weight) -> Result<Cull, BadCull>
        ensures accepted { IsOk result ↔ IsLawfulCull (Keeping low high weight) }
        ensures value { IfOk result (λ cull. cull ≡ Keeping low high weight) }
    {
        if low > high || (low <= 0 && 0 <= high) {
            return Err(BadCull);
        }
        Ok(Cull {
            rule: CullRule::Keeping(low, high, weight),
        })
    }

    /// The cull that drops the weights in `low..=high`: these become 0, and all others become `weight`. Refused with `BadCull`
    /// where the range does not contain 0; a range with `low` greater than `high` never does.
    pub fn dropping(low: i32, high: i32, weight: Weight) -> Result<Cull, BadCull>
        ensures accepted { IsOk result ↔ IsLawfulCull (Dropping low high weight) }
        ensures value { IfOk result (λ cull. cull ≡ Dropping low high weight) }
    {
        if low > 0 || 0 > high {
            return Err(BadCull);
        }
        Ok(Cull {
            rule: CullRule::Dropping(low, high, weight),
        })
    }

    /// The map from old to new weights that this cull applies to each pixel.
    #[tactic(auto, unfolding(mf_rows_edges::specs::WeightMaps::mapped_weight))]
    pub(crate) fn weight_map(&self) -> WeightMap
        ensures lawful { IsWeightMap result }
        ensures value { (v : ℤ) → mapped_weight result v ≡ culled_weight self.now v }
    {
        match self.rule {
            CullRule::Keeping(low, high, weight) => WeightMap {
                low,
                high,
                inside: weight.get(),
                outside: 0,
            },
            CullRule::Dropping(low, high, weight) => WeightMap {
                low,
                high,
                inside: 0,
                outside: weight.get(),
            },
        }
    }
}
