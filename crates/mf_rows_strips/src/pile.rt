//! Piles of parts.
ghost use Rattle.mf_rows_strips.specs.Piles.{ArePiled, ArePiled-prop};

use crate::part::Part;
use std::sync::Arc;

mod joining;
mod reading;

/// The most parts that a pile has.
pub const MAX_PARTS: usize = 32;

/// Parts, whose weights are added up. What is added is a part of its own at first, and is joined with those before it when they are not
/// much larger, so that there are few parts, and adding one costs what it has, and not what it touches.
#[derive(Debug, Drop)]
pub struct Pile {
    /// The oldest and largest one first.
    pub(crate) parts: Vec<Arc<Part>>,
    /// No weight exceeds it in absolute value. The reaches of the parts together are at most this, too, which the invariant does not say.
    reach: i32,
    ghost lawful: { ArePiled parts.items reach } by { ArePiled-prop parts.items reach },
}
