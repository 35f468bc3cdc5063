//! What is read off a pile.
ghost use Rattle.std.specs.Prelude.{◌≡◌, ◌↔◌, [], IsTrue};
ghost use Rattle.mf_rows_strips.specs.PileWeights.{weight_in_pile};

use super::Pile;

impl Pile {
    /// Whether it has no parts. Weights of parts may cancel, so a pile with parts may be blank, too.
    pub fn is_empty(&self) -> bool
        ensures { IsTrue result ↔ (self.now.parts.items ≡ []) }
    {
        self.parts.is_empty()
    }

    /// The weight of the pixel (x, y), 0 outside the field.
    pub fn weight(&self, x: i32, y: i32) -> i32
        ensures { result ≡ weight_in_pile self.now x y }
    {
        // Sums of some of the weights may wrap, but that of all does not.
        let mut weight = 0i32;
        for part in &self.parts {
            weight = weight.wrapping_add(part.weight(x, y));
        }
        weight
    }
}
