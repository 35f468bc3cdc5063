//! How locators are kept and spelled.
ghost use Rattle.std.specs.Prelude.{◌≡◌, ◌++◌, ◌∷◌, [], IfOk, List, None, ℕ, slice_index_or};
ghost use Rattle.mf_gf.specs.Files.{Shipment, last_place, locator_if, locator_of};
ghost use Rattle.mf_gf.specs.Keeping.{HasLastLocators, table_text};
ghost use Rattle.mf_gf.specs.Spellings.{Holds};

use super::{CODES, Locators};
use crate::locator::Locator;
use crate::spelling::Spelling;
use mf_base::OutOfMemory;
use std::alloc::Global;

impl Locators {
    /// A table without locators, for a file in which no character was shipped.
    pub(crate) fn new(alloc: Global) -> Result<Locators, OutOfMemory>
        ensures { IfOk result (λ none. HasLastLocators none []) }
    {
        Ok(Locators {
            by_code: Vec::from_slice(alloc, &[None; CODES])?,
        })
    }

    /// The locator of a code, if a character of it was shipped.
    fn last(&self, code: u8) -> Option<Locator>
        ensures { result ≡ slice_index_or self.now.by_code.items code None }
    {
        self.by_code[usize::from(code)]
    }

    /// The place of the last character with a code, if there is one.
    pub(crate) fn last_place(&self, code: u8) -> Option<u32>
        ensures { (shipped : List Shipment) → HasLastLocators self.now shipped
            → result ≡ last_place code shipped }
    {
        self.last(code).map(|locator| locator.place)
    }

    /// Makes this the locator of its code.
    #[tactic(auto, unfolding(crate::specs::Files::last_shipment))]
    pub(crate) fn set(&mut self, locator: Locator)
        ensures { (s : Shipment) (shipped : List Shipment) → locator_of s ≡ locator
            → HasLastLocators self.old shipped → HasLastLocators self.new (s ∷ shipped) }
    {
        self.by_code[usize::from(locator.code)] = Some(locator);
    }

    /// Spells all locators, codes rising.
    #[tactic(auto, using(crate::proofs::LocatorTexts::holds_next_code, crate::proofs::LocatorTexts::holds_no_code))]
    pub(crate) fn spell(&self, out: &mut Spelling)
        ensures held { (text : List ℕ) → Holds out.old text
            → Holds out.new (text ++ table_text self.now) }
        ensures room { out.new.room ≡ out.old.room }
    {
        for last in &self.by_code {
            spell_if(out, *last);
        }
    }
}

/// Spells a locator, if there is one.
fn spell_if(out: &mut Spelling, locator: Option<Locator>)
    ensures held { (text : List ℕ) → Holds out.old text
        → Holds out.new (text ++ locator_if locator) }
    ensures room { out.new.room ≡ out.old.room }
{
    if let Some(locator) = locator {
        locator.spell(out);
    }
}
