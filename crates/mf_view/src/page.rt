//! The page of the plates that were written, `index.html`, which needs nothing but itself.
ghost use Rattle.std.specs.Io.KnownBytes.{Appends};
ghost use Rattle.std.specs.Prelude.{◌≡◌, ◌↔◌, ◌++◌, [], IfOk, IsTrue, List, OnOk, Some};
ghost use Rattle.mf_rows.specs.Dots.{Dot};
ghost use Rattle.mf_view_image.specs.Svg.{svg_text};

use crate::page_text::{HEAD, TAIL};
use mf_desk::Shipment;
use std::alloc::{AllocError, Global};
use std::io::{self, Write};

/// The page, as far as a run has come.
#[derive(Drop)]
pub(crate) struct Page {
    /// A section for each plate: a template with the SVG image.
    sections: Vec<u8>,
    /// The revision of the last picture that was published.
    revision: Option<u32>,
    /// The codes of the characters.
    codes: Vec<u8>,
}

impl Page {
    ghost use Rattle.mf_view.specs.Pages.{Gains, HasSections, Published, Section, Shipped, characters_with, page_of, template};

    /// A page without sections.
    pub(crate) fn new(alloc: Global) -> Page
        ensures { HasSections [] result }
    {
        Page {
            sections: Vec::new(alloc),
            revision: None,
            codes: Vec::new(alloc),
        }
    }

    /// Whether this is the revision of the last picture that was published.
    pub(crate) fn ends_with(&self, revision: u32) -> bool
        ensures { IsTrue result ↔ (self.now.revision ≡ Some revision) }
    {
        self.revision == Some(revision)
    }

    /// How many characters have this code.
    pub(crate) fn count(&self, code: u8) -> usize
        ensures { result ≡ characters_with code self.now }
    {
        self.codes
            .iter()
            .filter(|shipped| **shipped == code)
            .count()
    }

    /// Adds the section of a picture that was published, which has this revision and this SVG image.
    pub(crate) fn add_published(
        &mut self,
        alloc: Global,
        revision: u32,
        image: &[u8],
    ) -> Result<(), AllocError>
        ensures { OnOk result ((ds : List Dot) → image.now ≡ svg_text ds
            → Gains (Published revision ds) self.old self.new) }
    {
        let said = format!(in alloc; "revision=\"{revision}\"")?;
        self.push(said.as_str(), image)?;
        self.revision = Some(revision);
        Ok(())
    }

    /// Adds the section of a character that was shipped, which has this SVG image.
    pub(crate) fn add_shipped(
        &mut self,
        alloc: Global,
        shipment: Shipment,
        image: &[u8],
    ) -> Result<(), AllocError>
        ensures { OnOk result ((ds : List Dot) → image.now ≡ svg_text ds
            → Gains (Shipped shipment.code shipment.dx shipment.width ds) self.old self.new) }
    {
        let Shipment {
            source: _,
            code,
            dx,
            width,
        } = shipment;
        let said = format!(in alloc; "code=\"{code}\" data-dx=\"{dx}\" data-width=\"{width}\"")?;
        self.push(said.as_str(), image)?;
        self.codes.push(code)?;
        Ok(())
    }

    /// Adds a section, of which the page says this.
    fn push(&mut self, said: &str, image: &[u8]) -> Result<(), AllocError>
        ensures text { IfOk result (λ _.
            self.new.sections.items ≡ self.old.sections.items ++ template said.now image.now) }
        ensures revision { self.new.revision ≡ self.old.revision }
        ensures codes { self.new.codes ≡ self.old.codes }
    {
        let text = &mut self.sections;
        text.extend_from_slice(b"<template data-")?;
        text.extend_from_slice(said.as_bytes())?;
        text.extend_from_slice(b">\n")?;
        text.extend_from_slice(image)?;
        text.extend_from_slice(b"</template>\n")?;
        Ok(())
    }

    /// Writes the whole page.
    pub(crate) fn write_to<W: Write>(&self, out: &mut W) -> io::Result<()>
        ensures { OnOk result ((sections : List Section) → HasSections sections self.now
            → Appends (W.contents out.old) (W.contents out.new) (page_of sections)) }
    {
        out.write_all(HEAD.as_bytes())?;
        out.write_all(self.sections.as_slice())?;
        out.write_all(TAIL.as_bytes())?;
        out.flush()
    }
}
