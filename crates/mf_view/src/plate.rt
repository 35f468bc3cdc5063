//! Plates: the image files of a picture.
ghost use Rattle.std.specs.Io.KnownBytes.{Appends};
ghost use Rattle.std.specs.Prelude.{◌≡◌, ℕ, Err, IfOk, IsOkAnd, OnOk, codes, string_bytes};
ghost use Rattle.mf_view_image.specs.Boxes.{IsTooLargeForImage};
ghost use Rattle.mf_view_image.specs.Pgm.{pgm_bytes};
ghost use Rattle.mf_view.specs.Plates.{IsIfAsked, IsImageFile, IsPlate, character_name, path_of, seven_digits};

use crate::fault::ProgramFault;
use mf_desk::RunFault;
use mf_rows::Picture;
use mf_view_image::{ImageFault, pgm, svg};
use std::alloc::{AllocError, Global};
use std::fs;
use std::io::{self, Write};
use std::rt::Files;

/// Where the plates of a script go, and whether each has a PGM image, too.
#[derive(Drop)]
pub struct PlateFolder {
    /// The folder, which is not created.
    pub path: String,
    /// Whether each plate has a PGM image, too.
    pub pgm: bool,
}

/// An image file that is to be written.
#[derive(Drop)]
pub(crate) struct ImageFile {
    /// Its path: the folder, the name of the plate, and `.svg` or `.pgm`.
    path: String,
    /// Its bytes.
    bytes: Vec<u8>,
}

/// The plate of a picture: its SVG image, and its PGM image where one is asked for.
#[derive(Drop)]
pub(crate) struct Plate {
    svg: ImageFile,
    pgm: Option<ImageFile>,
}

impl PlateFolder {
    /// The plate of this picture, whose files have this name. Refused with `ImageTooLarge` and this revision only where the picture is
    /// too large for an image, and with `OutOfMemory` where an allocation fails.
    #[tactic(auto, using(crate::proofs::Images::file_of_bytes))]
    pub(crate) fn plate(
        &self,
        alloc: Global,
        revision: u32,
        name: &str,
        picture: &Picture,
    ) -> Result<Plate, ProgramFault>
        ensures made { IfOk result (IsPlate self.now name.now picture.now) }
        ensures too_large { (number : ℕ) → result ≡ Err (ProgramFault.ImageTooLarge number)
            → (number ≡ revision) × IsTooLargeForImage picture.now }
    {
        let svg = self.file(alloc, revision, name, "svg", svg(alloc, picture))?;
        let pgm = self.pgm_if_asked(alloc, revision, name, picture)?;
        Ok(Plate { svg, pgm })
    }

    /// The PGM image of this picture, if PGM images are asked for.
    fn pgm_if_asked(
        &self,
        alloc: Global,
        revision: u32,
        name: &str,
        picture: &Picture,
    ) -> Result<Option<ImageFile>, ProgramFault>
        ensures made { IfOk result
            (IsIfAsked self.now.pgm
            (IsImageFile self.now name.now (codes "pgm") (pgm_bytes picture.now))) }
        ensures too_large { (number : ℕ) → result ≡ Err (ProgramFault.ImageTooLarge number)
            → (number ≡ revision) × IsTooLargeForImage picture.now }
    {
        if !self.pgm {
            return Ok(None);
        }
        let file = self.file(alloc, revision, name, "pgm", pgm(alloc, picture))?;
        Ok(Some(file))
    }

    /// The image file with this name, this extension and these bytes, if they could be made.
    fn file(
        &self,
        alloc: Global,
        revision: u32,
        name: &str,
        extension: &str,
        made: Result<Vec<u8>, ImageFault>,
    ) -> Result<ImageFile, ProgramFault>
        ensures made { IfOk result (λ file.
            IsOkAnd made (λ bytes. IsImageFile self.now name.now extension.now bytes.items file)) }
        ensures too_large { (number : ℕ) → result ≡ Err (ProgramFault.ImageTooLarge number)
            → (number ≡ revision) × (made ≡ Err ImageFault.ImageTooLarge) }
    {
        match made {
            Ok(bytes) => Ok(ImageFile {
                path: self.path_of(alloc, name, extension)?,
                bytes,
            }),
            Err(ImageFault::ImageTooLarge) => Err(ProgramFault::ImageTooLarge(revision)),
            Err(ImageFault::OutOfMemory) => Err(RunFault::OutOfMemory.into()),
        }
    }

    /// The path of the file in the folder with this name and this extension.
    #[tactic(auto, using(crate::proofs::Images::parts_of_path))]
    pub(crate) fn path_of(
        &self,
        alloc: Global,
        name: &str,
        extension: &str,
    ) -> Result<String, AllocError>
        ensures { IfOk result (λ path.
            string_bytes path ≡ path_of (string_bytes self.now.path) name.now extension.now) }
    {
        let folder = self.path.as_str();
        format!(in alloc; "{folder}/{name}.{extension}")
    }
}

/// A number in seven digits, zeros in front, so that the files of a folder are listed in order.
#[tactic(auto, using(crate::proofs::Images::padded_to_seven_digits))]
pub(crate) fn seven_digits(alloc: Global, number: u32) -> Result<String, AllocError>
    ensures { IfOk result (λ digits. string_bytes digits ≡ seven_digits number) }
{
    format!(in alloc; "{number:07}")
}

/// The name of the files of a character, before which so many with its code were shipped: `character-65`, `character-65-2`.
pub(crate) fn character_name(alloc: Global, code: u8, before: usize) -> Result<String, AllocError>
    ensures { IfOk result (λ name. string_bytes name ≡ character_name code before) }
{
    if before == 0 {
        return format!(in alloc; "character-{code}");
    }
    let number = before as u128 + 1;
    format!(in alloc; "character-{code}-{number}")
}

impl Plate {
    /// The bytes of the SVG image.
    pub(crate) fn image(&self) -> &[u8]
        ensures { result.now ≡ self.now.svg.bytes.items }
    {
        self.svg.bytes.as_slice()
    }

    /// Writes the image files, and replaces what was there. Refused where a file cannot be created or written; files that
    /// were written by then stay.
    pub(crate) fn write<S: Files>(&self, rt: &S) -> io::Result<()> {
        self.svg.write(rt)?;
        match &self.pgm {
            Some(file) => file.write(rt),
            None => Ok(()),
        }
    }
}

impl ImageFile {
    /// Writes the image file, and replaces what was there. Refused where it cannot be created or written.
    fn write<S: Files>(&self, rt: &S) -> io::Result<()> {
        let mut out = fs::create(rt, self.path.as_str())?;
        self.write_to(&mut out)
    }

    /// Writes the bytes of the image.
    fn write_to<W: Write>(&self, out: &mut W) -> io::Result<()>
        ensures { OnOk result
            (Appends (W.contents out.old) (W.contents out.new) self.now.bytes.items) }
    {
        out.write_all(self.bytes.as_slice())?;
        out.flush()
    }
}
