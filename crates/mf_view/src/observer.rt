//! The observer of a performance: the plates of what is published and of what is shipped, and the pace.
ghost use Rattle.std.specs.Prelude.{◌≡◌, IfOk, IfSome, OnOk};
ghost use Rattle.mf_desk.specs.declared.observer.Effect.TheVariants.{Shipped};
ghost use Rattle.mf_desk.specs.declared.observer.Shipment.{Shipment};
ghost use Rattle.mf_desk_session.specs.Pictures.{source_picture};
ghost use Rattle.mf_desk_session.specs.Sessions.{StandsFor};
ghost use Rattle.mf_desk_session.specs.States.{State};
ghost use Rattle.mf_live.specs.Entries.{picture_at, revision_at};
ghost use Rattle.mf_text.specs.Registers.{IsSource};
ghost use Rattle.mf_view.specs.Pages.{Gains, GainsOnce, Notes, next_name, shipped_section};
ghost use Rattle.mf_view.specs.Plates.{IsPlate, seven_digits};

use crate::fault::ProgramFault;
use crate::pace::Pace;
use crate::page::Page;
use crate::plate::{Plate, PlateFolder, character_name, seven_digits};
use mf_desk::{Effect, Observer, PerformedLine, Session, Shipment};
use mf_rows::Picture;
use mf_text::{Name, Source};
use std::alloc::Global;
use std::rt::Files;
use std::{fs, io};

/// Where plates are asked for, writes those of each publish and of each shipped character, and lets the pace know of a publish. Plates
/// are written on this side, since a viewer may miss revisions, and between two lines, while the pictures are what they were.
#[derive(Drop)]
pub(crate) struct PlateWriter<'a, S, P> {
    pub rt: &'a S,
    pub alloc: Global,
    pub folder: &'a Option<PlateFolder>,
    pub page: Page,
    pub pace: &'a P,
}

impl<S: Files, P: Pace> Observer for PlateWriter<'_, S, P> {
    type Fault = ProgramFault;

    /// Where plates are asked for, the page gains the section of what the line has published or shipped.
    fn note_line(&mut self, line: PerformedLine, session: &Session) -> Result<(), ProgramFault>
        requires { (shipment : Shipment) → line.effect ≡ Shipped shipment
            → IsSource shipment.source }
        ensures noted { OnOk result (IfSome self.old.folder.now (λ _.
            (s : State) → StandsFor session.now s
            → Notes line.effect s.pictures self.old.page self.new.page)) }
    {
        if let Some(folder) = self.folder {
            note(
                self.rt,
                self.alloc,
                folder,
                &mut self.page,
                session,
                line.effect,
            )?;
        }
        if line.effect == Effect::Published {
            self.pace.note_publish(session.revision());
        }
        Ok(())
    }
}

/// Writes the plate of the last picture, if plates are asked for and it was not written, and then the page. Refused with `PlateFault`
/// where a file cannot be created or written.
pub(crate) fn write_last<S: Files>(
    rt: &S,
    alloc: Global,
    folder: &Option<PlateFolder>,
    page: Page,
    session: &Session,
) -> Result<(), ProgramFault> {
    let Some(folder) = folder else {
        return Ok(());
    };
    let mut page = page;
    note_published(rt, alloc, folder, &mut page, session)?;
    let path = folder.path_of(alloc, "index", "html")?;
    written(write_page(rt, path.as_str(), &page), session)
}

/// Writes a page, and replaces what was there.
fn write_page<S: Files>(rt: &S, path: &str, page: &Page) -> io::Result<()> {
    let mut out = fs::create(rt, path)?;
    page.write_to(&mut out)
}

/// Writes the plate of what a line has published or shipped, if it has, and adds it to the page.
fn note<S: Files>(
    rt: &S,
    alloc: Global,
    folder: &PlateFolder,
    page: &mut Page,
    session: &Session,
    effect: Effect,
) -> Result<(), ProgramFault>
    requires { (shipment : Shipment) → effect ≡ Shipped shipment → IsSource shipment.source }
    ensures { OnOk result ((s : State) → StandsFor session.now s
        → Notes effect s.pictures page.old page.new) }
{
    match effect {
        Effect::Published => note_published(rt, alloc, folder, page, session),
        Effect::Shipped(shipment) => note_shipped(rt, alloc, folder, page, session, shipment),
        Effect::Refused | Effect::Other => Ok(()),
    }
}

/// Writes the plate of everything that `currentpicture` has accepted, and adds it to the page, unless the page ends with that revision.
fn note_published<S: Files>(
    rt: &S,
    alloc: Global,
    folder: &PlateFolder,
    page: &mut Page,
    session: &Session,
) -> Result<(), ProgramFault>
    ensures { OnOk result ((s : State) → StandsFor session.now s
        → GainsOnce s.pictures.accepted page.old page.new) }
{
    let revision = session.revision();
    if page.ends_with(revision) {
        return Ok(());
    }
    let plate = published_plate(alloc, folder, session)?;
    written(plate.write(rt), session)?;
    Ok(page.add_published(alloc, revision, plate.image())?)
}

/// Writes the plate of a character, and adds it to the page.
fn note_shipped<S: Files>(
    rt: &S,
    alloc: Global,
    folder: &PlateFolder,
    page: &mut Page,
    session: &Session,
    shipment: Shipment,
) -> Result<(), ProgramFault>
    requires { IsSource shipment.source }
    ensures { OnOk result ((s : State) → StandsFor session.now s
        → Gains (shipped_section s.pictures shipment) page.old page.new) }
{
    let plate = shipped_plate(alloc, folder, page, session, shipment)?;
    written(plate.write(rt), session)?;
    Ok(page.add_shipped(alloc, shipment, plate.image())?)
}

/// Refuses what could not be written with `PlateFault` and the revision.
fn written(outcome: io::Result<()>, session: &Session) -> Result<(), ProgramFault> {
    match outcome {
        Ok(()) => Ok(()),
        Err(_) => Err(ProgramFault::PlateFault(session.revision())),
    }
}

/// The plate of everything that `currentpicture` has accepted.
#[tactic(auto, using(crate::proofs::Images::same_plate))]
fn published_plate(
    alloc: Global,
    folder: &PlateFolder,
    session: &Session,
) -> Result<Plate, ProgramFault>
    ensures { IfOk result (λ made.
        (s : State) → StandsFor session.now s
        → IsPlate folder.now (seven_digits (revision_at s.pictures.accepted))
        (picture_at s.pictures.accepted) made) }
{
    let revision = session.revision();
    let name = seven_digits(alloc, revision)?;
    folder.plate(
        alloc,
        revision,
        name.as_str(),
        session.picture(&Name::Current),
    )
}

/// The plate of a character, which is not on the page yet.
fn shipped_plate(
    alloc: Global,
    folder: &PlateFolder,
    page: &Page,
    session: &Session,
    shipment: Shipment,
) -> Result<Plate, ProgramFault>
    requires { IsSource shipment.source }
    ensures { IfOk result (λ made.
        (s : State) → StandsFor session.now s
        → IsPlate folder.now (next_name shipment.code page.now)
        (source_picture s.pictures shipment.source) made) }
{
    let name = character_name(alloc, shipment.code, page.count(shipment.code))?;
    let revision = session.revision();
    match shipment.source {
        Source::Null => folder.plate(alloc, revision, name.as_str(), &Picture::blank(alloc)),
        Source::Named(source) => folder.plate(
            alloc,
            revision,
            name.as_str(),
            session.picture(&source),
        ),
    }
}
