//! A session: what a script has made so far, and what is done with it.
use crate::refusal::{Refusal, refusal_line};
use crate::variables::Variables;
use mf_base::OutOfMemory;
use mf_geom::Check;
use mf_gf::{GfFault, GfFile};
use mf_live::{CloseFault, Closing, Desk, Ended, Writer};
use mf_rows::Picture;
use mf_text::{Command, Name, TextFault, read_command};
use std::alloc::Global;
use std::sync::Wait;

mod commands;

/// The state of a script that is being performed: the picture variables, the turning check, and the font file with the characters
/// that were shipped. It is not `Drop`, since ending it may mean waiting for looks: end it with `finish` or `discard`.
pub struct Session {
    pub(crate) variables: Variables,
    /// The turning check for the contours that are filled next.
    pub(crate) check: Check,
    pub(crate) file: GfFile,
}

/// What is handed back where an allocation fails while a session ends.
pub enum EndFault {
    /// The session, as it was.
    Kept(Session),
    /// The picture, whose end mark is set and not published, and the font file of what was shipped. No function returns this.
    Halfway(Closing, GfFile),
}

impl Session {
    ghost use Rattle.std.specs.Prelude.{◌≡◌, ◌⊎◌, ◌<◌, ◌≤◌, ◌↔◌, ℕ, Err, IfErr, IfOk, IsOk, List, Ok, OnErr};
    ghost use Rattle.mf_geom.specs.declared.check.Check.{Check};
    ghost use Rattle.mf_live.specs.Desks.{desk_identity, most_places, remaining_viewers};
    ghost use Rattle.mf_live.specs.Entries.{revision_at};
    ghost use Rattle.mf_text.specs.Lines.{Gives};
    ghost use Rattle.mf_text.specs.Registers.{HasNames, IsName};
    ghost use Rattle.mf_text.specs.declared.command.Command.TheVariants as commands;
    ghost use Rattle.mf_desk_session.specs.Answers.{Answers, AnswersRead, IsReading};
    ghost use Rattle.mf_desk_session.specs.Changes.{IsClearable};
    ghost use Rattle.mf_desk_session.specs.Endings.{HasEnded, IsHandedBack, IsKept};
    ghost use Rattle.mf_desk_session.specs.Pictures.{picture};
    ghost use Rattle.mf_desk_session.specs.Sessions.{HasAnswered, StandsFor, identity, limits};
    ghost use Rattle.mf_desk_session.specs.States.{State, least_bytes, limits_of, start};

    /// Opens a session in which nothing has happened, and the desk for viewers of its `currentpicture`, with at most `places` of
    /// them. The session accepts at most `max_ops` operations on `currentpicture`. Its font file has no comment and at most
    /// `max_bytes` bytes; more than 2,147,483,647 count as that. Requires at most 64 places. Refused with `FileTooLong` exactly
    /// where `max_bytes` is below 3, since the preamble alone has three bytes, and with `OutOfMemory` where an allocation fails.
    /// It takes `rt` because opening a live picture publishes once. It has nobody to wait for, since nobody looks yet.
    pub fn new<R: Wait>(
        rt: &R,
        alloc: Global,
        places: u32,
        max_ops: u32,
        max_bytes: u32,
    ) -> Result<(Session, Desk), GfFault>
        requires { places ≤ most_places }
        ensures start { IfOk result (λ made. StandsFor made.0 start) }
        ensures limits { IfOk result (λ made. limits made.0 ≡ limits_of max_ops max_bytes) }
        ensures identity { IfOk result (λ made. desk_identity made.1 ≡ identity made.0) }
        ensures places { IfOk result (λ made. remaining_viewers made.1 ≤ places) }
        ensures too_long { (max_bytes < least_bytes) ↔ (result ≡ Err GfFault.FileTooLong) }
        ensures fault { IfErr result (λ fault.
            (fault ≡ GfFault.FileTooLong) ⊎ (fault ≡ GfFault.OutOfMemory)) }
    {
        let file = GfFile::new(alloc, &[], max_bytes)?;
        let (variables, desk) = Variables::blank(rt, alloc, places, max_ops)?;
        let session = Session {
            variables,
            check: Check::On,
            file,
        };
        Ok((session, desk))
    }

    /// The picture with this name: for `currentpicture` that of all operations that it has accepted, published or not. Requires
    /// the number of a register to be at most 25.
    pub fn picture(&self, name: &Name) -> &Picture
        requires { IsName name.now }
        ensures { (s : State) → StandsFor self.now s → result.now ≡ picture s.pictures name.now }
    {
        self.variables.picture(name)
    }

    /// The revision of `currentpicture`: how many operations it has accepted, published or not. After a line that publishes, all
    /// of them are published.
    pub fn revision(&self) -> u32
        ensures { (s : State) → StandsFor self.now s → result ≡ revision_at s.pictures.accepted }
    {
        self.variables.revision()
    }

    /// Performs a line of a script, given without the line feed that ends it or a carriage return before that, and answers with
    /// what it prints. A refused line prints its refusal and changes nothing. `publish` may wait for looks that are held. Refused
    /// with `OutOfMemory` where an allocation fails: then nothing has changed, and the line can be performed again. That never
    /// happens to a line with no command, to one that sets the turning check, or to a clear that is accepted.
    // As a function of its own, it costs each line some thirty instructions more.
    #[inline(always)]
    #[tactic(auto, using(mf_text::proofs::Registers::names_given))]
    pub fn command<R: Wait>(
        &mut self,
        rt: &R,
        alloc: Global,
        line: &[u8],
    ) -> Result<Vec<u8>, OutOfMemory>
        ensures answer { IfOk result (λ text.
            (s : State) → StandsFor self.old s
            → HasAnswered self.new text.items (Answers (limits self.old) s line.now)) }
        ensures nothing { Gives line.now commands.Nothing → IsOk result }
        ensures turning { (check : Check) → Gives line.now (commands.Turning check) → IsOk result }
        ensures clears { (s : State) (name : Name) → StandsFor self.old s
            → Gives line.now (commands.Clear name)
            → IsClearable (limits self.old).max_ops s.pictures name → IsOk result }
        ensures unchanged { OnErr result
            ((s : State) → StandsFor self.old s → StandsFor self.new s) }
        ensures limits { limits self.new ≡ limits self.old }
        ensures identity { identity self.new ≡ identity self.old }
    {
        self.answer_to(rt, alloc, read_command(alloc, line))
    }

    /// Performs a line as `command` does, once `read_command` has read it: takes what that has answered, so that the caller may look
    /// at it first. A command or a refusal that no line has is performed or printed, too. Requires the number of a register to be at
    /// most 25, as it is in every line.
    #[inline(always)]
    pub fn answer_to<R: Wait>(
        &mut self,
        rt: &R,
        alloc: Global,
        read: Result<Command, TextFault>,
    ) -> Result<Vec<u8>, OutOfMemory>
        requires { IfOk read HasNames }
        ensures read { IfOk result (λ text.
            (s : State) → StandsFor self.old s
            → HasAnswered self.new text.items (AnswersRead (limits self.old) s read)) }
        ensures answer { IfOk result (λ text.
            (s : State) (line : List ℕ) → StandsFor self.old s → IsReading line read
            → HasAnswered self.new text.items (Answers (limits self.old) s line)) }
        ensures nothing { read ≡ Ok commands.Nothing → IsOk result }
        ensures turning { (check : Check) → read ≡ Ok (commands.Turning check) → IsOk result }
        ensures clears { (s : State) (name : Name) → StandsFor self.old s
            → read ≡ Ok (commands.Clear name)
            → IsClearable (limits self.old).max_ops s.pictures name → IsOk result }
        ensures unchanged { OnErr result
            ((s : State) → StandsFor self.old s → StandsFor self.new s) }
        ensures limits { limits self.new ≡ limits self.old }
        ensures identity { identity self.new ≡ identity self.old }
    {
        match read {
            Ok(command) => {
                self.settle(alloc, &command);
                self.perform(rt, alloc, command)
            }
            Err(TextFault::OutOfMemory) => Err(OutOfMemory),
            Err(fault) => refusal_line(alloc, Refusal::Line(fault)),
        }
    }

    /// Ends the script: sets the end mark of `currentpicture`, publishes everything that it has accepted, and hands out the font
    /// file of the shipped characters. It may wait for looks that are held. Where an allocation fails, the session comes back as
    /// it was (`Kept`).
    pub fn finish<R: Wait>(self, rt: &R) -> Result<(Ended, GfFile), EndFault>
        ensures ended { IfOk result (λ made.
            (s : State) → StandsFor self s → HasEnded self s made.0 made.1) }
        ensures handed_back { IfErr result (λ fault.
            (s : State) → StandsFor self s → IsHandedBack self s fault) }
        ensures kept { IfErr result IsKept }
    {
        let Session {
            variables,
            check,
            file,
        } = self;
        let Variables {
            writer,
            registers,
            null,
        } = variables;
        match writer.close(rt) {
            Ok(ended) => Ok((ended, file)),
            Err(CloseFault::Kept(writer)) => {
                let variables = Variables {
                    writer,
                    registers,
                    null,
                };
                Err(EndFault::Kept(Session {
                    variables,
                    check,
                    file,
                }))
            }
            Err(CloseFault::Halfway(closing)) => Err(EndFault::Halfway(closing, file)),
        }
    }

    /// Ends the session without an end mark. It may wait for looks that are held, and looks may be refused from then on. Nothing
    /// is left that a clause could be about.
    pub fn discard<R: Wait>(self, rt: &R) {
        self.into_writer().discard(rt);
    }

    /// The writer of its `currentpicture`, unchanged.
    fn into_writer(self) -> Writer
        ensures { result ≡ self.variables.writer }
    {
        let Session {
            variables,
            check: _,
            file: _,
        } = self;
        variables.into_writer()
    }
}

impl EndFault {
    /// Ends what was handed back. It may wait for looks that are held, and looks may be refused from then on. Nothing is left that
    /// a clause could be about.
    pub fn discard<R: Wait>(self, rt: &R) {
        match self {
            EndFault::Kept(session) => session.discard(rt),
            EndFault::Halfway(closing, _) => closing.discard(rt),
        }
    }
}
