//! Lines, with a function for each form that they may have.
ghost use Rattle.std.specs.Prelude.{IfOk, IfErr};
ghost use Rattle.mf_text.specs.Rests as rests;
ghost use Rattle.mf_text.specs.Lines.{Gives, IsRefused};
ghost use Rattle.mf_text.specs.Grammar.{Nothing, AddContour, AddPicture, CullKeeping, CullDropping, Clear, Move};
ghost use Rattle.mf_text.specs.Grammar.{ShowTotal, ShowProof, PublishAll, Rotated, Scaled, Shifted, XScaled, YScaled};
ghost use Rattle.mf_text.specs.Reads.{AnswersLine, ahead};
ghost use Rattle.mf_text.specs.Rests.{from};

use crate::command::{Command, Name};
use crate::fault::TextFault;
use crate::text::is_text;
use crate::token::{Mark, Word};
use crate::tokens::Tokens;
use crate::value::{
    check, contour_command, drop_command, keep_command, scale_command, turn_command,
};
use mf_rows::Sign;
use std::alloc::Global;

/// The greatest number of bytes of a line.
const MAX_LINE: usize = 65536;

/// The command of a line, which is given without the line feed that ends it or a carriage return before that. Refused with the
/// first of these that applies: `LineTooLong` for more than 65,536 bytes, `NotAscii`, `Syntax` with a column in bytes from 1,
/// and then the refusals of the line's values. These are, for a contour, `Cycle` with `TooFewPoints`, `TooManyPoints`,
/// `PointOutOfRange` or `NotRectilinear`, and then `BadWeight`; for a cull `BadWeight`, and then `BadCull`; for a scale
/// `BadScale`; for a turn `BadTurn`. Where an allocation fails, `OutOfMemory` may come instead of the command of a contour, or of
/// the refusal of its values, unless that is `TooManyPoints`; no other line is refused with it. A cycle that fails the turning
/// check is refused only when it is filled.
pub fn read_command(alloc: Global, line: &[u8]) -> Result<Command, TextFault>
    ensures given { IfOk result (Gives line.now) }
    ensures refused { IfErr result (IsRefused line.now) }
{
    if line.len() > MAX_LINE {
        return Err(TextFault::LineTooLong);
    }
    if !is_text(line) {
        return Err(TextFault::NotAscii);
    }
    command_of_line(alloc, Tokens::new(line))
}

/// The command of a line. Asks for the seven words that a command may begin with, one after another, and then for a name.
#[tactic(auto, using(crate::proofs::LineAnswers::nothing))]
fn command_of_line(alloc: Global, tokens: Tokens<'_>) -> Result<Command, TextFault>
    ensures { AnswersLine (from rests.line (ahead tokens.entry)) result }
{
    let mut tokens = tokens;
    if tokens.is_ended() {
        return Ok(Command::Nothing);
    }
    if tokens.takes_word(Word::Addto) {
        return addto(alloc, &mut tokens);
    }
    if tokens.takes_word(Word::Cull) {
        return cull(&mut tokens);
    }
    if tokens.takes_word(Word::Show) {
        return show(&mut tokens);
    }
    if tokens.takes_word(Word::Proof) {
        return proof(&mut tokens);
    }
    if tokens.takes_word(Word::Shipout) {
        return shipout(&mut tokens);
    }
    if tokens.takes_word(Word::TurningCheck) {
        return turning_check(&mut tokens);
    }
    if tokens.takes_word(Word::Publish) {
        return publish(&mut tokens);
    }
    match tokens.takes_name() {
        Some(name) => assignment(&mut tokens, name),
        None => nothing(&mut tokens),
    }
}

/// The line without a command: `;`, or nothing.
fn nothing(tokens: &mut Tokens<'_>) -> Result<Command, TextFault>
    ensures { AnswersLine (from (rests.line_end Nothing) (ahead tokens.old)) result }
{
    tokens.pass_line_end()?;
    Ok(Command::Nothing)
}

/// The line after `addto`.
fn addto(alloc: Global, tokens: &mut Tokens<'_>) -> Result<Command, TextFault>
    ensures { AnswersLine (from rests.addto (ahead tokens.old)) result }
{
    let name = tokens.name()?;
    if tokens.takes_word(Word::Contour) {
        return add_contour(alloc, tokens, name);
    }
    tokens.pass_word(Word::Also)?;
    if tokens.takes_mark(Mark::Minus) {
        return also(tokens, name, Sign::Minus);
    }
    also(tokens, name, Sign::Plus)
}

/// The line after `addto`, a name and `contour`.
fn add_contour(alloc: Global, tokens: &mut Tokens<'_>, name: Name) -> Result<Command, TextFault>
    ensures { AnswersLine
        (from (rests.path (λ p. rests.weight_then_end (AddContour name p))) (ahead tokens.old))
        result }
{
    let path = tokens.path(alloc)?;
    let weight = tokens.weight()?;
    tokens.pass_line_end()?;
    contour_command(name, path, weight)
}

/// The line after `addto`, a name, `also`, and `-` where it comes.
#[inline(always)]
fn also(tokens: &mut Tokens<'_>, name: Name, sign: Sign) -> Result<Command, TextFault>
    ensures { AnswersLine (from (rests.source_then_end (AddPicture name sign)) (ahead tokens.old))
        result }
{
    let source = tokens.source()?;
    tokens.pass_line_end()?;
    Ok(Command::Also(name, source, sign))
}

/// The line after `cull`.
fn cull(tokens: &mut Tokens<'_>) -> Result<Command, TextFault>
    ensures { AnswersLine (from rests.cull (ahead tokens.old)) result }
{
    let name = tokens.name()?;
    if tokens.takes_word(Word::Keeping) {
        return keep(tokens, name);
    }
    tokens.pass_word(Word::Dropping)?;
    drop_range(tokens, name)
}

/// The line after `cull`, a name and `keeping`.
fn keep(tokens: &mut Tokens<'_>, name: Name) -> Result<Command, TextFault>
    ensures { AnswersLine (from (rests.range_then_end (CullKeeping name)) (ahead tokens.old))
        result }
{
    let range = tokens.pair()?;
    let weight = tokens.weight()?;
    tokens.pass_line_end()?;
    keep_command(name, range, weight)
}

/// The line after `cull`, a name and `dropping`.
fn drop_range(tokens: &mut Tokens<'_>, name: Name) -> Result<Command, TextFault>
    ensures { AnswersLine (from (rests.range_then_end (CullDropping name)) (ahead tokens.old))
        result }
{
    let range = tokens.pair()?;
    let weight = tokens.weight()?;
    tokens.pass_line_end()?;
    drop_command(name, range, weight)
}

/// The line after `show`.
fn show(tokens: &mut Tokens<'_>) -> Result<Command, TextFault>
    ensures { AnswersLine (from rests.show (ahead tokens.old)) result }
{
    if tokens.takes_word(Word::TotalWeight) {
        return total(tokens);
    }
    let source = tokens.source()?;
    tokens.pass_line_end()?;
    Ok(Command::Show(source))
}

/// The line after `show totalweight`.
fn total(tokens: &mut Tokens<'_>) -> Result<Command, TextFault>
    ensures { AnswersLine (from (rests.source_then_end ShowTotal) (ahead tokens.old)) result }
{
    let source = tokens.source()?;
    tokens.pass_line_end()?;
    Ok(Command::Total(source))
}

/// The line after `proof`.
fn proof(tokens: &mut Tokens<'_>) -> Result<Command, TextFault>
    ensures { AnswersLine (from (rests.source_then_end ShowProof) (ahead tokens.old)) result }
{
    let source = tokens.source()?;
    tokens.pass_line_end()?;
    Ok(Command::Proof(source))
}

/// The line after `shipout`.
fn shipout(tokens: &mut Tokens<'_>) -> Result<Command, TextFault>
    ensures { AnswersLine (from rests.shipout (ahead tokens.old)) result }
{
    let source = tokens.source()?;
    tokens.pass_word(Word::Code)?;
    let code = tokens.code()?;
    tokens.pass_word(Word::Dx)?;
    let dx = tokens.int()?;
    tokens.pass_word(Word::Width)?;
    let width = tokens.int()?;
    tokens.pass_line_end()?;
    Ok(Command::Ship(source, code.value(), dx.value(), width.value()))
}

/// The line after `turningcheck`.
fn turning_check(tokens: &mut Tokens<'_>) -> Result<Command, TextFault>
    ensures { AnswersLine (from rests.turning_check (ahead tokens.old)) result }
{
    tokens.pass_mark(Mark::Becomes)?;
    let number = tokens.int()?;
    tokens.pass_line_end()?;
    Ok(Command::Turning(check(number.value())))
}

/// The line after `publish`.
fn publish(tokens: &mut Tokens<'_>) -> Result<Command, TextFault>
    ensures { AnswersLine (from (rests.line_end PublishAll) (ahead tokens.old)) result }
{
    tokens.pass_line_end()?;
    Ok(Command::Publish)
}

/// The line after the name that it begins with.
fn assignment(tokens: &mut Tokens<'_>, name: Name) -> Result<Command, TextFault>
    ensures { AnswersLine (from (rests.assignment name) (ahead tokens.old)) result }
{
    tokens.pass_mark(Mark::Becomes)?;
    if tokens.takes_word(Word::NullPicture) {
        return clear(tokens, name);
    }
    tokens.pass_name(name)?;
    transform(tokens, name)
}

/// The line after a name and `:= nullpicture`.
fn clear(tokens: &mut Tokens<'_>, name: Name) -> Result<Command, TextFault>
    ensures { AnswersLine (from (rests.line_end (Clear name)) (ahead tokens.old)) result }
{
    tokens.pass_line_end()?;
    Ok(Command::Clear(name))
}

/// The line after a name, `:=` and the same name.
fn transform(tokens: &mut Tokens<'_>, name: Name) -> Result<Command, TextFault>
    ensures { AnswersLine (from (rests.transform name) (ahead tokens.old)) result }
{
    if tokens.takes_word(Word::Shifted) {
        return shift(tokens, name);
    }
    scale_or_turn(tokens, name)
}

/// The line after a name, `:=` and the same name, where `shifted` does not come: `scaled`, `xscaled`, `yscaled` or `rotated`
/// must.
fn scale_or_turn(tokens: &mut Tokens<'_>, name: Name) -> Result<Command, TextFault>
    ensures { AnswersLine (from (rests.scale_or_turn name) (ahead tokens.old)) result }
{
    if tokens.takes_word(Word::Scaled) {
        return scale_both(tokens, name);
    }
    if tokens.takes_word(Word::XScaled) {
        return scale_columns(tokens, name);
    }
    if tokens.takes_word(Word::YScaled) {
        return scale_rows(tokens, name);
    }
    tokens.pass_word(Word::Rotated)?;
    turn(tokens, name)
}

/// The line after a name, `:=`, the same name and `scaled`.
fn scale_both(tokens: &mut Tokens<'_>, name: Name) -> Result<Command, TextFault>
    ensures { AnswersLine
        (from (rests.int_then_end (λ n. Move name (Scaled n))) (ahead tokens.old))
        result }
{
    let factor = tokens.int()?;
    tokens.pass_line_end()?;
    scale_command(name, factor.value(), factor.value())
}

/// The line after a name, `:=`, the same name and `xscaled`.
fn scale_columns(tokens: &mut Tokens<'_>, name: Name) -> Result<Command, TextFault>
    ensures { AnswersLine
        (from (rests.int_then_end (λ n. Move name (XScaled n))) (ahead tokens.old))
        result }
{
    let factor = tokens.int()?;
    tokens.pass_line_end()?;
    scale_command(name, factor.value(), 1)
}

/// The line after a name, `:=`, the same name and `yscaled`.
fn scale_rows(tokens: &mut Tokens<'_>, name: Name) -> Result<Command, TextFault>
    ensures { AnswersLine
        (from (rests.int_then_end (λ n. Move name (YScaled n))) (ahead tokens.old))
        result }
{
    let factor = tokens.int()?;
    tokens.pass_line_end()?;
    scale_command(name, 1, factor.value())
}

/// The line after a name, `:=`, the same name and `rotated`.
fn turn(tokens: &mut Tokens<'_>, name: Name) -> Result<Command, TextFault>
    ensures { AnswersLine
        (from (rests.int_then_end (λ n. Move name (Rotated n))) (ahead tokens.old))
        result }
{
    let angle = tokens.int()?;
    tokens.pass_line_end()?;
    turn_command(name, angle)
}

/// The line after a name, `:=`, the same name and `shifted`.
fn shift(tokens: &mut Tokens<'_>, name: Name) -> Result<Command, TextFault>
    ensures { AnswersLine
        (from (rests.pair (λ by. rests.line_end (Move name (Shifted by)))) (ahead tokens.old))
        result }
{
    let by = tokens.pair()?.value();
    tokens.pass_line_end()?;
    Ok(Command::Shift(name, by.x, by.y))
}
