//! Run texts.
ghost use Rattle.std.specs.Prelude.{◌≡◌, ◌++◌, IfOk};
ghost use Rattle.mf_rows.specs.Order.{IsRun};
ghost use Rattle.mf_text_show.specs.RunText.{run_text, run_line};

use crate::number::push_number;
use mf_base::OutOfMemory;
use mf_rows::{Picture, Run};
use std::alloc::Global;

/// The most bytes that the line of a run takes: places of up to five bytes for the row and both columns, a weight of up to six, and a
/// byte after each.
const LONGEST_LINE: usize = 25;

/// The run text of a picture: a line `y x1 x2 w` for each maximal run of pixels of the same nonzero weight, with the row, the
/// first and the last column and the weight. Rows are in order from the top, and runs of a row from the left. The text of the
/// blank picture is the line `blank`. Each line ends with a line feed. Refused with `OutOfMemory` where an allocation fails.
pub fn show_runs(alloc: Global, picture: &Picture) -> Result<Vec<u8>, OutOfMemory>
    ensures { IfOk result (λ text. text.items ≡ run_text picture.now) }
{
    // Room for all lines is asked for at once. A text that grows is copied each time, which takes longer than counting the runs.
    let mut text = Vec::with_capacity(alloc, room_for_lines(picture))?;
    for run in picture.runs() {
        push_line(&mut text, &run)?;
    }
    if text.is_empty() {
        text.extend_from_slice(b"blank\n")?;
    }
    Ok(text)
}

/// The most bytes that the lines of all runs take.
fn room_for_lines(picture: &Picture) -> usize {
    let mut most = 0usize;
    for _ in picture.runs() {
        most = most.saturating_add(LONGEST_LINE);
    }
    most
}

/// Appends the line of a run.
fn push_line(text: &mut Vec<u8>, run: &Run) -> Result<(), OutOfMemory>
    requires { IsRun run.now }
    ensures { IfOk result (λ _. text.new.items ≡ text.old.items ++ run_line run.now) }
{
    push_number(text, run.y, b" ")?;
    push_number(text, run.x, b" ")?;
    push_number(text, run.x + (run.len - 1) as i32, b" ")?;
    push_number(text, run.weight, b"\n")
}
