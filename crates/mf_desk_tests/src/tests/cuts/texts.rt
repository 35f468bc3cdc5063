//! What cuts of lines print, in tables by subject, because a single table is too large for the prover.

mod contours;
mod operations;
mod other_lines;
mod refused_contours;

/// A line, and two texts that it leads to in a session whose register `a` has the run `0 0 2 1` at first.
///
/// The first text has an entry for each cut, from no byte to all bytes but the last: the column at which the cut is refused as
/// `Syntax`, or `-` where the cut is itself a line of the grammar. The second text is what the lines of the grammar print among
/// the cuts, followed by what the complete line, `show a`, `show currentpicture` and `publish` then print.
pub(super) type CutLine = (&'static str, &'static str, &'static str);

/// All of these lines.
pub(super) fn cut_lines() -> [&'static [CutLine]; 4] {
    [
        contours::lines(),
        refused_contours::lines(),
        operations::lines(),
        other_lines::lines(),
    ]
}
