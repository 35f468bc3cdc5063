//! Scripts, and what they print and show. Tests cut these into lines and reads, and perform them in sessions, so each form of command and
//! each refusal is among them. Other scripts, which are only run, are in `tests/scripts`.

mod contours;
mod fonts;
mod lines;
mod pictures;

pub use fonts::{RECT, RECT_FILE};

/// A script, its transcript, and what viewers see last of it: the number of operations on `currentpicture` that were accepted,
/// and the total weight of the picture that they make. Every line of the script and of the transcript ends with a line feed.
pub type Script = (&'static str, &'static str, (u32, i64));

/// The scripts, by subject. Functions return them, so that the prover checks what runs them without their texts.
pub fn worked_scripts() -> [&'static [Script]; 3] {
    [contours::scripts(), pictures::scripts(), lines::scripts()]
}
