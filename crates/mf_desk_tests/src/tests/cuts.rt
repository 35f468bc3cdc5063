//! Lines that are cut off after each of their bytes: what these cuts print, and that a refused cut changes nothing.

mod texts;

use super::AMPLE;
use super::sessions::{finish, open, perform};
use crate::tests::assertions::{assert_holds, assert_same};
use mf_desk::Session;
use mf_testing::worked_scripts;
use std::alloc::Global;
use std::fmt::Debug;
use std::process::Abort;
use std::sync::Wait;
use texts::{CutLine, cut_lines};

/// Lines that show whether a cut has changed something. They print the pictures that the scripts change, and the number of
/// accepted operations. The contour changes no pixel, and is refused where the turning check is on.
const LOOKS: &str = "show currentpicture\n\
                     show a\n\
                     show b\n\
                     show c\n\
                     show z\n\
                     addto z contour (0,0)--(1,0)--cycle\n\
                     publish\n";

/// The lines that are used instead of `LOOKS` where these print a long text.
const SHORT_LOOKS: &str = "show totalweight currentpicture\n\
                           show totalweight a\n\
                           show totalweight b\n\
                           show totalweight c\n\
                           show totalweight z\n\
                           addto z contour (0,0)--(1,0)--cycle\n\
                           publish\n";

/// A text is long if it has more bytes than this.
const LONG: usize = 1000;

/// Appends a text to the others.
fn append(rt: &impl Abort, texts: &mut Vec<u8>, text: &[u8]) {
    texts
        .extend_from_slice(text)
        .expect(rt, "there is room for the text");
}

/// Performs the lines of a script, and returns what they print.
fn texts_of<R: Abort + Wait>(
    rt: &R,
    alloc: Global,
    session: &mut Session,
    script: &str,
) -> Vec<u8> {
    let mut all = Vec::new(alloc);
    for line in script.lines() {
        let text = perform(rt, alloc, session, line);
        append(rt, &mut all, &text);
    }
    all
}

/// Performs a line that is cut off, and returns what it prints.
fn perform_cut<R: Abort + Wait>(
    rt: &R,
    alloc: Global,
    session: &mut Session,
    cut: &[u8],
) -> Vec<u8> {
    session
        .command(rt, alloc, cut)
        .expect(rt, "there is room for the line")
}

/// Performs all cuts of a line, from no byte to all bytes but the last. Asserts that the refused ones change neither a picture
/// nor the turning check, and do not count as operations.
fn perform_cuts<R: Abort + Wait>(rt: &R, alloc: Global, session: &mut Session, line: &str) {
    let bytes = line.as_bytes();
    let is_long = texts_of(rt, alloc, session, LOOKS).len() > LONG;
    let looks = if is_long { SHORT_LOOKS } else { LOOKS };
    let mut before = texts_of(rt, alloc, session, looks);
    for end in 0..bytes.len() {
        let text = perform_cut(rt, alloc, session, &bytes[..end]);
        let after = texts_of(rt, alloc, session, looks);
        if text.starts_with(b"refused") {
            assert_same(rt, after.as_slice(), before.as_slice(), (line, end));
        }
        before = after;
    }
}

/// Performs all cuts of each line of a script before the line itself. Asserts that the refused ones change no picture and do not
/// count as operations, and returns how many characters were shipped.
fn count_shipped<R: Abort + Wait>(rt: &R, alloc: Global, script: &str) -> u32 {
    let (mut session, _) = open(rt, alloc, AMPLE.max_ops);
    for line in script.lines() {
        perform_cuts(rt, alloc, &mut session, line);
        perform(rt, alloc, &mut session, line);
    }
    let (ended, file) = finish(rt, session);
    ended.discard(rt);
    file.count()
}

/// How many characters the scripts ship in which a line begins with `shipout`, in the order of the scripts. No refused cut ships
/// one. The last script has a line of which nine cuts are lines of the grammar: those that end in a digit of its last number.
const SHIPPED: &[u32] = &[1, 4, 10];

/// Asserts that refused cuts of the worked scripts change no picture and do not count as operations, and returns how many characters
/// are shipped by those of the scripts that ship some.
fn counts_shipped<R: Abort + Wait>(rt: &R, alloc: Global) -> Vec<u32> {
    let mut shipped = Vec::new(alloc);
    for (script, _, _) in worked_scripts().iter().copied().flatten() {
        let count = count_shipped(rt, alloc, script);
        if count > 0 {
            shipped.push(count).expect(rt, "there is room for a count");
        }
    }
    shipped
}

#[test]
fn refused_cuts_change_nothing(rt: HostRuntime) {
    let shipped = counts_shipped(&rt, rt.alloc());
    assert_same(&rt, shipped.as_slice(), SHIPPED, "characters");
}

/// Asserts that a text is the refusal `Syntax` with this column.
fn assert_refused<C: Debug + Drop>(rt: &impl Abort, text: &[u8], column: &str, case: C) {
    let found = text
        .strip_prefix(b"refused Syntax ")
        .and_then(|rest| rest.strip_suffix(b"\n"));
    assert_same(rt, found, Some(column.as_bytes()), case);
}

/// Performs the cuts of a line. Asserts that each is refused as `Syntax` with its column, unless its column is `-`: such a cut is
/// itself a line of the grammar. Returns what the lines of the grammar print.
fn lawful_texts<R: Abort + Wait>(
    rt: &R,
    alloc: Global,
    session: &mut Session,
    line: &str,
    columns: &str,
) -> Vec<u8> {
    let bytes = line.as_bytes();
    let mut texts = Vec::new(alloc);
    let mut columns = columns.split(' ');
    for end in 0..bytes.len() {
        let text = perform_cut(rt, alloc, session, &bytes[..end]);
        let column = columns.next().unwrap_or("");
        if column == "-" {
            append(rt, &mut texts, &text);
        } else {
            assert_refused(rt, &text, column, (line, end));
        }
    }
    assert_holds(rt, columns.next().is_none(), line);
    texts
}

/// Asserts that the cuts of a line are refused or print what its entry says, and so do the lines that are performed after them.
fn assert_cuts_print<R: Abort + Wait>(rt: &R, alloc: Global, cut_line: &CutLine) {
    let (line, columns, texts) = *cut_line;
    let (mut session, _) = open(rt, alloc, AMPLE.max_ops);
    let first = "addto a contour (0,0)--(3,0)--(3,1)--(0,1)--cycle";
    perform(rt, alloc, &mut session, first);
    let mut all = lawful_texts(rt, alloc, &mut session, line, columns);
    for last in [line, "show a", "show currentpicture", "publish"] {
        let text = perform(rt, alloc, &mut session, last);
        append(rt, &mut all, &text);
    }
    session.discard(rt);
    assert_same(rt, all.as_slice(), texts.as_bytes(), line);
}

/// Asserts this of each of these lines.
fn assert_all_cuts_print<R: Abort + Wait>(rt: &R, alloc: Global, cut_lines: &[CutLine]) {
    for cut_line in cut_lines {
        assert_cuts_print(rt, alloc, cut_line);
    }
}

#[test]
fn cuts_print_their_texts(rt: HostRuntime) {
    for lines in cut_lines().iter() {
        assert_all_cuts_print(&rt, rt.alloc(), lines);
    }
}
