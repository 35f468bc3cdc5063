//! What a run leaves when its reader or its writer fails.

use super::{AMPLE, End, assert_ends};
use crate::tests::assertions::{assert_holds, assert_same};
use mf_base::OutOfMemory;
use mf_desk::{RunFault, run};
use mf_ops::OpFault;
use mf_rows::AddFault;
use mf_testing::{LineFeeds, Pieces, Sink};
use mf_text::{GridFault, TextFault};
use std::fmt::{Debug, Display};
use std::io::{BufWriter, Write};
use std::process::Abort;
use std::sync::Wait;

/// Scripts after which a reader fails, and what they print. The last lines of the last three have no line feed.
const FAILING: &[(&[u8], &[u8])] = &[
    (b"", b""),
    (
        b"addto currentpicture contour (0,0)--(3,0)--(3,2)--(0,2)--cycle\n",
        b"",
    ),
    (
        b"addto currentpicture contour (0,0)--(3,0)--(3,2)--(0,2)--cycle\n\
          show totalweight currentpicture",
        b"",
    ),
    (
        b"show totalweight currentpicture\n\
          show totalweight currentpicture",
        b"totalweight 0\n",
    ),
    (
        b"addto currentpicture contour (0,0)--(3,0)--(3,2)--(0,2)--cycle\n\
          show totalweight currentpicture\n\
          show totalweight currentpicture",
        b"totalweight 6\n",
    ),
];

fn assert_read_faults<R: Abort + Wait + AllocGlobal>(rt: &R, cases: &[(&[u8], &[u8])]) {
    for (script, text) in cases {
        let mut reader = Pieces::failing(script);
        let end = (Some(RunFault::ReadFault), *text);
        assert_ends(rt, &mut reader, &AMPLE, end, *script);
    }
}

#[test]
fn reader_fails(rt: HostRuntime) {
    assert_read_faults(&rt, FAILING);
}

/// Asserts that a script of `left` line feeds, one in each read, ends in this way.
fn assert_reads<R: Abort + Wait + AllocGlobal>(rt: &R, left: u32, end: End<'_>) {
    assert_ends(rt, &mut LineFeeds { left }, &AMPLE, end, left);
}

/// The read that reports the end counts, too.
#[test]
fn reads_end(rt: HostRuntime) {
    assert_reads(&rt, 1_048_575, (None, b""));
    assert_reads(&rt, 1_048_576, (Some(RunFault::ReadFault), b""));
}

/// A script that prints a total weight twice, and what it prints.
pub(super) const TWICE: &[u8] = b"addto currentpicture contour (0,0)--(3,0)--(3,2)--(0,2)--cycle\n\
                                  show totalweight currentpicture\n\
                                  show totalweight currentpicture\n";

pub(super) const TWO_SIXES: &[u8] = b"totalweight 6\ntotalweight 6\n";

/// The same script without its last line feed.
pub(super) const TWICE_UNENDED: &[u8] =
    b"addto currentpicture contour (0,0)--(3,0)--(3,2)--(0,2)--cycle\n\
      show totalweight currentpicture\n\
      show totalweight currentpicture";

/// Asserts that running a script into this writer ends with this fault, or with none.
fn assert_ends_in<R: Abort + Wait + AllocGlobal, W: Write>(
    rt: &R,
    script: &[u8],
    writer: &mut W,
    fault: Option<RunFault>,
) {
    let result = run(rt, rt.alloc(), &mut Pieces::whole(script), writer, &AMPLE);
    assert_same(rt, result.err(), fault, script);
}

/// A script whose second line prints a total weight. Its first line alone is one of those after which a reader fails above.
const RECTANGLE: &[u8] = b"addto currentpicture contour (0,0)--(3,0)--(3,2)--(0,2)--cycle\n\
                           show totalweight currentpicture\n";

/// Five bytes of the only text are written.
#[test]
fn writer_fails_in_the_only_text(rt: HostRuntime) {
    let mut sink = Sink::failing(rt.alloc(), 5);
    let fault = Some(RunFault::WriteFault(5));
    assert_ends_in(&rt, RECTANGLE, &mut sink, fault);
    assert_same(&rt, sink.bytes(), b"total".as_slice(), "bytes");
}

/// Asserts that the sink has taken the first `count` bytes of these texts.
fn assert_sink_took(rt: &impl Abort, sink: &Sink, texts: &[u8], count: usize) {
    let taken = sink.bytes();
    assert_same(rt, taken.len(), count, "bytes");
    assert_holds(rt, texts.starts_with(taken), ("bytes", count));
}

/// Asserts that running `TWICE` into this sink ends with this fault, or with none, and that the sink takes `count` bytes.
fn assert_takes<R: Abort + Wait + AllocGlobal>(
    rt: &R,
    mut sink: Sink,
    fault: Option<RunFault>,
    count: usize,
) {
    assert_ends_in(rt, TWICE, &mut sink, fault);
    assert_sink_took(rt, &sink, TWO_SIXES, count);
}

/// Asserts that a sink with room for `room` bytes takes these, both where it then fails with an error and where it then takes no
/// byte.
fn assert_takes_room<R: Abort + Wait + AllocGlobal>(rt: &R, room: usize) {
    let fault = Some(RunFault::WriteFault(room as u128));
    assert_takes(rt, Sink::failing(rt.alloc(), room), fault, room);
    assert_takes(rt, Sink::full_after(rt.alloc(), room), fault, room);
}

#[test]
fn writer_fails(rt: HostRuntime) {
    for room in [0, 5, 14, 20] {
        assert_takes_room(&rt, room);
    }
    assert_takes(&rt, Sink::bytewise(rt.alloc()), None, 28);
}

/// Asserts that running `TWICE_UNENDED` into a buffered writer over this sink ends with this fault, or with none, and that the
/// sink gets `count` bytes.
fn assert_buffered<R: Abort + Wait + AllocGlobal>(
    rt: &R,
    sink: Sink,
    fault: Option<RunFault>,
    count: usize,
) {
    let mut writer = BufWriter::new(rt.alloc(), sink).expect(rt, "there is room for a buffer");
    assert_ends_in(rt, TWICE_UNENDED, &mut writer, fault);
    assert_sink_took(rt, writer.get_ref(), TWO_SIXES, count);
}

/// Asserts this where the sink has room for `room` bytes, and the fault says that the buffered writer took `count` bytes.
fn assert_buffer_fails<R: Abort + Wait + AllocGlobal>(rt: &R, room: usize, count: u128) {
    let fault = Some(RunFault::WriteFault(count));
    assert_buffered(rt, Sink::failing(rt.alloc(), room), fault, room);
}

/// A buffered writer is flushed before the run ends, and its faults are found.
#[test]
fn buffered_writer_is_flushed(rt: HostRuntime) {
    assert_buffered(&rt, Sink::new(rt.alloc()), None, 28);
    assert_buffer_fails(&rt, 5, 14);
    assert_buffer_fails(&rt, 20, 28);
}

/// A line that prints a total weight, twice, and the number of its bytes before the line feed.
const TOTALS: &[u8] = b"show totalweight currentpicture\n\
                        show totalweight currentpicture\n";

const LINE: usize = 31;

/// Asserts that a run into a buffered writer over a full sink ends after a first read of `first` bytes.
fn assert_flush_fails_before_the_rest<R: Abort + Wait + AllocGlobal>(rt: &R, first: usize) {
    let alloc = rt.alloc();
    let mut reader = Pieces::split(TOTALS, first);
    let mut writer = BufWriter::new(alloc, Sink::failing(alloc, 0)).expect(
        rt,
        "there is room for a buffer",
    );
    let result = run(rt, alloc, &mut reader, &mut writer, &AMPLE);
    assert_same(rt, result.err(), Some(RunFault::WriteFault(14)), first);
}

/// Where a flush fails before the rest of a line is read, the piece of the line that was read has printed nothing.
#[test]
fn piece_of_a_line_is_not_performed(rt: HostRuntime) {
    for piece in [0, 1, 18, LINE] {
        assert_flush_fails_before_the_rest(&rt, LINE + 1 + piece);
    }
}

/// Asserts that a fault is displayed as its name.
fn assert_displays<R: Abort + AllocGlobal, F: Copy + Debug + Display + Drop>(
    rt: &R,
    fault: F,
    name: &str,
) {
    let message = format!(in rt.alloc(); "{fault}").expect(rt, "there is room for a message");
    assert_same(rt, message.as_str(), name, fault);
}

/// A fault is displayed as its name, without a number.
#[test]
fn messages_are_names(rt: HostRuntime) {
    assert_displays(&rt, RunFault::OutOfMemory, "OutOfMemory");
    assert_displays(&rt, RunFault::NoPlace, "NoPlace");
    assert_displays(&rt, RunFault::FileTooLong, "FileTooLong");
    assert_displays(&rt, RunFault::ReadFault, "ReadFault");
    assert_displays(&rt, RunFault::WriteFault(5), "WriteFault");
    assert_displays(&rt, RunFault::NoLook, "NoLook");
}

/// Each type of refusals below displays a failed allocation by the same name.
#[test]
fn a_failed_allocation_has_one_name(rt: HostRuntime) {
    assert_displays(&rt, OutOfMemory, "OutOfMemory");
    assert_displays(&rt, AddFault::OutOfMemory, "OutOfMemory");
    assert_displays(&rt, OpFault::OutOfMemory, "OutOfMemory");
    assert_displays(&rt, GridFault::OutOfMemory, "OutOfMemory");
    assert_displays(&rt, TextFault::OutOfMemory, "OutOfMemory");
}
