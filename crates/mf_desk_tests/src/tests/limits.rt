//! The limit on the operations that `currentpicture` accepts.

use super::{AMPLE, assert_ends};
use mf_desk::Settings;
use mf_testing::Pieces;
use std::process::Abort;
use std::sync::Wait;

/// Asserts that the script prints this transcript where `max_ops` operations on `currentpicture` are accepted.
fn assert_prints_within<R: Abort + Wait + AllocGlobal>(
    rt: &R,
    max_ops: u32,
    script: &str,
    transcript: &str,
) {
    let mut reader = Pieces::whole(script.as_bytes());
    let settings = Settings { max_ops, ..AMPLE };
    let end = (None, transcript.as_bytes());
    assert_ends(rt, &mut reader, &settings, end, script);
}

#[test]
fn one_operation(rt: HostRuntime) {
    assert_prints_within(
        &rt,
        1,
        "addto currentpicture contour (0,0)--(1,0)--(1,1)--(0,1)--cycle\n\
         addto currentpicture contour (0,0)--(1,0)--(1,1)--(0,1)--cycle\n\
         show totalweight currentpicture\n",
        "refused TooManyOperations\n\
         totalweight 1\n",
    );
}

/// Refused operations do not count, and refusals that depend only on the line come first.
#[test]
fn refused_operations(rt: HostRuntime) {
    assert_prints_within(
        &rt,
        1,
        "addto currentpicture contour (0,0)--(1,0)--cycle\n\
         addto currentpicture contour (4094,0)--(4095,0)--(4095,1)--(4094,1)--cycle\n\
         currentpicture := currentpicture shifted (1,0)\n\
         currentpicture := nullpicture\n\
         cull currentpicture keeping (0,1)\n\
         show totalweight currentpicture\n\
         publish\n\
         publish\n",
        "refused Backtracks 0\n\
         refused TooManyOperations\n\
         refused TooManyOperations\n\
         refused BadCull\n\
         totalweight 1\n\
         published 1\n\
         published 1\n",
    );
}

/// The points and the weight of a contour are checked when its line is read, before the limit; the turning check comes after the
/// limit.
#[test]
fn refused_contours(rt: HostRuntime) {
    assert_prints_within(
        &rt,
        1,
        "addto currentpicture contour (0,0)--(1,0)--(1,1)--(0,1)--cycle\n\
         addto currentpicture contour (0,0)--(1,0)--cycle\n\
         addto currentpicture contour (0,0)--(1,0)--(1,2)--(2,2)--(2,1)--(0,1)--cycle\n\
         addto currentpicture contour (0,0)--(4096,0)--(4096,1)--(0,1)--cycle\n\
         addto currentpicture contour (0,0)--(1,0)--(1,1)--(0,1)--cycle withweight 4\n\
         addto currentpicture contour (0,0)--(1,0)--(1,1)--(0,1)--cycle\n\
         show currentpicture\n\
         publish\n",
        "refused TooManyOperations\n\
         refused TooManyOperations\n\
         refused PointOutOfRange 1\n\
         refused BadWeight\n\
         refused TooManyOperations\n\
         0 0 0 1\n\
         published 1\n",
    );
}

/// A pixel of weight 3 that is doubled 13 times, which gives 24,576, and once more, which would be too much.
const HEAVY: &str = "addto currentpicture contour (0,0)--(1,0)--(1,1)--(0,1)--cycle withweight 3\n\
                     addto currentpicture also currentpicture\n\
                     addto currentpicture also currentpicture\n\
                     addto currentpicture also currentpicture\n\
                     addto currentpicture also currentpicture\n\
                     addto currentpicture also currentpicture\n\
                     addto currentpicture also currentpicture\n\
                     addto currentpicture also currentpicture\n\
                     addto currentpicture also currentpicture\n\
                     addto currentpicture also currentpicture\n\
                     addto currentpicture also currentpicture\n\
                     addto currentpicture also currentpicture\n\
                     addto currentpicture also currentpicture\n\
                     addto currentpicture also currentpicture\n\
                     addto currentpicture also currentpicture\n\
                     show totalweight currentpicture\n\
                     publish\n";

/// The limit of operations comes before that of weights.
#[test]
fn weights_that_would_be_too_large(rt: HostRuntime) {
    assert_prints_within(
        &rt,
        15,
        HEAVY,
        "refused WeightTooLarge\ntotalweight 24576\npublished 14\n",
    );
    assert_prints_within(
        &rt,
        14,
        HEAVY,
        "refused TooManyOperations\ntotalweight 24576\npublished 14\n",
    );
}

/// A contour that changes no pixel is an operation.
#[test]
fn contours_without_pixels(rt: HostRuntime) {
    assert_prints_within(
        &rt,
        1,
        "turningcheck := 0\n\
         addto currentpicture contour (0,0)--(1,0)--cycle\n\
         addto currentpicture contour (0,0)--(1,0)--cycle\n\
         turningcheck := 1\n\
         addto currentpicture contour (0,0)--(1,0)--cycle\n\
         show currentpicture\n\
         publish\n",
        "refused TooManyOperations\n\
         refused TooManyOperations\n\
         blank\n\
         published 1\n",
    );
}

/// A register accepts any number of operations.
#[test]
fn registers_have_no_limit(rt: HostRuntime) {
    assert_prints_within(
        &rt,
        0,
        "addto a contour (0,0)--(1,0)--(1,1)--(0,1)--cycle\n\
         addto a also a\n\
         addto currentpicture also a\n\
         show totalweight a\n\
         show currentpicture\n\
         publish\n",
        "refused TooManyOperations\n\
         totalweight 2\n\
         blank\n\
         published 0\n",
    );
}

/// Where no operation on `currentpicture` is accepted, each one is refused. Refusals of its line come before that, and refusals
/// of the operation itself would come after it. Everything else is performed.
#[test]
fn no_operation(rt: HostRuntime) {
    assert_prints_within(
        &rt,
        0,
        "addto currentpicture contour (0,0)--(1,0)--(1,1)--(0,1)--cycle\n\
         addto currentpicture contour (0,0)--(1,0)--cycle\n\
         addto currentpicture also nullpicture\n\
         cull currentpicture dropping (0,0)\n\
         currentpicture := nullpicture\n\
         currentpicture := currentpicture shifted (8190,0)\n\
         currentpicture := currentpicture scaled 1\n\
         currentpicture := currentpicture rotated 180\n\
         addto currentpicture contour (0,0)--cycle\n\
         cull currentpicture keeping (0,0)\n\
         currentpicture := currentpicture yscaled 0\n\
         currentpicture := currentpicture rotated 360\n\
         show currentpicture\n\
         shipout currentpicture code 65 dx 0 width 0\n\
         publish\n",
        "refused TooManyOperations\n\
         refused TooManyOperations\n\
         refused TooManyOperations\n\
         refused TooManyOperations\n\
         refused TooManyOperations\n\
         refused TooManyOperations\n\
         refused TooManyOperations\n\
         refused TooManyOperations\n\
         refused TooFewPoints\n\
         refused BadCull\n\
         refused BadScale\n\
         refused BadTurn\n\
         blank\n\
         [65]\n\
         published 0\n",
    );
}
