//! Contours, accepted and refused.

use super::Script;

pub(super) fn scripts() -> &'static [Script] {
    SCRIPTS
}

const SCRIPTS: &[Script] = &[
    // A contour, with its total weight and its runs.
    (
        "addto currentpicture contour (0,0)--(3,0)--(3,2)--(0,2)--cycle\n\
         show totalweight currentpicture\n\
         show currentpicture\n",
        "totalweight 6\n\
         1 0 2 1\n\
         0 0 2 1\n",
        (1, 6),
    ),
    // A clockwise contour has its weight negated.
    (
        "addto currentpicture contour (0,0)--(0,2)--(3,2)--(3,0)--cycle\n\
         show totalweight currentpicture\n\
         addto a contour (0,0)--(0,2)--(3,2)--(3,0)--cycle withweight -2\n\
         show totalweight a\n",
        "totalweight 6\n\
         totalweight -12\n",
        (1, 6),
    ),
    // A square that is walked twice, and a contour that goes straight on at a vertex.
    (
        "addto a contour (0,0)--(2,0)--(2,2)--(0,2)--(0,0)--(2,0)--(2,2)--(0,2)--cycle\n\
         show a\n\
         show totalweight a\n",
        "1 0 1 2\n\
         0 0 1 2\n\
         totalweight 8\n",
        (0, 0),
    ),
    (
        "addto a contour (0,0)--(1,0)--(3,0)--(3,2)--(0,2)--cycle\n\
         show totalweight a\n",
        "totalweight 6\n",
        (0, 0),
    ),
    // Contours that are refused for how their cycle turns change nothing.
    (
        "addto a contour (0,0)--(1,0)--(1,2)--(2,2)--(2,1)--(0,1)--cycle\n\
         show a\n",
        "refused TurningZero\n\
         blank\n",
        (0, 0),
    ),
    (
        "addto a contour (0,0)--(3,0)--(1,0)--(1,1)--(0,1)--cycle\n\
         addto a contour (0,0)--(1,0)--cycle\n\
         show a\n",
        "refused Backtracks 1\n\
         refused Backtracks 0\n\
         blank\n",
        (0, 0),
    ),
    // The path turns straight back at the first vertex, and at the last.
    (
        "addto a contour (0,0)--(1,0)--(1,1)--(2,1)--(2,0)--cycle\n\
         addto a contour (1,0)--(1,1)--(2,1)--(2,0)--(0,0)--cycle\n\
         show a\n",
        "refused Backtracks 0\n\
         refused Backtracks 4\n\
         blank\n",
        (0, 0),
    ),
    (
        "addto a contour (0,0)--(1,1)--(0,1)--cycle\n\
         addto a contour (0,0)--cycle\n\
         addto a contour (0,0)--(4096,0)--(4096,1)--(0,1)--cycle\n\
         addto a contour (0,0)--(1,0)--(1,1)--(0,1)--cycle withweight 4\n\
         show a\n",
        "refused NotRectilinear 0\n\
         refused TooFewPoints\n\
         refused PointOutOfRange 1\n\
         refused BadWeight\n\
         blank\n",
        (0, 0),
    ),
    // Repeated points: within the list, and the first point again at its end.
    (
        "addto a contour (0,0)--(1,0)--(1,0)--(1,1)--(0,1)--cycle\n\
         addto a contour (0,0)--(1,0)--(1,1)--(0,1)--(0,0)--cycle\n\
         show a\n",
        "refused NotRectilinear 1\n\
         refused NotRectilinear 4\n\
         blank\n",
        (0, 0),
    ),
    // The points of a contour are checked before its weight, and its weight before how the cycle turns. The weight of a cull is
    // checked before its range.
    (
        "addto currentpicture contour (0,0)--(1,1)--cycle withweight 4\n\
         addto currentpicture contour (0,0)--(1,0)--cycle withweight 4\n\
         addto currentpicture contour (0,0)--(1,0)--(1,1)--(0,1)--cycle\n\
         cull currentpicture keeping (0,3) withweight 0\n\
         show currentpicture\n",
        "refused NotRectilinear 0\n\
         refused BadWeight\n\
         refused BadWeight\n\
         0 0 0 1\n",
        (1, 1),
    ),
    // With the turning check off, contours keep their winding numbers, whatever their turning number is.
    (
        "turningcheck := 0\n\
         addto a contour (0,0)--(1,0)--(1,2)--(2,2)--(2,1)--(0,1)--cycle\n\
         show a\n\
         show totalweight a\n\
         addto b contour (0,0)--(3,0)--(1,0)--(1,1)--(0,1)--cycle\n\
         show b\n\
         addto c contour (0,0)--(1,0)--cycle\n\
         show c\n\
         addto c contour (0,0)--(1,0)--cycle withweight 4\n",
        "1 1 1 -1\n\
         0 0 0 1\n\
         totalweight 0\n\
         0 0 0 1\n\
         blank\n\
         refused BadWeight\n",
        (0, 0),
    ),
    (
        "turningcheck := -1\n\
         addto a contour (0,0)--(0,2)--(3,2)--(3,0)--cycle\n\
         show a\n\
         show totalweight a\n\
         a := nullpicture\n\
         addto a contour (0,0)--(0,2)--(3,2)--(3,0)--cycle withweight -2\n\
         show totalweight a\n",
        "1 0 2 -1\n\
         0 0 2 -1\n\
         totalweight -6\n\
         totalweight 12\n",
        (0, 0),
    ),
    // Any positive number turns the check on again.
    (
        "turningcheck := 0\n\
         turningcheck := 2\n\
         addto a contour (0,0)--(1,0)--(1,2)--(2,2)--(2,1)--(0,1)--cycle\n\
         show a\n",
        "refused TurningZero\n\
         blank\n",
        (0, 0),
    ),
];
