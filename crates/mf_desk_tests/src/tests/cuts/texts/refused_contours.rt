//! Contours that are refused.

use super::CutLine;

pub(super) fn lines() -> &'static [CutLine] {
    LINES
}

const LINES: &[CutLine] = &[
    (
        "addto a contour (0,0)--(1,0)--cyclewithweight 2",
        "- 2 1 1 1 6 6 8 8 9 9 9 9 9 9 16 16 18 19 20 21 22 22 24 25 26 27 28 29 29 31 31 31 \
         31 31 - 31 31 31 31 31 31 31 31 31 31 31",
        "refused Backtracks 0\nrefused Syntax 31\n0 0 2 1\nblank\npublished 0\n",
    ),
    (
        "addto a contour (0,0)---(1,0)--cycle",
        "- 2 1 1 1 6 6 8 8 9 9 9 9 9 9 16 16 18 19 20 21 22 22 24 24 24 24 24 24 24 24 24 24 \
         24 24 24",
        "refused Syntax 24\n0 0 2 1\nblank\npublished 0\n",
    ),
    (
        "addto a contour (0,0)--(1234567890,0)--cycle",
        "- 2 1 1 1 6 6 8 8 9 9 9 9 9 9 16 16 18 19 20 21 22 22 24 25 26 27 28 29 30 31 32 33 \
         34 25 25 25 25 25 25 25 25 25 25",
        "refused Syntax 25\n0 0 2 1\nblank\npublished 0\n",
    ),
    (
        "addto a contour (0,0)--(1,0)--(1,2)--(2,2)--(2,1)--(0,1)--cycle",
        "- 2 1 1 1 6 6 8 8 9 9 9 9 9 9 16 16 18 19 20 21 22 22 24 25 26 27 28 29 29 31 32 33 \
         34 35 36 36 38 39 40 41 42 43 43 45 46 47 48 49 50 50 52 53 54 55 56 57 57 59 59 59 \
         59 59",
        "refused TurningZero\n0 0 2 1\nblank\npublished 0\n",
    ),
    (
        "addto a contour (0,0)--(3,0)--(1,0)--(1,1)--(0,1)--cycle",
        "- 2 1 1 1 6 6 8 8 9 9 9 9 9 9 16 16 18 19 20 21 22 22 24 25 26 27 28 29 29 31 32 33 \
         34 35 36 36 38 39 40 41 42 43 43 45 46 47 48 49 50 50 52 52 52 52 52",
        "refused Backtracks 1\n0 0 2 1\nblank\npublished 0\n",
    ),
    (
        "addto a contour (0,0)--(1,0)--cycle",
        "- 2 1 1 1 6 6 8 8 9 9 9 9 9 9 16 16 18 19 20 21 22 22 24 25 26 27 28 29 29 31 31 31 \
         31 31",
        "refused Backtracks 0\n0 0 2 1\nblank\npublished 0\n",
    ),
    (
        "addto a contour (0,0)--(1,1)--(0,1)--cycle",
        "- 2 1 1 1 6 6 8 8 9 9 9 9 9 9 16 16 18 19 20 21 22 22 24 25 26 27 28 29 29 31 32 33 \
         34 35 36 36 38 38 38 38 38",
        "refused NotRectilinear 0\n0 0 2 1\nblank\npublished 0\n",
    ),
    (
        "addto a contour (0,0)--cycle",
        "- 2 1 1 1 6 6 8 8 9 9 9 9 9 9 16 16 18 19 20 21 22 22 24 24 24 24 24",
        "refused TooFewPoints\n0 0 2 1\nblank\npublished 0\n",
    ),
    (
        "addto a contour (0,0)--(4096,0)--(4096,1)--(0,1)--cycle",
        "- 2 1 1 1 6 6 8 8 9 9 9 9 9 9 16 16 18 19 20 21 22 22 24 25 26 27 28 29 30 31 32 32 \
         34 35 36 37 38 39 40 41 42 42 44 45 46 47 48 49 49 51 51 51 51 51",
        "refused PointOutOfRange 1\n0 0 2 1\nblank\npublished 0\n",
    ),
    (
        "addto a contour (0,0)--(1,0)--(1,1)--(0,1)--cycle withweight 4",
        "- 2 1 1 1 6 6 8 8 9 9 9 9 9 9 16 16 18 19 20 21 22 22 24 25 26 27 28 29 29 31 32 33 \
         34 35 36 36 38 39 40 41 42 43 43 45 45 45 45 45 - - 51 51 51 51 51 51 51 51 51 61 61",
        "refused BadWeight\n0 0 0 3\n0 1 2 1\nblank\npublished 0\n",
    ),
];
