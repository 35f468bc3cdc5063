//! Sums, culls, clears and transforms.

use super::CutLine;

pub(super) fn lines() -> &'static [CutLine] {
    LINES
}

const LINES: &[CutLine] = &[
    // Sums.
    (
        "addto currentpicture also a",
        "- 2 1 1 1 6 6 8 7 7 7 7 7 7 7 7 7 7 7 7 21 21 22 22 22 26 26",
        "0 0 2 1\n0 0 2 1\npublished 1\n",
    ),
    (
        "addto currentpicture also -currentpicture",
        "- 2 1 1 1 6 6 8 7 7 7 7 7 7 7 7 7 7 7 7 21 21 22 22 22 26 26 28 - 28 28 28 28 28 28 \
         28 28 28 28 28 28",
        "0 0 2 1\nblank\npublished 2\n",
    ),
    (
        "addto currentpicture also currentpicture",
        "- 2 1 1 1 6 6 8 7 7 7 7 7 7 7 7 7 7 7 7 21 21 22 22 22 26 26 - 27 27 27 27 27 27 27 \
         27 27 27 27 27",
        "0 0 2 1\nblank\npublished 2\n",
    ),
    // Culls.
    (
        "cull a keeping (1,1) withweight 3",
        "- 2 1 1 5 5 7 7 8 8 8 8 8 8 15 15 17 18 19 20 - - 22 22 22 22 22 22 22 22 22 32 32",
        "0 0 2 3\nblank\npublished 0\n",
    ),
    (
        "cull a dropping (-1,0) withweight -2",
        "- 2 1 1 5 5 7 7 8 8 8 8 8 8 8 16 16 18 19 20 21 22 - - 24 24 24 24 24 24 24 24 24 34 \
         34 36",
        "0 0 2 -2\nblank\npublished 0\n",
    ),
    (
        "cull currentpicture keeping (0,3) withweight 0",
        "- 2 1 1 5 5 7 6 6 6 6 6 6 6 6 6 6 6 6 20 20 21 21 21 21 21 21 28 28 30 31 32 33 - - \
         35 35 35 35 35 35 35 35 35 45 45",
        "refused BadCull\nrefused BadCull\nrefused BadWeight\n0 0 2 1\nblank\npublished 0\n",
    ),
    (
        "cull a keeping (0,3)",
        "- 2 1 1 5 5 7 7 8 8 8 8 8 8 15 15 17 18 19 20",
        "refused BadCull\n0 0 2 1\nblank\npublished 0\n",
    ),
    (
        "cull a dropping (1,3)",
        "- 2 1 1 5 5 7 7 8 8 8 8 8 8 8 16 16 18 19 20 21",
        "refused BadCull\n0 0 2 1\nblank\npublished 0\n",
    ),
    (
        "cull a keeping (3,2)",
        "- 2 1 1 5 5 7 7 8 8 8 8 8 8 15 15 17 18 19 20",
        "refused BadCull\n0 0 2 1\nblank\npublished 0\n",
    ),
    (
        "cull a keeping (2,3) withweight 2",
        "- 2 1 1 5 5 7 7 8 8 8 8 8 8 15 15 17 18 19 20 - - 22 22 22 22 22 22 22 22 22 32 32",
        "blank\nblank\npublished 0\n",
    ),
    (
        "cull b dropping (-1,1)",
        "- 2 1 1 5 5 7 7 8 8 8 8 8 8 8 16 16 18 19 20 21 22",
        "0 0 2 1\nblank\npublished 0\n",
    ),
    // Clears and transforms.
    (
        "a := nullpicture",
        "- 2 2 3 5 5 6 6 6 6 6 6 6 6 6 6",
        "blank\nblank\npublished 0\n",
    ),
    (
        "currentpicture := nullpicture",
        "- 2 1 1 1 1 1 1 1 1 1 1 1 1 15 15 16 18 18 19 19 19 19 19 19 19 19 19 19",
        "0 0 2 1\nblank\npublished 1\n",
    ),
    (
        "a := b shifted (1,0)",
        "- 2 2 3 5 5 6 6 6 6 6 6 6 6 6 6 6 6 6 6",
        "refused Syntax 6\n0 0 2 1\nblank\npublished 0\n",
    ),
    (
        "a := a shifted (2,-1)",
        "- 2 2 3 5 5 7 7 8 8 8 8 8 8 15 15 17 18 19 20 21",
        "-1 2 4 1\nblank\npublished 0\n",
    ),
    (
        "currentpicture := currentpicture shifted (4096,0)",
        "- 2 1 1 1 1 1 1 1 1 1 1 1 1 15 15 16 18 18 19 19 19 19 19 19 19 19 19 19 19 19 19 33 \
         33 34 34 34 34 34 34 41 41 43 44 45 46 47 48 49",
        "0 0 2 1\nblank\npublished 1\n",
    ),
    (
        "a := a scaled 2",
        "- 2 2 3 5 5 7 7 8 8 8 8 8 14 14",
        "1 0 5 1\n0 0 5 1\nblank\npublished 0\n",
    ),
    (
        "a := a xscaled 4095",
        "- 2 2 3 5 5 7 7 8 8 8 8 8 8 15 15 - - -",
        "refused OutOfField\nrefused OutOfField\n0 0 479 1\nblank\npublished 0\n",
    ),
    (
        "a := a yscaled -1",
        "- 2 2 3 5 5 7 7 8 8 8 8 8 8 15 15 17",
        "-1 0 2 1\nblank\npublished 0\n",
    ),
    (
        "a := a rotated90",
        "- 2 2 3 5 5 7 7 8 8 8 8 8 8 15 -",
        "refused BadTurn\n2 -1 -1 1\n1 -1 -1 1\n0 -1 -1 1\nblank\npublished 0\n",
    ),
    (
        "a := a xscaled -1",
        "- 2 2 3 5 5 7 7 8 8 8 8 8 8 15 15 17",
        "0 -3 -1 1\nblank\npublished 0\n",
    ),
    (
        "a := a xscaled -2",
        "- 2 2 3 5 5 7 7 8 8 8 8 8 8 15 15 17",
        "0 -6 -1 1\nblank\npublished 0\n",
    ),
    (
        "a := a rotated 90",
        "- 2 2 3 5 5 7 7 8 8 8 8 8 8 15 15 -",
        "refused BadTurn\n2 -1 -1 1\n1 -1 -1 1\n0 -1 -1 1\nblank\npublished 0\n",
    ),
    (
        "a := a rotated 180",
        "- 2 2 3 5 5 7 7 8 8 8 8 8 8 15 15 - -",
        "refused BadTurn\nrefused BadTurn\n-1 -3 -1 1\nblank\npublished 0\n",
    ),
    (
        "a := a rotated 270",
        "- 2 2 3 5 5 7 7 8 8 8 8 8 8 15 15 - -",
        "refused BadTurn\nrefused BadTurn\n-1 0 0 1\n-2 0 0 1\n-3 0 0 1\nblank\npublished 0\n",
    ),
    (
        "a := a scaled 0",
        "- 2 2 3 5 5 7 7 8 8 8 8 8 14 14",
        "refused BadScale\n0 0 2 1\nblank\npublished 0\n",
    ),
    (
        "a := a rotated 45",
        "- 2 2 3 5 5 7 7 8 8 8 8 8 8 15 15 -",
        "refused BadTurn\nrefused BadTurn\n0 0 2 1\nblank\npublished 0\n",
    ),
    (
        "a := a shifted (1,0)",
        "- 2 2 3 5 5 7 7 8 8 8 8 8 8 15 15 17 18 19 20",
        "0 1 3 1\nblank\npublished 0\n",
    ),
    (
        "b := b xscaled 4095",
        "- 2 2 3 5 5 7 7 8 8 8 8 8 8 15 15 - - -",
        "0 0 2 1\nblank\npublished 0\n",
    ),
];
