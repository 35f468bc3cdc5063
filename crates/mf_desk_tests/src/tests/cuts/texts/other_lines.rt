//! Lines that change no picture.

use super::CutLine;

pub(super) fn lines() -> &'static [CutLine] {
    LINES
}

const LINES: &[CutLine] = &[
    // Lines that print pictures.
    (
        "show currentpicture",
        "- 2 1 1 5 5 - 6 6 6 6 6 6 6 6 6 6 6 6",
        "blank\nblank\n0 0 2 1\nblank\npublished 0\n",
    ),
    (
        "show a ; show b",
        "- 2 1 1 5 5 - - - - 10 10 10 10 10",
        "0 0 2 1\n0 0 2 1\n0 0 2 1\n0 0 2 1\nrefused Syntax 10\n0 0 2 1\nblank\npublished 0\n",
    ),
    (
        "show totalweight a!",
        "- 2 1 1 5 5 - 6 6 6 6 6 6 6 6 6 17 17 -",
        "blank\ntotalweight 3\nrefused Syntax 19\n0 0 2 1\nblank\npublished 0\n",
    ),
    (
        "show totalweight currentpicture",
        "- 2 1 1 5 5 - 6 6 6 6 6 6 6 6 6 17 17 - 18 18 18 18 18 18 18 18 18 18 18 18",
        "blank\ntotalweight 0\ntotalweight 0\n0 0 2 1\nblank\npublished 0\n",
    ),
    (
        "proof a",
        "- 2 1 1 1 6 6",
        "111\n0 0 2 1\nblank\npublished 0\n",
    ),
    (
        "proof nullpicture",
        "- 2 1 1 1 6 6 - 7 7 7 7 7 7 7 7 7",
        "blank\nblank\n0 0 2 1\nblank\npublished 0\n",
    ),
    (
        "show totalweight a",
        "- 2 1 1 5 5 - 6 6 6 6 6 6 6 6 6 17 17",
        "blank\ntotalweight 3\n0 0 2 1\nblank\npublished 0\n",
    ),
    (
        "show a",
        "- 2 1 1 5 5",
        "0 0 2 1\n0 0 2 1\nblank\npublished 0\n",
    ),
    (
        "proof b",
        "- 2 1 1 1 6 6",
        "blank\n0 0 2 1\nblank\npublished 0\n",
    ),
    (
        "show b",
        "- 2 1 1 5 5",
        "blank\n0 0 2 1\nblank\npublished 0\n",
    ),
    (
        "show totalweight b",
        "- 2 1 1 5 5 - 6 6 6 6 6 6 6 6 6 17 17",
        "blank\ntotalweight 0\n0 0 2 1\nblank\npublished 0\n",
    ),
    // Lines that ship and publish.
    (
        "shipout currentpicture code 65 dx 327680 width 0",
        "- 2 1 1 1 1 1 8 8 10 9 9 9 9 9 9 9 9 9 9 9 9 23 23 24 24 24 28 28 30 31 31 32 34 34 \
         36 37 38 39 40 41 41 42 42 42 42 47 47",
        "[65]\n0 0 2 1\nblank\npublished 0\n",
    ),
    (
        "shipout a code255dx-999999999width999999999;",
        "- 2 1 1 1 1 1 8 8 10 10 11 11 11 15 16 17 18 18 20 21 22 23 24 25 26 27 28 29 30 30 \
         30 30 30 35 - - - - - - - - -",
        "[255]\n\
         [255]\n\
         [255]\n\
         [255]\n\
         [255]\n\
         [255]\n\
         [255]\n\
         [255]\n\
         [255]\n\
         [255]\n\
         0 0 2 1\n\
         blank\n\
         published 0\n",
    ),
    (
        "shipout a code - 5",
        "- 2 1 1 1 1 1 8 8 10 10 11 11 11 15 15 17 17",
        "refused Syntax 16\n0 0 2 1\nblank\npublished 0\n",
    ),
    (
        "publish",
        "- 2 1 1 1 1 1",
        "published 0\n0 0 2 1\nblank\npublished 0\n",
    ),
    // A line that sets the turning check.
    (
        "turningcheck := -1",
        "- 2 1 1 1 1 1 1 1 1 1 1 13 13 14 16 16 18",
        "0 0 2 1\nblank\npublished 0\n",
    ),
    // Lines with no command.
    (";% ;", "- - - -", "0 0 2 1\nblank\npublished 0\n"),
];
