//! Operations on pictures, publishing and shipping.

use super::Script;

pub(super) fn scripts() -> &'static [Script] {
    SCRIPTS
}

const SCRIPTS: &[Script] = &[
    // Sums of pictures.
    (
        "addto currentpicture contour (0,0)--(3,0)--(3,2)--(0,2)--cycle\n\
         addto currentpicture also currentpicture\n\
         show totalweight currentpicture\n\
         addto currentpicture also -currentpicture\n\
         show currentpicture\n",
        "totalweight 12\n\
         blank\n",
        (3, 0),
    ),
    (
        "addto a contour (0,0)--(1,0)--(1,1)--(0,1)--cycle withweight -3\n\
         addto a also a\n\
         addto a also a\n\
         addto a also a\n\
         addto a also a\n\
         addto a also a\n\
         addto a also a\n\
         addto a also a\n\
         addto a also a\n\
         addto a also a\n\
         addto a also a\n\
         addto a also a\n\
         addto a also a\n\
         addto a also a\n\
         addto a also a\n\
         show totalweight a\n",
        "refused WeightTooLarge\n\
         totalweight -24576\n",
        (0, 0),
    ),
    // A pixel of weight 3 that is doubled 13 times, and once more, which would be too much.
    (
        "addto currentpicture contour (0,0)--(1,0)--(1,1)--(0,1)--cycle withweight 3\n\
         addto currentpicture also currentpicture\n\
         addto currentpicture also currentpicture\n\
         addto currentpicture also currentpicture\n\
         addto currentpicture also currentpicture\n\
         addto currentpicture also currentpicture\n\
         addto currentpicture also currentpicture\n\
         addto currentpicture also currentpicture\n\
         addto currentpicture also currentpicture\n\
         addto currentpicture also currentpicture\n\
         addto currentpicture also currentpicture\n\
         addto currentpicture also currentpicture\n\
         addto currentpicture also currentpicture\n\
         addto currentpicture also currentpicture\n\
         show totalweight currentpicture\n\
         addto currentpicture also currentpicture\n\
         show totalweight currentpicture\n",
        "totalweight 24576\n\
         refused WeightTooLarge\n\
         totalweight 24576\n",
        (14, 24_576),
    ),
    // Each register has its own picture.
    (
        "addto a contour (0,0)--(1,0)--(1,1)--(0,1)--cycle\n\
         addto z contour (0,0)--(1,0)--(1,1)--(0,1)--cycle withweight 2\n\
         addto currentpicture also z\n\
         addto currentpicture also -a\n\
         show a\n\
         show b\n\
         show z\n\
         show currentpicture\n\
         show nullpicture\n\
         a := nullpicture\n\
         show a\n\
         show z\n\
         show currentpicture\n",
        "0 0 0 1\n\
         blank\n\
         0 0 0 2\n\
         0 0 0 1\n\
         blank\n\
         blank\n\
         0 0 0 2\n\
         0 0 0 1\n",
        (2, 1),
    ),
    // The blank picture is added, subtracted and shipped. Adding and subtracting it are operations, too.
    (
        "addto a contour (0,0)--(3,0)--(3,2)--(0,2)--cycle\n\
         show totalweight nullpicture\n\
         addto a also nullpicture\n\
         show a\n\
         addto a also -nullpicture\n\
         show a\n\
         addto currentpicture also nullpicture\n\
         addto currentpicture also -nullpicture\n\
         show currentpicture\n\
         publish\n\
         shipout nullpicture code 3 dx 0 width 0\n\
         show nullpicture\n",
        "totalweight 0\n\
         1 0 2 1\n\
         0 0 2 1\n\
         1 0 2 1\n\
         0 0 2 1\n\
         blank\n\
         published 2\n\
         [3]\n\
         blank\n",
        (2, 0),
    ),
    // Culls, and weights as the characters of a grid.
    (
        "addto a contour (0,0)--(3,0)--(3,1)--(0,1)--cycle\n\
         addto a contour (1,0)--(3,0)--(3,1)--(1,1)--cycle\n\
         addto a contour (2,0)--(3,0)--(3,1)--(2,1)--cycle\n\
         show a\n\
         proof a\n\
         cull a keeping (0,3)\n\
         cull a dropping (1,3)\n\
         cull a keeping (3,2)\n\
         cull a keeping (2,3) withweight 2\n\
         show a\n\
         addto b contour (0,0)--(1,0)--(1,1)--(0,1)--cycle withweight -2\n\
         proof b\n\
         cull b dropping (-1,1)\n\
         show b\n",
        "0 0 0 1\n\
         0 1 1 2\n\
         0 2 2 3\n\
         123\n\
         refused BadCull\n\
         refused BadCull\n\
         refused BadCull\n\
         0 1 2 2\n\
         b\n\
         0 0 0 1\n",
        (0, 0),
    ),
    (
        "addto b contour (0,0)--(1,0)--(1,1)--(0,1)--cycle withweight 3\n\
         addto b also b\n\
         addto b also b\n\
         proof b\n\
         c := nullpicture\n\
         addto c also -b\n\
         proof c\n\
         proof nullpicture\n",
        "+\n\
         -\n\
         blank\n",
        (0, 0),
    ),
    (
        "addto a contour (0,0)--(1,0)--(1,1)--(0,1)--cycle\n\
         a := a xscaled 129\n\
         proof a\n",
        "refused ProofTooLarge\n",
        (0, 0),
    ),
    // The pixel (0, 0) under transforms.
    (
        "addto a contour (0,0)--(1,0)--(1,1)--(0,1)--cycle\n\
         a := a xscaled -1\n\
         show a\n",
        "0 -1 -1 1\n",
        (0, 0),
    ),
    (
        "addto a contour (0,0)--(1,0)--(1,1)--(0,1)--cycle\n\
         a := a xscaled -2\n\
         show a\n",
        "0 -2 -1 1\n",
        (0, 0),
    ),
    (
        "addto a contour (0,0)--(1,0)--(1,1)--(0,1)--cycle\n\
         a := a yscaled -1\n\
         show a\n",
        "-1 0 0 1\n",
        (0, 0),
    ),
    (
        "addto a contour (0,0)--(1,0)--(1,1)--(0,1)--cycle\n\
         a := a scaled 2\n\
         show a\n",
        "1 0 1 1\n\
         0 0 1 1\n",
        (0, 0),
    ),
    (
        "addto a contour (0,0)--(1,0)--(1,1)--(0,1)--cycle\n\
         a := a rotated 90\n\
         show a\n",
        "0 -1 -1 1\n",
        (0, 0),
    ),
    (
        "addto a contour (0,0)--(1,0)--(1,1)--(0,1)--cycle\n\
         a := a rotated 180\n\
         show a\n",
        "-1 -1 -1 1\n",
        (0, 0),
    ),
    (
        "addto a contour (0,0)--(1,0)--(1,1)--(0,1)--cycle\n\
         a := a rotated 270\n\
         show a\n",
        "-1 0 0 1\n",
        (0, 0),
    ),
    (
        "addto a contour (0,0)--(1,0)--(1,1)--(0,1)--cycle\n\
         a := a shifted (2,-1)\n\
         show a\n",
        "-1 2 2 1\n",
        (0, 0),
    ),
    (
        "addto a contour (0,0)--(1,0)--(1,1)--(0,1)--cycle\n\
         a := a scaled 0\n\
         show a\n",
        "refused BadScale\n\
         0 0 0 1\n",
        (0, 0),
    ),
    (
        "addto a contour (0,0)--(1,0)--(1,1)--(0,1)--cycle\n\
         a := a rotated 45\n\
         show a\n",
        "refused BadTurn\n\
         0 0 0 1\n",
        (0, 0),
    ),
    // Transforms at the ends of the field.
    (
        "addto a contour (4094,0)--(4095,0)--(4095,1)--(4094,1)--cycle\n\
         a := a shifted (1,0)\n\
         show a\n\
         a := a xscaled -1\n\
         show a\n",
        "refused OutOfField\n\
         0 4094 4094 1\n\
         0 -4095 -4095 1\n",
        (0, 0),
    ),
    (
        "addto b contour (0,0)--(1,0)--(1,1)--(0,1)--cycle\n\
         b := b xscaled 4095\n\
         show totalweight b\n",
        "totalweight 4095\n",
        (0, 0),
    ),
    // Publishing.
    (
        "addto currentpicture contour (0,0)--(1,0)--(1,1)--(0,1)--cycle\n\
         publish\n\
         publish\n",
        "published 1\n\
         published 1\n",
        (1, 1),
    ),
    // Operations on registers and refused operations are not counted.
    (
        "publish\n\
         addto a contour (0,0)--(1,0)--(1,1)--(0,1)--cycle\n\
         addto currentpicture contour (0,0)--(1,0)--cycle\n\
         currentpicture := currentpicture shifted (4096,0)\n\
         addto currentpicture also a\n\
         currentpicture := currentpicture shifted (4096,0)\n\
         currentpicture := nullpicture\n\
         publish\n",
        "published 0\n\
         refused Backtracks 0\n\
         refused OutOfField\n\
         published 3\n",
        (3, 0),
    ),
    // A code may be shipped again. Shipping is not an operation.
    (
        "addto currentpicture contour (0,0)--(3,0)--(3,2)--(0,2)--cycle\n\
         shipout currentpicture code 65 dx 327680 width 0\n\
         shipout nullpicture code 65 dx 0 width 0\n\
         shipout a code 0 dx -1 width -1\n\
         shipout b code -0 dx 0 width 0\n\
         publish\n",
        "[65]\n\
         [65]\n\
         [0]\n\
         [0]\n\
         published 1\n",
        (1, 6),
    ),
    (
        "shipout a code255dx-999999999width999999999;\n\
         shipout a code 256 dx 0 width 0\n\
         shipout a code -5 dx 0 width 0\n\
         shipout a code - 5\n\
         shipout a code -x\n\
         shipout a code 1 dx 0\n",
        "[255]\n\
         refused Syntax 16\n\
         refused Syntax 16\n\
         refused Syntax 16\n\
         refused Syntax 17\n\
         refused Syntax 22\n",
        (0, 0),
    ),
];
