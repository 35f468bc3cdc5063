//! How lines are read, and lines that are not commands.

use super::Script;

pub(super) fn scripts() -> &'static [Script] {
    SCRIPTS
}

const SCRIPTS: &[Script] = &[
    // Lines without a command.
    ("\n;\n  % note\n \t\n;% ;\nshow a\n", "blank\n", (0, 0)),
    (
        "show totalweight currentpicture ; % note\n",
        "totalweight 0\n",
        (0, 0),
    ),
    // Tokens need no blanks between them, and there may be blanks between a minus and its number.
    (
        "\taddto\ta contour ( - 0 , 00000 ) --(1,0)--(1,1)--(0,1)-- cycle withweight-2;% note\n\
         a:=a shifted(- 1 ,0)%x\n\
         show a;\n",
        "0 -1 -1 -2\n",
        (0, 0),
    ),
    ("a:=a shifted(1,0)%x\nshow a\n", "blank\n", (0, 0)),
    (
        "addto a contour (0,0)--(1,0)--(1,1)--(0,1)--cycle\n\
         a := a xscaled-1\n\
         a := a rotated90\n\
         show a\n",
        "-1 -1 -1 1\n",
        (0, 0),
    ),
    // Lines that are not commands.
    (
        "addto currentpicture contur\n",
        "refused Syntax 22\n",
        (0, 0),
    ),
    ("show totalweight a!\n", "refused Syntax 19\n", (0, 0)),
    (
        "addto a contour (0,0)--(1,0)--cyclewithweight 2\n",
        "refused Syntax 31\n",
        (0, 0),
    ),
    ("show a ; show b\n", "refused Syntax 10\n", (0, 0)),
    // Bytes that no line may have, also in a comment.
    (
        "show a % caf\u{e9}\nshow\u{a0}a\n",
        "refused NotAscii\nrefused NotAscii\n",
        (0, 0),
    ),
    (
        "show a\r\r\nshow \ra\n",
        "refused NotAscii\nrefused NotAscii\n",
        (0, 0),
    ),
];
