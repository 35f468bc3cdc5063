//! The texts about the command line: the usage, the help, and the version.

/// The usage text, which is the message about refused words.
pub const USAGE: &str = "usage: mfview [OPTION..] < SCRIPT (mfview --help lists the options)\n";

/// The help text, which `--help` asks for.
pub const HELP: &str = "usage: mfview [OPTION..] < SCRIPT

Performs a script, and draws currentpicture in the terminal while the script changes it.

  --columns N          draws in N columns of characters, 50..1000 (80)
  --rows N             draws in N rows of characters, 6..1000 (24)
  --pause MS           waits MS milliseconds after each publish, 0..60000 (0)
  --frames             writes one frame after another, without control codes
  --transcript FILE    writes the transcript to FILE instead of standard error
  --plates FOLDER      writes SVG images of what is published and shipped, and a page of them, into FOLDER
  --pgm                writes a PGM image beside each SVG image
  --gf FILE            writes the characters that are shipped out to the font FILE
  --design-size PT     the design size of the font in points, 0..2047 (0)
  --resolution DPI     the resolution of the font in dots per inch, 0..100000 (0)
  --help               writes this text, and does nothing else
  --version            writes the version, and does nothing else
";

/// The version text, which `--version` asks for.
pub const VERSION: &str = "mfview 1.0\n";
