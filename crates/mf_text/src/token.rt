//! The words and marks of the language.
ghost use Rattle.std.specs.Prelude.{◌≡◌};

/// The words that commands are written with.
#[derive(Clone, Copy, Debug, PartialEq, Eq)]
pub enum Word {
    Addto,
    Also,
    Code,
    Contour,
    Cull,
    CurrentPicture,
    Cycle,
    Dropping,
    Dx,
    Keeping,
    NullPicture,
    Proof,
    Publish,
    Rotated,
    Scaled,
    Shifted,
    Shipout,
    Show,
    TotalWeight,
    TurningCheck,
    Width,
    WithWeight,
    XScaled,
    YScaled,
}

/// How each word is written, in the order of the cases of `Word`.
const WORDS: [&[u8]; 24] = [
    b"addto",
    b"also",
    b"code",
    b"contour",
    b"cull",
    b"currentpicture",
    b"cycle",
    b"dropping",
    b"dx",
    b"keeping",
    b"nullpicture",
    b"proof",
    b"publish",
    b"rotated",
    b"scaled",
    b"shifted",
    b"shipout",
    b"show",
    b"totalweight",
    b"turningcheck",
    b"width",
    b"withweight",
    b"xscaled",
    b"yscaled",
];

impl Word {
    ghost use Rattle.mf_text.specs.Tokens.{word_text};

    /// The bytes that the word is written with.
    #[inline(always)]
    pub fn text(self) -> &'static [u8]
        ensures { result.now ≡ word_text self }
    {
        WORDS[self as usize]
    }
}

/// The marks that commands are written with.
#[derive(Clone, Copy, Debug, PartialEq, Eq)]
pub enum Mark {
    /// `:=`
    Becomes,
    /// `)`
    Close,
    /// `,`
    Comma,
    /// `--`
    Join,
    /// `-`
    Minus,
    /// `(`
    Open,
    /// `;`
    Semicolon,
}

/// How each mark is written, in the order of the cases of `Mark`.
const MARKS: [&[u8]; 7] = [b":=", b")", b",", b"--", b"-", b"(", b";"];

impl Mark {
    ghost use Rattle.mf_text.specs.Tokens.{mark_text};

    /// The bytes that the mark is written with.
    #[inline(always)]
    pub fn text(self) -> &'static [u8]
        ensures { result.now ≡ mark_text self }
    {
        MARKS[self as usize]
    }
}
