//! The rule that ties what each seat knows to the version that is shown, and what the steps under it promise.
use crate::version::Version;
use crate::view::View;
use atomic_table::{Join, Split};
use crossbeam_utils::rule::{Outcome, Protocol};
use left_right::writer::Writer;

/// The rule: what any seat knows of the history is a prefix of what the shown version knows.
pub struct SeatRule;

impl Protocol<Version, View> for SeatRule {
    ghost use Rattle.mf_live.specs.Rule.{EachSeatKnows, newcomer};

    ghost holds = { EachSeatKnows };

    ghost first = { newcomer };
}

/// A look.
pub struct Looks;

impl Outcome<Version, View> for Looks {
    ghost use Rattle.mf_live.specs.Rule.{IsLook};

    ghost then = { λ v x y w. IsLook v y w };
}

/// The writer shows a version. Opening a picture takes this step too: it is how the writer learns which picture it has.
pub struct Shows;

impl Outcome<Version, View> for Shows {
    ghost use Rattle.mf_live.specs.Rule.{IsShow};

    ghost then = { IsShow };
}

/// The writer hands out what it knows, and keeps it.
pub struct Twice;

impl Split<View> for Twice {
    ghost left = { λ v. v };

    ghost right = { λ v. v };
}

/// A newcomer takes over what the writer knows.
pub struct Takes;

impl Join<View> for Takes {
    ghost use Rattle.mf_live.specs.Rule.{newcomer};

    ghost both = { λ v w. w };

    ghost spent = { newcomer };
}

/// The two copies of the picture.
pub type Swap = Writer<Version, (), View, SeatRule>;
