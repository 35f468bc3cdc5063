//! Ints, as a line writes them.
ghost use Rattle.std.specs.Prelude.{◌≡◌, true, nat_lt};
ghost use Rattle.mf_text.specs.Limits.{number_bound};

/// A number of at most nine digits, with `-` before it or not. The invariant keeps the number below 10^9, so that no use of its
/// value needs a check.
#[derive(Clone, Copy)]
pub struct Int {
    pub(crate) negative: bool,
    pub(crate) magnitude: u32,
    ghost short: { nat_lt magnitude number_bound ≡ true },
}

impl Int {
    ghost use Rattle.std.specs.Prelude.{◌≡◌};
    ghost use Rattle.mf_text.specs.Ints.{int_of, int_value};

    /// The int of this number, with `-` before it where `negative` is true; `None` where the number has more than nine digits.
    #[tactic(auto, using(crate::proofs::ReadInts::where_none), unfolding(crate::specs::Ints::int_of))]
    pub fn new(negative: bool, magnitude: u32) -> Option<Int>
        ensures { result ≡ int_of negative magnitude }
    {
        if magnitude < 1_000_000_000 {
            return Some(Int {
                negative,
                magnitude,
            });
        }
        None
    }

    /// Its value, in -999,999,999..=999,999,999.
    pub fn value(self) -> i32
        ensures { result ≡ int_value self }
    {
        let magnitude = self.magnitude as i32;
        if self.negative { -magnitude } else { magnitude }
    }
}
