//! Random numbers, which are the same in each run of the tests.
ghost use Rattle.std.specs.Prelude.{◌<◌, ◌^◌, length};

/// The factor and the summand of the generator.
const FACTOR: u32 = 1_664_525;

const SUMMAND: u32 = 1_013_904_223;

/// A linear congruential generator; only the upper half of its state is used.
#[derive(Debug, Drop)]
pub(crate) struct Chance {
    state: u32,
}

impl Chance {
    /// The generator that starts at a seed.
    pub(crate) fn new(seed: u32) -> Chance {
        Chance { state: seed }
    }

    /// The next number, below a bound.
    pub(crate) fn below(&mut self, bound: u32) -> u32
        requires { 0 < bound }
        ensures { result < bound }
    {
        self.state = self.state.wrapping_mul(FACTOR).wrapping_add(SUMMAND);
        (self.state >> 16) % bound
    }

    /// One of these numbers.
    pub(crate) fn one_of(&mut self, numbers: &[i32]) -> i32
        requires some { 0 < length numbers.now }
        requires few { length numbers.now < 2 ^ 32 }
    {
        numbers[self.below(numbers.len() as u32) as usize]
    }
}
