//! Codes of characters, as a line writes them.
ghost use Rattle.std.specs.Prelude.{◌≡◌, true};
ghost use Rattle.mf_text.specs.Ints.{is_code};

use crate::int::Int;

/// The int after `code`, in 0..=255. The invariant says so, so that no use of its value needs a check. 0 is two ints,
/// since `-` may come before it.
#[derive(Clone, Copy)]
pub struct Code {
    pub(crate) int: Int,
    ghost is_code: { is_code int ≡ true },
}

impl Code {
    ghost use Rattle.std.specs.Prelude.{◌≡◌};
    ghost use Rattle.mf_text.specs.Rests.{code_of};

    /// The code that an int is, if it is in 0..=255.
    #[tactic(auto, using(crate::proofs::ReadInts::where_none), unfolding(crate::specs::Rests::code_of))]
    pub fn new(int: Int) -> Option<Code>
        ensures { result ≡ code_of int }
    {
        if is_code(int) {
            return Some(Code { int });
        }
        None
    }

    /// Its value, in 0..=255.
    pub fn value(self) -> u8
        ensures { result ≡ self.int.magnitude }
    {
        self.int.magnitude as u8
    }
}

/// Whether an int is in 0..=255.
fn is_code(int: Int) -> bool
    ensures { result ≡ is_code int }
{
    let value = int.value();
    0 <= value && value <= 255
}
