//! Numbers in texts.
ghost use Rattle.std.specs.Prelude.{◌≡◌, ◌++◌, IfOk};
ghost use Rattle.std.specs.Fmt.{signed_decimal};

use itoa::Buffer;
use mf_base::OutOfMemory;

/// Appends a number in decimal, with `-` before it where it is negative, and the bytes that come after it. Refused with `OutOfMemory`
/// where an allocation fails; what the text then has, no clause says, and each caller gives it up.
pub fn push_number(text: &mut Vec<u8>, number: i32, after: &[u8]) -> Result<(), OutOfMemory>
    ensures { IfOk result (λ _.
        text.new.items ≡ text.old.items ++ signed_decimal number ++ after.now) }
{
    let mut buffer = Buffer::new();
    text.extend_from_slice(buffer.format(number).as_bytes())?;
    text.extend_from_slice(after)?;
    Ok(())
}
