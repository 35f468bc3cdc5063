//! Bytes that are being written, up to a limit.
ghost use Rattle.std.specs.Prelude.{◌≤◌, ◌^◌};

mod writing;

/// A buffer of bytes that are being written, at most `room` of them: a limit, and not a capacity. Bytes for which there is no room, or
/// for which an allocation fails, are only counted. So a file that is too long is refused as such, whether or not there is memory for
/// it.
#[derive(Drop)]
pub(crate) struct Spelling {
    bytes: Vec<u8>,
    /// The number of bytes. Once it exceeds `room` it is no longer exact.
    length: usize,
    room: usize,
    /// Whether an allocation failed for some of the bytes.
    is_out_of_memory: bool,
    ghost small: { room ≤ 2 ^ 31 },
    ghost counted: { length ≤ 2 ^ 33 },
}
