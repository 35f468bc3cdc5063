//! The end of a picture is published while allocations are refused.

use super::{
    Closing, Ended, Viewer, assert_shows, assert_tells, fill, half_close, open, publish_end,
};
use std::alloc::{AllocError, Global};
use std::process::Abort;
use std::sync::Wait;

/// An allocation of this many bytes tells the library of `tests/refused_allocations.py` that allocations are refused from here on, and one
/// of a byte more, that memory is ample again. `mf_testing` has the same signals, but it is not a library of this crate.
const REFUSED_FROM_HERE: usize = 33_554_467;

/// Asks for this many bytes, and gives them back.
fn ask(alloc: Global, size: usize) {
    let asked: Result<Vec<u8>, AllocError> = Vec::with_capacity(alloc, size);
    drop(asked);
}

/// The end as it was published, or as it is published again with ample memory. Until then a look shows what was published before.
fn publish_end_again<R: Abort + Wait>(
    rt: &R,
    published: Result<Ended, Closing>,
    viewer: Viewer,
) -> (Ended, Viewer) {
    match published {
        Ok(ended) => (ended, viewer),
        Err(closing) => {
            let viewer = assert_shows(rt, viewer, 0, 0);
            (publish_end(rt, closing), viewer)
        }
    }
}

#[test]
fn the_end_is_published(rt: HostRuntime) {
    let alloc = rt.alloc();
    let (mut writer, viewer) = open(&rt, alloc);
    fill(&rt, alloc, &mut writer);
    let closing = half_close(writer);
    ask(alloc, REFUSED_FROM_HERE);
    let published = closing.publish(&rt);
    ask(alloc, REFUSED_FROM_HERE + 1);
    let (mut ended, viewer) = publish_end_again(&rt, published, viewer);
    assert_tells(&rt, &mut ended, 1);
    assert_shows(&rt, viewer, 1, 6);
    ended.discard(&rt);
}
