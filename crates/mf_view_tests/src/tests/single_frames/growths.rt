//! Frames whose allocations are refused, one after another. Each test asserts that the picture stays as it was, and that with
//! ample memory it then has its frame.

use super::{PLAIN_LETTER, least_canvas};
use crate::tests::assertions::assert_same;
use crate::tests::{LETTER, picture_of};
use mf_testing::{grow_again, refuse_growths};
use mf_view_frame::{Style, draw};

#[test]
fn a_frame_is_drawn(rt: HostRuntime) {
    let alloc = rt.alloc();
    let (picture, canvas) = (picture_of(&rt, alloc, LETTER), least_canvas(&rt));
    refuse_growths(alloc);
    let text = draw(alloc, &picture, 7, canvas, Style::Plain);
    grow_again(alloc);
    let same = picture.equal(&picture_of(&rt, alloc, LETTER));
    assert_same(&rt, same, true, "the picture");
    let text = text
        .or_else(|_| draw(alloc, &picture, 7, canvas, Style::Plain))
        .expect(&rt, "there is room for the frame");
    assert_same(&rt, text.as_slice(), PLAIN_LETTER.as_bytes(), "the frame");
}
