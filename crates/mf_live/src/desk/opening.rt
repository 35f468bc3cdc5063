//! Opening a live picture.
ghost use Rattle.std.specs.Prelude.{◌≡◌, ◌≤◌, [], All, length, IfOk, IfSome};
ghost use Rattle.left_right.specs.Sides.{view};
ghost use Rattle.mf_live.specs.Desks.{desk_identity, most_places, remaining_viewers};
ghost use Rattle.mf_live.specs.Holders as holders;
ghost use Rattle.mf_live.specs.Rule.{view_knowing};
ghost use Rattle.mf_live.specs.Viewers.{IsFresh};
ghost use Rattle.mf_live.specs.Writers as writers;

use super::Desk;
use crate::holder::Holder;
use crate::rule::{Takes, Twice};
use crate::viewer::Viewer;
use crate::writer::Writer;
use mf_base::OutOfMemory;
use std::alloc::Global;
use std::sync::Wait;

/// Opens a blank picture of revision 0: its writer, which accepts at most `max_ops` operations, and a desk with at most `places`
/// viewers. Requires at most 64 places. Refused with `OutOfMemory` where an allocation fails. It takes `rt` because it publishes
/// once, which is how the writer learns which picture it has; it has nobody to wait for, since nobody looks yet.
#[tactic(auto, using(crate::proofs::Blank::blank_revision))]
pub fn open_picture<R: Wait>(
    rt: &R,
    alloc: Global,
    places: u32,
    max_ops: u32,
) -> Result<(Writer, Desk), OutOfMemory>
    requires { places ≤ most_places }
    ensures accepted { IfOk result (λ opened. writers.accepted_list opened.0 ≡ []) }
    ensures published { IfOk result (λ opened. writers.published_list opened.0 ≡ []) }
    ensures max_ops { IfOk result (λ opened. writers.max_ops opened.0 ≡ max_ops) }
    ensures identity { IfOk result (λ opened. desk_identity opened.1 ≡ writers.identity opened.0) }
    ensures places { IfOk result (λ opened. remaining_viewers opened.1 ≤ places) }
{
    let mut viewers = Vec::with_capacity(alloc, places as usize)?;
    // There is room for one reader at least, since `left_right` makes no table without one.
    let mut holder = Holder::open(rt, alloc, places.max(1) as usize)?;
    seat_all(&mut holder, &mut viewers, places);
    let known = holder.swap.published().notice.copy();
    Ok((Writer { holder, max_ops }, Desk { viewers, known }))
}

/// Makes viewers of a picture in which nothing has happened: up to `places` of them, as far as they can be had.
fn seat_all(holder: &mut Holder, viewers: &mut Vec<Viewer>, places: u32)
    requires identified { view holder.old.swap.desk.place
        ≡ view_knowing (holders.knowledge holder.old) }
    requires empty { (holders.knowledge holder.old).seen.log ≡ [] }
    requires none { viewers.old.items ≡ [] }
    ensures known { holders.knowledge holder.new ≡ holders.knowledge holder.old }
    ensures accepted { holders.accepted_list holder.new ≡ holders.accepted_list holder.old }
    ensures published { holders.published_list holder.new ≡ holders.published_list holder.old }
    ensures fresh { All (IsFresh (holders.knowledge holder.old)) viewers.new.items }
    ensures few { length viewers.new.items ≤ places }
{
    for _ in 0..places {
        let Some(viewer) = seat_one(holder) else {
            break;
        };
        if viewers.push(viewer).is_err() {
            break;
        }
    }
}

/// A viewer of a picture in which nothing has happened, if there can be one.
fn seat_one(holder: &mut Holder) -> Option<Viewer>
    requires identified { view holder.old.swap.desk.place
        ≡ view_knowing (holders.knowledge holder.old) }
    requires empty { (holders.knowledge holder.old).seen.log ≡ [] }
    ensures identified { view holder.new.swap.desk.place
        ≡ view_knowing (holders.knowledge holder.old) }
    ensures known { holders.knowledge holder.new ≡ holders.knowledge holder.old }
    ensures accepted { holders.accepted_list holder.new ≡ holders.accepted_list holder.old }
    ensures published { holders.published_list holder.new ≡ holders.published_list holder.old }
    ensures fresh { IfSome result (IsFresh (holders.knowledge holder.old)) }
{
    let mut reader = holder.swap.factory().reader().ok()?;
    let note = holder.swap.tell::<Twice>();
    reader.learn::<Takes>(note);
    Some(Viewer {
        reader,
        known: holder.swap.published().notice.copy(),
        looked: holder.history.known.copy(),
    })
}
