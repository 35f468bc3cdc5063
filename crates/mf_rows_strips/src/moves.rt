//! Parts whose rows and columns move.
ghost use Rattle.std.specs.Prelude.{◌≡◌, IfOk, map};
ghost use Rattle.std.specs.List.{filter_map};
ghost use Rattle.mf_rows_edges.specs.Axes.{IsStretch, opposite, source_of, target_of};
ghost use Rattle.mf_rows_strips.specs.Moves.{StripsStayInside, moved_columns, moved_rows, reflected_edge, reversed_head, stretched_edge, stretched_head};
ghost use Rattle.mf_rows_strips.specs.Parts.{strips_in, weight_in_part};
ghost use Rattle.mf_rows_strips.specs.Strips.{HaveStripWeights};

use crate::part::Part;
use crate::strips::Head;
use mf_base::OutOfMemory;
use mf_rows_edges::{Edge, FIELD_END, FIELD_START, Stretch};
use std::alloc::Global;

/// The part reflected in the line between columns -1 and 0: column x becomes column -x - 1. Refused with `OutOfMemory` where an allocation
/// fails.
#[tactic(auto, using(crate::proofs::Mirrors::lists_mirrored))]
pub fn mirrored_columns(alloc: Global, part: &Part) -> Result<Part, OutOfMemory>
    ensures weights { IfOk result (λ new.
        HaveStripWeights (moved_columns opposite (weight_in_part part.now)) (strips_in new)) }
    ensures reach { IfOk result (λ new. new.reach ≡ part.now.reach) }
{
    let heads = reversed_heads(alloc, &part.heads, part.edges.len())?;
    let mut edges = reflected_edges(alloc, &part.edges)?;
    edges.reverse();
    Ok(Part::of(heads, edges, part.reach()))
}

/// The heads of strips after the list of all edges, of length `end`, is reversed. Refused, too, where that length does not fit into a head.
fn reversed_heads(alloc: Global, heads: &[Head], end: usize) -> Result<Vec<Head>, OutOfMemory>
    ensures { IfOk result (λ reversed. reversed.items ≡ map (reversed_head end) heads.now) }
{
    let Ok(end) = u32::try_from(end) else {
        return Err(OutOfMemory);
    };
    let reversed = heads.iter().map(|head| Head {
        top: head.top,
        count: head.count,
        start: end
            .saturating_sub(head.start)
            .saturating_sub(u32::from(head.count)),
    });
    Ok(reversed.collect(alloc)?)
}

/// Edges whose columns are reflected: an edge at x moves to -x and changes its sign. Numbers wrap, since a list may have edges that no
/// strip has, at any column.
fn reflected_edges(alloc: Global, edges: &[Edge]) -> Result<Vec<Edge>, OutOfMemory>
    ensures { IfOk result (λ reflected. reflected.items ≡ map reflected_edge edges.now) }
{
    let reflected = edges.iter().map(|edge| Edge {
        x: edge.x.wrapping_neg(),
        weight: edge.weight.wrapping_neg(),
    });
    Ok(reflected.collect(alloc)?)
}

/// The part reflected in the line between rows -1 and 0: row y becomes row -y - 1. Refused with `OutOfMemory` where an allocation fails.
pub fn mirrored_rows(alloc: Global, part: &Part) -> Result<Part, OutOfMemory>
    ensures weights { IfOk result (λ new.
        HaveStripWeights (moved_rows opposite (weight_in_part part.now)) (strips_in new)) }
    ensures reach { IfOk result (λ new. new.reach ≡ part.now.reach) }
{
    let mut edges = Vec::new(alloc);
    edges.extend_from_slice(&part.edges)?;
    let mut heads = Vec::new(alloc);
    heads.reserve(part.heads.len())?;
    // The row above a strip is the one below its image. Above the first strip it is blank.
    let (mut start, mut count) = (0, 0);
    for head in &part.heads {
        heads.push(Head {
            top: -head.top,
            count,
            start,
        })?;
        (start, count) = (head.start, head.count);
    }
    heads.reverse();
    Ok(Part::of(heads, edges, part.reach()))
}

/// The part after its columns and rows are stretched. Refused with `OutOfMemory` where an allocation fails. Requires factors in 1..=4095,
/// and that all pixels whose weight is not 0 stay in the field.
#[tactic(auto, using(crate::proofs::Stretches::lists_stretched))]
pub fn stretched(
    alloc: Global,
    part: &Part,
    columns: &Stretch,
    rows: &Stretch,
) -> Result<Part, OutOfMemory>
    requires columns { IsStretch columns.now }
    requires rows { IsStretch rows.now }
    requires inside { StripsStayInside columns.now rows.now (strips_in part.now) }
    ensures weights { IfOk result (λ new.
        HaveStripWeights
        (moved_rows (source_of rows.now)
        (moved_columns (source_of columns.now) (weight_in_part part.now)))
        (strips_in new)) }
    ensures reach { IfOk result (λ new. new.reach ≡ part.now.reach) }
{
    let heads = stretched_heads(alloc, &part.heads, rows)?;
    let edges = stretched_edges(alloc, &part.edges, columns)?;
    Ok(Part::of(heads, edges, part.reach()))
}

/// The heads of strips whose rows are stretched. A strip that would begin outside the field is left out: where all pixels of nonzero
/// weight stay in the field, it is blank, and so is the row above it.
fn stretched_heads(alloc: Global, heads: &[Head], rows: &Stretch) -> Result<Vec<Head>, OutOfMemory>
    ensures { IfOk result (λ stretched.
        stretched.items ≡ filter_map (stretched_head rows.now) heads.now) }
{
    let mut stretched = Vec::new(alloc);
    stretched.reserve(heads.len())?;
    stretched.extend(heads.iter().filter_map(|head| stretched_head(head, rows)))?;
    Ok(stretched)
}

/// The head of a strip whose rows are stretched, `None` where it begins outside the field.
fn stretched_head(head: &Head, rows: &Stretch) -> Option<Head>
    ensures { result ≡ stretched_head rows.now head.now }
{
    let top = target_of(rows, head.top);
    if top < i64::from(FIELD_START) || i64::from(FIELD_END) < top {
        return None;
    }
    Some(Head {
        top: top as i16,
        count: head.count,
        start: head.start,
    })
}

/// Where a stretch takes a point of its axis, in or outside the field.
fn target_of(stretch: &Stretch, point: i16) -> i64
    ensures { result ≡ target_of stretch.now point }
{
    i64::from(point) * i64::from(stretch.factor) + i64::from(stretch.offset)
}

/// Edges whose columns are stretched. Numbers wrap, since a list may have edges that no strip has, at any column.
fn stretched_edges(
    alloc: Global,
    edges: &[Edge],
    columns: &Stretch,
) -> Result<Vec<Edge>, OutOfMemory>
    ensures { IfOk result (λ stretched.
        stretched.items ≡ map (stretched_edge columns.now) edges.now) }
{
    let stretched = edges.iter().map(|edge| Edge {
        x: edge
            .x
            .wrapping_mul(columns.factor)
            .wrapping_add(columns.offset),
        weight: edge.weight,
    });
    Ok(stretched.collect(alloc)?)
}
