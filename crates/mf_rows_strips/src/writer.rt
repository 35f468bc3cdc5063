//! Writing a list of strips, from the top down.
ghost use Rattle.std.specs.Prelude.{◌≡◌, [], ◌∷◌, ◌++◌, ◌≤ℤ◌, ◌≤◌, ◌+◌, IfOk, OnOk, OnErr};
ghost use Rattle.mf_geom.specs.Coordinates.{least_coordinate, greatest_coordinate};
ghost use Rattle.mf_rows_edges.specs.Edges.{AreEdges};
ghost use Rattle.mf_rows_edges.specs.Merging.{AreChanges};
ghost use Rattle.mf_rows_edges.specs.Sums.{HasMoreEdges};
ghost use Rattle.mf_rows_edges.specs.WeightMaps.{IsWeightMap};
ghost use Rattle.mf_rows_strips.specs.Changes.{HasMappedStrip};
ghost use Rattle.mf_rows_strips.specs.Heads.{strips_at};
ghost use Rattle.mf_rows_strips.specs.Parts.{strips_in};
ghost use Rattle.mf_rows_strips.specs.Strips.{AreStrips, last_row};
ghost use Rattle.mf_rows_strips.specs.Sums.{HasSumStrip};

use crate::part::Part;
use crate::strips::{Head, strip_of_head};
use mf_base::OutOfMemory;
use mf_rows_edges::{Edge, WeightMap, push_mapped_edges, push_sum_of_edges};
use std::alloc::Global;
use std::marker::Model;

/// Writes strips, from the top down. To contracts it is the list of the strips that it has.
#[derive(Debug, Drop)]
pub(crate) struct PartWriter {
    heads: Vec<Head>,
    edges: Vec<Edge>,
}

impl Model for PartWriter {
    ghost use Rattle.std.specs.Prelude.{List};
    ghost use Rattle.mf_rows_strips.specs.Strips.{EdgeStrip};

    ghost Value = { List EdgeStrip };

    ghost use Rattle.mf_rows_strips.specs.Heads.{strips_at, AreHeads};

    ghost view = { λ w. strips_at w.edges.items w.heads.items };

    ghost invariant = { λ w. AreHeads w.edges.items w.heads.items };
}

impl PartWriter {
    /// No strips yet, and room for this many strips and edges.
    pub(crate) fn with_room(
        alloc: Global,
        strips: usize,
        edges: usize,
    ) -> Result<PartWriter, OutOfMemory>
        ensures { IfOk result (λ writer. writer ≡ []) }
    {
        let mut heads = Vec::new(alloc);
        heads.reserve(strips)?;
        let mut kept = Vec::new(alloc);
        kept.reserve(edges)?;
        Ok(PartWriter { heads, edges: kept })
    }

    /// Appends a strip with these edges, whose rows begin below the height `top`.
    pub(crate) fn push(&mut self, top: i32, edges: &[Edge]) -> Result<(), OutOfMemory>
        requires bottom { least_coordinate ≤ℤ top }
        requires top { top ≤ℤ greatest_coordinate }
        ensures { OnOk result
            (self.new ≡ self.old ++ record { top = top; edges = edges.now } ∷ []) }
    {
        let start = self.edges.len();
        push_row(&mut self.edges, edges)?;
        let head = head_between(top, start, self.edges.len())?;
        Ok(self.heads.push(head)?)
    }

    /// Appends a strip, whose rows begin below the height `top`, with the sum of two rows. Requires the edges of a row on the left, and
    /// changes of a row on the right.
    pub(crate) fn push_sum(
        &mut self,
        top: i32,
        left: &[Edge],
        right: &[Edge],
    ) -> Result<(), OutOfMemory>
        requires bottom { least_coordinate ≤ℤ top }
        requires top { top ≤ℤ greatest_coordinate }
        requires left { AreEdges left.now }
        requires right { AreChanges right.now }
        ensures { OnOk result (HasSumStrip self.old top left.now right.now self.new) }
    {
        // Mostly one of two rows is blank.
        if right.is_empty() {
            return self.push(top, left);
        }
        if left.is_empty() {
            return self.push(top, right);
        }
        let start = self.edges.len();
        push_sum_of_edges(&mut self.edges, left, right)?;
        let head = head_between(top, start, self.edges.len())?;
        Ok(self.heads.push(head)?)
    }

    /// Appends a strip, whose rows begin below the height `top`, with the mapped weights of a row. Nothing is appended where the strip
    /// before has these weights already, and so goes on, nor where there is none yet and they are 0. Requires the edges of a row.
    pub(crate) fn push_mapped(
        &mut self,
        top: i32,
        row: &[Edge],
        map: &WeightMap,
    ) -> Result<(), OutOfMemory>
        requires bottom { least_coordinate ≤ℤ top }
        requires top { top ≤ℤ greatest_coordinate }
        requires row { AreEdges row.now }
        requires map { IsWeightMap map.now }
        ensures { OnOk result (HasMappedStrip map.now top row.now self.old self.new) }
    {
        let start = self.edges.len();
        push_mapped_edges(&mut self.edges, row, map)?;
        if &self.edges[start..] == self.last_row() {
            self.edges.truncate(start);
            return Ok(());
        }
        let head = head_between(top, start, self.edges.len())?;
        Ok(self.heads.push(head)?)
    }

    /// The edges of the last strip, none where there is no strip.
    #[tactic(auto, using(crate::proofs::HeadsLemmas::last_row_is))]
    pub(crate) fn last_row(&self) -> &[Edge]
        ensures { result.now ≡ last_row self.now }
    {
        match self.heads.last() {
            Some(head) => strip_of_head(&self.edges, head).edges,
            None => &[],
        }
    }

    /// The part of these strips. Room that is left is given back where it is more than an eighth.
    pub(crate) fn finish(self, reach: i32) -> Part
        requires { AreStrips reach self }
        ensures strips { strips_in result ≡ self }
        ensures reach { result.reach ≡ reach }
    {
        let PartWriter {
            mut heads,
            mut edges,
        } = self;
        if heads.len() < heads.capacity() / 8 * 7 {
            heads.shrink_to_fit();
        }
        if edges.len() < edges.capacity() / 8 * 7 {
            edges.shrink_to_fit();
        }
        Part::of(heads, edges, reach)
    }
}

/// The head of a strip whose edges are those from index `start` up to, but not including, `end`. Refused where `start` does not fit 32
/// bits, or the number of edges 16 bits.
fn head_between(top: i32, start: usize, end: usize) -> Result<Head, OutOfMemory>
    requires bottom { least_coordinate ≤ℤ top }
    requires height { top ≤ℤ greatest_coordinate }
    requires order { start ≤ end }
    ensures top { IfOk result (λ head. head.top ≡ top) }
    ensures start { IfOk result (λ head. head.start ≡ start) }
    ensures end { IfOk result (λ head. head.start + head.count ≡ end) }
{
    let (Ok(first), Ok(count)) = (u32::try_from(start), u16::try_from(end - start)) else {
        return Err(OutOfMemory);
    };
    Ok(Head {
        top: top as i16,
        count,
        start: first,
    })
}

/// Appends the edges of a row to a list of edges. Most rows have two.
fn push_row(edges: &mut Vec<Edge>, row: &[Edge]) -> Result<(), OutOfMemory>
    ensures pushed { OnOk result (edges.new.items ≡ edges.old.items ++ row.now) }
    ensures kept { OnErr result (HasMoreEdges edges.old.items edges.new.items) }
{
    if let [first, second] = row {
        edges.push(*first)?;
        edges.push(*second)?;
        return Ok(());
    }
    Ok(edges.extend_from_slice(row)?)
}
