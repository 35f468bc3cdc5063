//! Pictures that are made from a picture.

use mf_base::OutOfMemory;
use mf_rows::Picture;
use mf_rows_edges::WeightMap;
use std::alloc::Global;

/// What is made from a picture.
#[derive(Clone, Copy, Debug)]
pub(crate) enum Derived {
    Copy,
    /// Weights 1 and 2 become 3, and all others 0.
    Chosen,
    /// All weights but 0 become -7.
    Level,
    ColumnsMirrored,
    RowsMirrored,
    Turned,
}

impl Derived {
    /// Makes it from this picture.
    pub(crate) fn of(self, alloc: Global, picture: &Picture) -> Result<Picture, OutOfMemory> {
        match self {
            Derived::Copy => picture.copy(alloc),
            Derived::Chosen => choose(alloc, picture),
            Derived::Level => level(alloc, picture),
            Derived::ColumnsMirrored => picture.mirror_columns(alloc),
            Derived::RowsMirrored => picture.mirror_rows(alloc),
            Derived::Turned => picture.turn(alloc),
        }
    }
}

/// The picture in which weights 1 and 2 become 3, and all others 0.
#[tactic(auto, unfolding(mf_rows_edges::specs::WeightMaps::mapped_weight))]
fn choose(alloc: Global, picture: &Picture) -> Result<Picture, OutOfMemory> {
    let map = WeightMap {
        low: 1,
        high: 2,
        inside: 3,
        outside: 0,
    };
    picture.map_weights(alloc, &map)
}

/// The picture in which all weights but 0 become -7.
#[tactic(auto, unfolding(mf_rows_edges::specs::WeightMaps::mapped_weight))]
fn level(alloc: Global, picture: &Picture) -> Result<Picture, OutOfMemory> {
    let map = WeightMap {
        low: 0,
        high: 0,
        inside: 0,
        outside: -7,
    };
    picture.map_weights(alloc, &map)
}
