//! All that callers name, in one library: each crate of METAFONT's pictures by a short name.
#![tactic(auto)]

pub use mf_desk as desk;
pub use mf_desk_session as session;
pub use mf_desk_watch as watch;
pub use mf_geom as geom;
pub use mf_gf as gf;
pub use mf_live as live;
pub use mf_ops as ops;
pub use mf_rows as rows;
pub use mf_rows_edges::{Stretch, WeightMap};
pub use mf_text as text;
pub use mf_text_show as show;
pub use mf_view_frame as frame;
pub use mf_view_image as image;
