//! What a run answers.
use mf_desk_watch::Glance;
use mf_gf::GfBytes;

/// What a run of a script has made.
#[derive(Drop)]
pub struct Outcome {
    /// The bytes of the font file of the shipped characters, or `None` where no character was shipped.
    pub gf: Option<GfBytes>,
    /// The record of each viewer: a glance of each of its looks, in order. The last shows everything that `currentpicture`
    /// accepted. Empty for a run without viewers.
    pub seen: Vec<Vec<Glance>>,
}
