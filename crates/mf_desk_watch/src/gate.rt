//! What happens while a viewer holds a look.

/// A hook, called in each look of the viewers that run in threads while the look is held. It may wait. That stops no other viewer, and
/// it delays the writer only in calls that may wait for held looks, as a publish does. Whoever joins the threads waits for all
/// their gates. A call of a gate leaves nothing that a clause could be about; tests count them.
pub trait Gate: Send + Sync + Drop {
    /// The viewer `viewer` holds its look `look`. Both are counted from 0.
    fn hold(&self, viewer: u32, look: u32);
}

/// A gate that does nothing.
#[derive(Drop)]
pub struct OpenGate;

impl Gate for OpenGate {
    fn hold(&self, _viewer: u32, _look: u32) {}
}
