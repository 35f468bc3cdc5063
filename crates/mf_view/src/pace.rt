//! The pace of a performance: how long it waits after a publish, and between two looks.
use std::thread::sleep;
use std::time::{Clock, Duration};

/// Milliseconds between two looks, so that there are some thirty looks a second.
const LOOK_INTERVAL: u64 = 33;

/// Learns of the publishes and the frames of a performance, and waits.
pub trait Pace {
    /// Takes note, on the writer's side, that this revision was published, after its plate was written. It may wait: the next line
    /// is read after it.
    fn note_publish(&self, revision: u32);

    /// Takes note, on the viewer's side, that the frame of this revision was drawn. The one drawn after the end is not noted.
    fn note_frame(&self, revision: u32);

    /// Waits, on the viewer's side, before the next look.
    fn wait_before_look(&self);
}

/// The pace of the program, by the clock.
#[derive(Drop)]
pub struct Timed<'a, C> {
    pub clock: &'a C,
    /// Milliseconds after each publish.
    pub pause: u32,
}

impl<C: Clock> Pace for Timed<'_, C> {
    fn note_publish(&self, _revision: u32) {
        // To sleep for no time takes more of it than to perform a line.
        if self.pause > 0 {
            sleep(self.clock, Duration::from_millis(self.pause as u64));
        }
    }

    fn note_frame(&self, _revision: u32) {}

    fn wait_before_look(&self) {
        sleep(self.clock, Duration::from_millis(LOOK_INTERVAL));
    }
}
