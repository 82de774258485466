//! A part of a second that is waited between two looks for a file.

use mio::{Events, Poll};
use std::alloc::Global;
use std::io;
use std::net::Net;
use std::time::Duration;

/// How often it is looked for a file in a second.
pub(crate) const LOOKS: u32 = 10;

/// What waits between two looks.
#[derive(Drop)]
pub(crate) struct Pause {
    poll: Poll,
    events: Events,
}

impl Pause {
    /// A new one. An `Err` if the system can't wait, or memory was refused.
    pub(crate) fn new<R: Net>(rt: &R, alloc: Global) -> io::Result<Self> {
        Ok(Pause {
            poll: Poll::new(rt)?,
            events: Events::with_capacity(alloc, 1)?,
        })
    }

    /// Waits for a part of a second.
    pub(crate) fn wait(&mut self) -> io::Result<()> {
        self.poll
            .poll(&mut self.events, Some(Duration::from_millis(100)))
    }
}
