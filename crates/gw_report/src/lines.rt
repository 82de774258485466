//! The lines of a text of any length, put together from what is read of it.

use memchr::memchr;
use std::alloc::{AllocError, Global};

/// How many octets a line may have, without its line feed, to be kept.
pub(crate) const MAX_LINE: usize = 4096;

/// A line as far as it was read.
#[derive(Drop)]
pub(crate) struct Line {
    octets: Vec<u8>,
    is_long: bool,
}

impl Line {
    /// Nothing is read of it yet.
    pub(crate) fn new(alloc: Global) -> Self {
        Line {
            octets: Vec::new(alloc),
            is_long: false,
        }
    }

    /// Whether nothing was read of it.
    pub(crate) fn is_empty(&self) -> bool {
        self.octets.is_empty() && !self.is_long
    }

    /// Its octets, or `None` if it has more than [`MAX_LINE`].
    pub(crate) fn octets(&self) -> Option<&[u8]> {
        if self.is_long {
            None
        } else {
            Some(self.octets.as_slice())
        }
    }

    /// Goes on with these octets.
    pub(crate) fn extend(&mut self, octets: &[u8]) -> Result<(), AllocError> {
        if self.is_long || octets.len() > MAX_LINE.saturating_sub(self.octets.len()) {
            self.is_long = true;
            return Ok(());
        }
        self.octets.extend_from_slice(octets)
    }

    /// Begins the next line.
    pub(crate) fn clear(&mut self) {
        self.octets.clear();
        self.is_long = false;
    }
}

/// What comes before the first line feed, and what comes after it.
pub(crate) fn split_line(text: &[u8]) -> Option<(&[u8], &[u8])> {
    let end = memchr(b'\n', text)?;
    Some((&text[..end], &text[end + 1..]))
}
