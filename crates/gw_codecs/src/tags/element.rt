//! What is at the front of a list.

/// A value with its content, or the beginning or end of a list, and the octets after it.
#[derive(Clone, Copy)]
pub enum Element<'a> {
    Value(&'a [u8]),
    Opened(u8, &'a [u8]),
    Closed(u8, &'a [u8]),
}
