//! What follows a value's tag.

/// The octets after a value's tag, and what the tag says of them.
#[derive(Clone, Copy)]
pub struct Body<'a> {
    /// The three low bits of the tag's first octet.
    pub low_bits: u8,
    /// The length of the content.
    pub count: u32,
    /// The octets after the tag.
    pub octets: &'a [u8],
}
