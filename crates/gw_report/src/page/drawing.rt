//! What pictures are drawn of. Lengths are in 724ths of a picture's width.

/// A rectangle, by what it represents.
#[derive(Clone, Copy)]
pub enum Shape {
    /// The gateway.
    Gateway,
    /// The network of a port.
    Network,
    /// A peer of a port.
    Peer,
    /// A router, and the network that it leads to.
    Router,
    /// The gateway's own device.
    Device,
    /// A count.
    Bar,
}

/// A text in a picture, by how it looks.
#[derive(Clone, Copy)]
pub enum Label {
    /// As the texts around it.
    Plain,
    /// The name of something.
    Strong,
    /// What explains something.
    Light,
}

/// A place in a picture: so far to the right, and so far down.
#[derive(Clone, Copy)]
pub struct PicturePlace {
    /// From the left.
    pub x: u64,
    /// From the top.
    pub y: u64,
}

/// The size of a rectangle.
#[derive(Clone, Copy)]
pub struct Size {
    /// From left to right.
    pub width: u64,
    /// From top to bottom.
    pub height: u64,
}
