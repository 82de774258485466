//! Which segmented messages a device takes and sends.

/// Which segmented messages a device takes and sends (clause 21, BACnetSegmentation).
#[derive(Clone, Copy, Debug)]
pub enum Segmentation {
    /// 0: it sends them and takes them.
    Both,
    /// 1: it sends them.
    Transmit,
    /// 2: it takes them.
    Receive,
    /// 3: neither.
    None,
}

impl Segmentation {
    ghost use Rattle.std.specs.Prelude.{◌≡◌};
    ghost use Rattle.gw_codecs.specs.services.IAm.{segmentation_number};

    /// The number of the choice.
    pub fn number(self) -> u8
        ensures { result ≡ segmentation_number self }
    {
        match self {
            Segmentation::Both => 0,
            Segmentation::Transmit => 1,
            Segmentation::Receive => 2,
            Segmentation::None => 3,
        }
    }
}
