//! Object identifiers (clause 20.2.14).

ghost use Rattle.std.specs.Prelude.{◌<◌, ◌^◌};

/// An object of a device: its type and its instance.
///
/// ```text
///  31        22 21                      0
/// +------------+-------------------------+
/// |    type    |        instance         |    four octets, the most significant first
/// +------------+-------------------------+
/// ```
#[derive(Clone, Copy, Debug, PartialEq, Eq, Hash)]
pub struct ObjectId {
    /// The number of the type, 0 to 1023.
    pub kind: u16,
    /// The instance among the objects of the type, 0 to 4194303.
    pub instance: u32,
    ghost kind_fits: { kind < 2 ^ 10 },
    ghost instance_fits: { instance < 2 ^ 22 },
}

impl ObjectId {
    ghost use Rattle.std.specs.Prelude.{◌≡◌, ◌↔◌, IsSome, IfSome};
    ghost use Rattle.gw_codecs.specs.tags.Object.{IsObject, object_view, object_octets, object_of};

    /// The object of this type and instance, if they fit 10 and 22 bits.
    pub fn new(kind: u16, instance: u32) -> Option<ObjectId>
        ensures fits { IsSome result ↔ IsObject (record { kind = kind; instance = instance }) }
        ensures value { IfSome
            result (λ o. object_view o ≡ record { kind = kind; instance = instance }) }
    {
        if kind < 1 << 10 && instance < 1 << 22 {
            Some(ObjectId { kind, instance })
        } else {
            None
        }
    }

    /// The object that four octets represent.
    pub fn from_octets(octets: [u8; 4]) -> ObjectId
        ensures { object_view result ≡ object_of octets }
    {
        let number = u32::from_be_bytes(octets);
        ObjectId {
            kind: (number >> 22) as u16,
            instance: number & 0x3F_FFFF,
        }
    }

    /// The four octets that represent the object.
    pub fn to_octets(self) -> [u8; 4]
        ensures { result ≡ object_octets (object_view self) }
    {
        (u32::from(self.kind) << 22 | self.instance).to_be_bytes()
    }
}
