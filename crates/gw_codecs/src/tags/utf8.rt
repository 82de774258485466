//! Whether octets are UTF-8.

ghost use Rattle.std.specs.Prelude.{◌≡◌};
ghost use Rattle.std.specs.Str.{is_utf8 as utf8};

/// Whether the octets are UTF-8.
pub fn is_utf8(octets: &[u8]) -> bool
    ensures { result ≡ utf8 octets.now }
{
    str::from_utf8(octets).is_ok()
}
