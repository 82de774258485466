//! Values of labels as the format spells them.

ghost use Rattle.std.specs.Prelude.{◌≡◌, ◌++◌, OnOk};
ghost use Rattle.gw_notices.specs.metrics.Escape.{escaped, escaped_octet};

use gw_addr::{put_octet, put_slice};
use std::alloc::AllocError;

/// Appends a value with a backslash before each backslash and each quote, and `\n` in the place of each line feed.
pub(crate) fn put_escaped(out: &mut Vec<u8>, value: &[u8]) -> Result<(), AllocError>
    ensures { OnOk result (out.new.items ≡ out.old.items ++ escaped value.now) }
{
    for octet in value {
        put_escaped_octet(out, *octet)?;
    }
    Ok(())
}

fn put_escaped_octet(out: &mut Vec<u8>, octet: u8) -> Result<(), AllocError>
    ensures { OnOk result (out.new.items ≡ out.old.items ++ escaped_octet octet) }
{
    if octet == b'\\' {
        put_slice(out, b"\\\\")
    } else if octet == b'"' {
        put_slice(out, b"\\\"")
    } else if octet == b'\n' {
        put_slice(out, b"\\n")
    } else {
        put_octet(out, octet)
    }
}
