//! Texts as HTML and SVG show them.

ghost use Rattle.std.specs.Prelude.{◌≡◌, ◌++◌, OnOk};
ghost use Rattle.gw_report.specs.page.Escape.{escaped, escaped_octet};

use gw_addr::{put_octet, put_slice};
use gw_configuration::shown;
use std::alloc::AllocError;

/// Appends a text as [`shown`] says, with an entity in the place of each octet that HTML gives a meaning.
pub(crate) fn put_escaped(out: &mut Vec<u8>, text: &[u8]) -> Result<(), AllocError>
    ensures { OnOk result (out.new.items ≡ out.old.items ++ escaped text.now) }
{
    for octet in shown(text) {
        put_escaped_octet(out, octet)?;
    }
    Ok(())
}

fn put_escaped_octet(out: &mut Vec<u8>, octet: u8) -> Result<(), AllocError>
    ensures { OnOk result (out.new.items ≡ out.old.items ++ escaped_octet octet) }
{
    if octet == b'&' {
        put_slice(out, b"&amp;")
    } else if octet == b'<' {
        put_slice(out, b"&lt;")
    } else if octet == b'>' {
        put_slice(out, b"&gt;")
    } else if octet == b'"' {
        put_slice(out, b"&quot;")
    } else if octet == b'\'' {
        put_slice(out, b"&#39;")
    } else {
        put_octet(out, octet)
    }
}
