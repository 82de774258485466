//! The text of a state, written.

ghost use Rattle.std.specs.Prelude.{◌≡◌, ◌++◌, OnOk, OnErr};
ghost use Rattle.gw_state_text.specs.Text.{state_text};
ghost use Rattle.gw_state_text.specs.internal.Put.{IsPut};

use crate::items::put_all;
use crate::lines::put_counts;
use crate::object::Objects;
use crate::port::PortLines;
use crate::tables::RouteLines;
use gw_addr::put_slice;
use gw_state::Saved;
use std::alloc::AllocError;

/// Appends the text of a state. After an `Err` a front of it may be there.
fn put_text(out: &mut Vec<u8>, saved: &Saved) -> Result<(), AllocError>
    ensures { IsPut (state_text saved.now) out.old.items out.new.items result }
{
    put_slice(out, b"bacgw state 1\n")?;
    put_counts(out, saved.counts())?;
    put_all(&PortLines, out, saved.ports())?;
    let routes = RouteLines {
        ports: saved.ports().len(),
    };
    put_all(&routes, out, saved.routes())?;
    put_all(&Objects, out, saved.objects())?;
    put_slice(out, b"end\n")
}

/// Appends the text of a state ([`read_state`](crate::read_state) reads it back). An `Err` only if memory
/// was refused; the buffer then holds what it held.
pub fn put_state(saved: &Saved, out: &mut Vec<u8>) -> Result<(), AllocError>
    ensures ok { OnOk result (out.new.items ≡ out.old.items ++ state_text saved.now) }
    ensures err { OnErr result (out.new.items ≡ out.old.items) }
{
    let len = out.len();
    let put = put_text(out, saved);
    if put.is_err() {
        out.truncate(len);
    }
    put
}
