//! What a saved state holds, and what of it is taken over.
ghost use Rattle.std.specs.Prelude.{◌≡◌, ◌++◌, IfOk, OnErr, OnOk};
ghost use Rattle.std.specs.List.{flat_map};
ghost use Rattle.gw_state_words.specs.Words.{counts_line, dropped_line, dropped_words, line, state_words};

use crate::lines::put_line;
use crate::takeover::{TakeoverFinding, take_over};
use crate::words::put_counted;
use gw_addr::{keep_whole, put_slice};
use gw_configuration::Config;
use gw_state::{Saved, SavedCounts};
use std::alloc::{AllocError, Global};

/// Appends what a saved state holds, line by line, and what of it a gateway of this configuration takes over
/// or drops, with the reason.
///
/// ```text
/// state: after 86400 ticks and at most 1017 denials
/// port 1, network 1, 192.168.1.1:47808: table of 3 peers and 2 foreign devices taken over
/// port 2, network 3, 192.168.3.1:47808: other peers are configured: table of 3 peers dropped, 1 foreign device taken over
/// port 3, network 4, 192.168.4.1:47808: not in the state: begins anew
/// port 4, network 5, 192.168.5.1:47808: another broadcast manager is configured: table of 3 peers and 2 foreign devices dropped
/// port of network 2, 192.168.2.1:47808: not configured: table of 3 peers and 2 foreign devices dropped
/// route to 400 by port 2, next router 192.168.3.21:47808: taken over
/// route to 500 by port 1, next router 192.168.1.9:47808: a route to it is configured: dropped
/// object 19,1 multi-state-value, priority 8: 3: taken over
/// object 19,1 multi-state-value, priority 9: 5 is out of range: dropped
/// object 19,1 multi-state-value, default: 2: another default is configured: dropped
/// object 40,2 characterstring-value, priority 16: "it is \x22open\x22": taken over
/// object 2,7 analog-value: not in the state: begins anew
/// object 5,2 binary-value: not configured: 2 slots dropped
/// ```
///
/// A slot that is empty and a default that wasn't written have no line. In a text each octet but those of
/// printable ASCII, and each quote and backslash, is `\x` and its two hexadecimal digits. An `Err` only if a
/// growth of memory was refused: the buffer then holds what it held.
pub fn put_state_words(config: &Config, saved: &Saved, out: &mut Vec<u8>) -> Result<(), AllocError>
    ensures ok { OnOk result (out.new.items ≡ out.old.items ++ state_words config.now saved.now) }
    ensures err { OnErr result (out.new.items ≡ out.old.items) }
{
    let text = state_text(*out.allocator(), config, saved)?;
    let len = out.len();
    let put = put_slice(out, &text);
    keep_whole(out, len, put)
}

fn state_text(alloc: Global, config: &Config, saved: &Saved) -> Result<Vec<u8>, AllocError>
    ensures { IfOk result (λ text. text.items ≡ state_words config.now saved.now) }
{
    let taken = take_over(alloc, config, saved)?;
    let mut text = Vec::new(alloc);
    put_counts(&mut text, saved.counts())?;
    put_lines(&mut text, taken.findings())?;
    Ok(text)
}

fn put_counts(out: &mut Vec<u8>, counts: SavedCounts) -> Result<(), AllocError>
    ensures { OnOk result (out.new.items ≡ out.old.items ++ counts_line counts) }
{
    out.extend_from_slice(b"state: after ")?;
    put_counted(out, counts.ticks, " tick", " ticks")?;
    out.extend_from_slice(b" and at most ")?;
    put_counted(out, counts.denials, " denial", " denials")?;
    out.extend_from_slice(b"\n")
}

fn put_lines(out: &mut Vec<u8>, findings: &[TakeoverFinding]) -> Result<(), AllocError>
    ensures { OnOk result (out.new.items ≡ out.old.items ++ flat_map line findings.now) }
{
    for finding in findings {
        put_line(out, finding)?;
    }
    Ok(())
}

/// Appends what a gateway of this configuration drops of a saved state: a line of
/// [`put_state_words`] for each thing, with `state: ` in front. Nothing is appended if nothing is dropped.
/// An `Err` only if a growth of memory was refused: the buffer then holds what it held.
pub fn put_dropped(config: &Config, saved: &Saved, out: &mut Vec<u8>) -> Result<(), AllocError>
    ensures ok { OnOk result (out.new.items ≡ out.old.items ++ dropped_words config.now saved.now) }
    ensures err { OnErr result (out.new.items ≡ out.old.items) }
{
    let text = dropped_text(*out.allocator(), config, saved)?;
    let len = out.len();
    let put = put_slice(out, &text);
    keep_whole(out, len, put)
}

fn dropped_text(alloc: Global, config: &Config, saved: &Saved) -> Result<Vec<u8>, AllocError>
    ensures { IfOk result (λ text. text.items ≡ dropped_words config.now saved.now) }
{
    let taken = take_over(alloc, config, saved)?;
    let mut text = Vec::new(alloc);
    put_dropped_lines(&mut text, taken.findings())?;
    Ok(text)
}

fn put_dropped_lines(out: &mut Vec<u8>, findings: &[TakeoverFinding]) -> Result<(), AllocError>
    ensures { OnOk result (out.new.items ≡ out.old.items ++ flat_map dropped_line findings.now) }
{
    for finding in findings {
        put_dropped_line(out, finding)?;
    }
    Ok(())
}

fn put_dropped_line(out: &mut Vec<u8>, finding: &TakeoverFinding) -> Result<(), AllocError>
    ensures { OnOk result (out.new.items ≡ out.old.items ++ dropped_line finding.now) }
{
    if finding.loss().is_none() {
        return Ok(());
    }
    out.extend_from_slice(b"state: ")?;
    put_line(out, finding)
}
