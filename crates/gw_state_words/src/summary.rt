//! What is taken over, in one line.
ghost use Rattle.std.specs.Prelude.{◌≡◌, ◌++◌, count_by, find, option_copied, IfOk, OnErr, OnOk};
ghost use Rattle.std.specs.List.{flat_map};
ghost use Rattle.gw_state_words.specs.Words.{is_loss, kept_words, kinds, loss_words, many_word, one_word, short_held_words};
ghost use Rattle.gw_state_words.specs.Words.{short_value_words, short_words, take_over_words};

use crate::lines::{put_reason, put_refusal, put_table_reason};
use crate::takeover::{HeldPlace, Loss, RouteFinding, TakeOver, TakeoverFinding, ValueFinding};
use crate::words::{
    put_absence, put_counted, put_devices, put_identifier, put_numbered, put_port, put_value,
};
use gw_addr::{keep_whole, put_decimal, put_slice};
use std::alloc::{AllocError, Global};

/// The kinds of losses, in the order in which they are reported.
const KINDS: [Loss; 7] = [
    Loss::Port,
    Loss::Tables,
    Loss::Table,
    Loss::Route,
    Loss::Object,
    Loss::Slot,
    Loss::Default,
];

/// Appends how many foreign devices and learned routes are taken over, and of each kind of what is dropped
/// how many there are, and the first of them with its reason. It has no end of a line.
///
/// ```text
/// 12 foreign devices, 3 routes kept; 1 slot dropped: 19,1 at 8: 5 is out of range
/// ```
///
/// An `Err` only if a growth of memory was refused: the buffer then holds what it held.
pub fn put_take_over(taken: &TakeOver, out: &mut Vec<u8>) -> Result<(), AllocError>
    ensures ok { OnOk result (out.new.items ≡ out.old.items ++ take_over_words taken.now) }
    ensures err { OnErr result (out.new.items ≡ out.old.items) }
{
    let text = take_over_text(*out.allocator(), taken)?;
    let len = out.len();
    let put = put_slice(out, &text);
    keep_whole(out, len, put)
}

fn take_over_text(alloc: Global, taken: &TakeOver) -> Result<Vec<u8>, AllocError>
    ensures { IfOk result (λ text. text.items ≡ take_over_words taken.now) }
{
    let mut text = Vec::new(alloc);
    put_kept(&mut text, taken)?;
    put_losses(&mut text, taken.findings(), &KINDS)?;
    Ok(text)
}

fn put_kept(out: &mut Vec<u8>, taken: &TakeOver) -> Result<(), AllocError>
    ensures { OnOk result (out.new.items ≡ out.old.items ++ kept_words taken.now) }
{
    put_devices(out, taken.devices())?;
    out.extend_from_slice(b", ")?;
    put_counted(out, taken.routes() as u64, " route", " routes")?;
    out.extend_from_slice(b" kept")
}

fn put_losses(
    out: &mut Vec<u8>,
    findings: &[TakeoverFinding],
    losses: &[Loss],
) -> Result<(), AllocError>
    ensures { OnOk result (out.new.items ≡
        out.old.items ++ flat_map (loss_words findings.now) losses.now) }
{
    for loss in losses {
        put_loss(out, findings, *loss)?;
    }
    Ok(())
}

fn put_loss(out: &mut Vec<u8>, findings: &[TakeoverFinding], loss: Loss) -> Result<(), AllocError>
    ensures { OnOk result (out.new.items ≡ out.old.items ++ loss_words findings.now loss) }
{
    let Some(first) = first_loss(findings, loss) else {
        return Ok(());
    };
    out.extend_from_slice(b"; ")?;
    put_counted(
        out,
        count_of(findings, loss) as u64,
        one_word(loss),
        many_word(loss),
    )?;
    out.extend_from_slice(b" dropped: ")?;
    put_short(out, first)
}

fn is_loss(loss: Loss, finding: &TakeoverFinding) -> bool
    ensures { result ≡ is_loss loss finding.now }
{
    match finding.loss() {
        Some(other) => loss == other,
        None => false,
    }
}

fn first_loss(findings: &[TakeoverFinding], loss: Loss) -> Option<&TakeoverFinding>
    ensures { option_copied result ≡ find (is_loss loss) findings.now }
{
    findings.iter().find(|finding| is_loss(loss, finding))
}

fn count_of(findings: &[TakeoverFinding], loss: Loss) -> usize
    ensures { result ≡ count_by (is_loss loss) findings.now }
{
    findings
        .iter()
        .filter(|finding| is_loss(loss, finding))
        .count()
}

fn one_word(loss: Loss) -> &'static str
    ensures { result.now ≡ one_word loss }
{
    match loss {
        Loss::Port => " port",
        Loss::Tables => " port's tables",
        Loss::Table => " table of peers",
        Loss::Route => " route",
        Loss::Object => " object",
        Loss::Slot => " slot",
        Loss::Default => " default",
    }
}

fn many_word(loss: Loss) -> &'static str
    ensures { result.now ≡ many_word loss }
{
    match loss {
        Loss::Port => " ports",
        Loss::Tables => " ports' tables",
        Loss::Table => " tables of peers",
        Loss::Route => " routes",
        Loss::Object => " objects",
        Loss::Slot => " slots",
        Loss::Default => " defaults",
    }
}

/// Appends what is dropped, in short, and why.
fn put_short(out: &mut Vec<u8>, finding: &TakeoverFinding) -> Result<(), AllocError>
    ensures { OnOk result (out.new.items ≡ out.old.items ++ short_words finding.now) }
{
    match finding {
        TakeoverFinding::Port {
            number,
            port,
            table,
            ..
        } => {
            put_numbered(out, *number, *port)?;
            out.extend_from_slice(b": ")?;
            put_table_reason(out, *table)
        }
        TakeoverFinding::LostPort { port, absence, .. } => {
            put_port(out, *port)?;
            out.extend_from_slice(b": ")?;
            put_absence(out, *absence)
        }
        TakeoverFinding::Route(route) => put_short_route(out, *route),
        TakeoverFinding::Value(value) => put_short_value(out, value),
        TakeoverFinding::LostObject {
            object,
            absence,
            ..
        } => {
            put_identifier(out, *object)?;
            out.extend_from_slice(b": ")?;
            put_absence(out, *absence)
        }
        TakeoverFinding::NewPort { .. } | TakeoverFinding::NewObject(_) => Ok(()),
    }
}

fn put_short_route(out: &mut Vec<u8>, route: RouteFinding) -> Result<(), AllocError>
    ensures { OnOk result (out.new.items ≡ out.old.items ++ short_words (TakeoverFinding.Route route)) }
{
    out.extend_from_slice(b"to ")?;
    put_decimal(out, route.network)?;
    out.extend_from_slice(b": ")?;
    put_refusal(out, route.fate)
}

fn put_short_value(out: &mut Vec<u8>, value: &ValueFinding) -> Result<(), AllocError>
    ensures { OnOk result (out.new.items ≡ out.old.items ++ short_value_words value.now) }
{
    put_identifier(out, value.object)?;
    put_short_held(out, value.held)?;
    put_value(out, &value.value)?;
    put_reason(out, value.fate)
}

fn put_short_held(out: &mut Vec<u8>, held: HeldPlace) -> Result<(), AllocError>
    ensures { OnOk result (out.new.items ≡ out.old.items ++ short_held_words held) }
{
    match held {
        HeldPlace::Slot(priority) => {
            out.extend_from_slice(b" at ")?;
            put_decimal(out, priority)?;
            out.extend_from_slice(b": ")
        }
        HeldPlace::Default => out.extend_from_slice(b", default: "),
    }
}
