//! What a gateway does about one datagram, in words.

ghost use Rattle.std.specs.Prelude.{◌≡◌, ◌++◌, ◌∷◌, [], ℕ, List, IfOk, OnOk};
ghost use Rattle.std.specs.List.{flat_map};
ghost use Rattle.gw_addr.specs.Appending.{IsAppended};
ghost use Rattle.gw_core.specs.Asked.{asked_at};
ghost use Rattle.gw_core.specs.Effects.{effects_at};
ghost use Rattle.gw_core.specs.History.{next};
ghost use Rattle.gw_log_words.specs.Words.{words};
ghost use Rattle.gw_script.specs.Event.{event_view};
ghost use Rattle.gw_verdicts.specs.questions.Answers.{ask_line, batch_lines, logged, port_text, sent_line, step_text, target_lines};
ghost use Rattle.gw_verdicts.specs.questions.Answers.{way_line};

use gw_addr::{BipAddr, put_decimal, put_octet, put_slice};
use gw_audit::laws::fits;
use gw_audit::{Denial, line};
use gw_core::{
    AllAsked, AllAsks, Asked, Batch, Event, Gateway, Reported, Sends, rule_name, take_event,
};
use gw_log_words::translate_line;
use gw_rules::RuleList;
use std::alloc::{AllocError, Global};

/// An ask as the log has it, but for its number and its tick.
fn logged(rules: &RuleList, asked: &Asked) -> Denial
    ensures { result ≡ logged rules.now asked.now }
{
    Denial {
        number: 1,
        tick: 0,
        port: asked.port,
        source: asked.source,
        ask: asked.verdict.ask,
        rule: rule_name(rules, asked.verdict.by),
    }
}

/// A line without its line feed.
fn without_end(line: &[u8]) -> &[u8]
    ensures { (own : List ℕ) (end : ℕ) → line.now ≡ own ++ end ∷ [] → result.now ≡ own }
{
    match line {
        [own @ .., _] => own,
        [] => &[],
    }
}

/// The words of a denial, or of an ask that was allowed.
fn words_of(alloc: Global, is_allowed: bool, denial: &Denial) -> Result<Vec<u8>, AllocError>
    ensures { IfOk result (λ text. text.items ≡ words is_allowed denial.now ++ 10 ∷ []) }
{
    fits(denial);
    gw_log_words::laws::translating();
    let mut written = Vec::new(alloc);
    line(denial, &mut written)?;
    let mut text = Vec::new(alloc);
    translate_line(alloc, None, is_allowed, without_end(&written), &mut text)?;
    Ok(text)
}

/// Appends the words of an ask.
fn put_asked(
    alloc: Global,
    rules: &RuleList,
    asked: &Asked,
    text: &mut Vec<u8>,
) -> Result<(), AllocError>
    ensures { OnOk result (text.new.items ≡ text.old.items ++ ask_line rules.now asked.now) }
{
    let words = words_of(alloc, asked.verdict.is_allowed, &logged(rules, asked))?;
    put_slice(text, &words)
}

/// Appends the words of each ask.
fn put_all_asked(
    alloc: Global,
    rules: &RuleList,
    asked: &[Asked],
    text: &mut Vec<u8>,
) -> Result<(), AllocError>
    ensures { OnOk result (text.new.items ≡ text.old.items ++ flat_map (ask_line rules.now) asked.now) }
{
    for ask in asked {
        put_asked(alloc, rules, ask, text)?;
    }
    Ok(())
}

/// Appends by which port, and a line feed.
fn put_port(text: &mut Vec<u8>, port: u8) -> Result<(), AllocError>
    ensures { IsAppended (port_text port) text.old text.new result }
{
    put_slice(text, b" by port ")?;
    put_decimal(text, port)?;
    put_octet(text, b'\n')
}

/// Appends a word, an address and a port, as a line.
pub fn put_way(
    text: &mut Vec<u8>,
    word: &[u8],
    address: BipAddr,
    port: u8,
) -> Result<(), AllocError>
    ensures { IsAppended (way_line word.now address port) text.old text.new result }
{
    put_slice(text, word)?;
    address.put_text(text)?;
    put_port(text, port)
}

/// Appends a line for each of these addresses.
fn put_targets(text: &mut Vec<u8>, targets: &[BipAddr], port: u8) -> Result<(), AllocError>
    ensures { OnOk result (text.new.items ≡ text.old.items ++ target_lines port targets.now) }
{
    for target in targets {
        put_way(text, b"sent to ", *target, port)?;
    }
    Ok(())
}

/// Appends a line for each address that a message goes to.
fn put_batch(text: &mut Vec<u8>, batch: &Batch) -> Result<(), AllocError>
    ensures { OnOk result (text.new.items ≡ text.old.items ++ batch_lines batch.now) }
{
    put_targets(text, batch.targets(), batch.port())
}

/// Appends the lines of messages.
fn put_batches(text: &mut Vec<u8>, batches: &[Batch]) -> Result<(), AllocError>
    ensures { OnOk result (text.new.items ≡ text.old.items ++ flat_map batch_lines batches.now) }
{
    for batch in batches {
        put_batch(text, batch)?;
    }
    Ok(())
}

/// Appends a line for each datagram that is sent.
fn put_sends(text: &mut Vec<u8>, sends: &Sends) -> Result<(), AllocError>
    ensures { OnOk result (text.new.items ≡ text.old.items ++ flat_map sent_line sends.now) }
{
    put_batches(text, sends.batches())
}

/// Appends what was asked, and what is sent.
fn put_step(
    alloc: Global,
    rules: &RuleList,
    reported: &Reported<AllAsked>,
    text: &mut Vec<u8>,
) -> Result<(), AllocError>
    ensures { let asked = flat_map (ask_line rules.now) reported.now.asked in
        let sent = flat_map sent_line reported.now.taken.effects.sends in
        OnOk result (text.new.items ≡ text.old.items ++ asked ++ sent) }
{
    put_all_asked(alloc, rules, reported.asked.as_slice(), text)?;
    put_sends(text, &reported.taken.effects.sends)
}

/// Has a gateway take an event, and appends what it asks and sends, in words.
pub fn take(
    alloc: Global,
    gateway: &mut Gateway,
    event: &Event<'_>,
    text: &mut Vec<u8>,
) -> Result<Reported<AllAsked>, AllocError>
    ensures text { OnOk result (text.new.items ≡ text.old.items ++ step_text gateway.old (event_view event.now)) }
    ensures asked { IfOk result (λ reported. reported.asked ≡ asked_at gateway.old (event_view event.now)) }
    ensures effects { IfOk result (λ reported. reported.taken.effects ≡ effects_at gateway.old (event_view event.now)) }
    ensures moved { OnOk result (gateway.new ≡ next gateway.old (event_view event.now)) }
{
    let Ok(reported) = take_event(alloc, gateway, event, &AllAsks) else {
        return Err(AllocError);
    };
    put_step(alloc, gateway.rules(), &reported, text)?;
    Ok(reported)
}
